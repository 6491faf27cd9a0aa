// Values of objects and constants without a walk over a tree.
ghost use Rattle.std.specs.Prelude.{◌≡◌};
ghost use Rattle.c_core.specs.View.{expr_view, program_view};
ghost use Rattle.c_core.specs.declared.number.UnOp.TheVariants.{Neg};
ghost use Rattle.c_meaning.specs.Value.{operated_one, seen_at, value_of, wrapping as wrapping_of};

use crate::number::{fitted, type_of, type_of_object};
use c_core::{Done, Expr, IntType, Node, Program, UnOp, computed_one};
use c_meaning::{Memory, value_in};

// The value of an object's first cell, read by the object's type.
#[inline(always)]
fn look(program: &Program, memory: &Memory, object: u32) -> Option<i128>
    ensures { result ≡ seen_at (program_view program.now) (record { object = object; index = 0 }) memory.now.cells }
{
    match memory.cell(object, 0) {
        Some(value) => Some(fitted(program.model, type_of_object(program, object), value)),
        None => None,
    }
}

/// An overflow wraps.
pub fn wrapping(done: Done) -> Option<i128>
    ensures { result ≡ wrapping_of done }
{
    match done {
        Done::Value(value) => Some(value),
        Done::Overflow(value) => Some(value),
        Done::Undefined => None,
    }
}

// A value of a type negated.
fn negative(program: &Program, ty: IntType, value: i128) -> Option<i128>
    ensures { result ≡ operated_one (program_view program.now) Neg ty value }
{
    wrapping(computed_one(program.model, UnOp::Neg, ty, value))
}

/// The value of an expression.
#[inline(always)]
pub fn value(program: &Program, e: &Expr, memory: &Memory) -> Option<i128>
    ensures { result ≡ value_of (program_view program.now) (expr_view e.now) memory.now.cells }
{
    match &e.node {
        Node::Const(value) => Some(*value),
        Node::Var(object) => look(program, memory, *object),
        Node::Unary { op, of } => match (op, &of.node) {
            (UnOp::Neg, Node::Const(value)) => negative(program, type_of(of), *value),
            _ => value_in(program, e, memory),
        },
        _ => value_in(program, e, memory),
    }
}
