// Whether constraints hold.
ghost use Rattle.std.specs.Prelude.{◌≡◌, true, false};
ghost use Rattle.c_core.specs.Operators as operators;
ghost use Rattle.c_core.specs.View.{expr_view, program_view};
ghost use Rattle.c_meaning.specs.Value.{of_both, of_logic, value_of, holds as holds_in};
ghost use Rattle.way_tests.specs.Truth.{truth_in};

use crate::number::{fitted, is_comparison, is_so, type_of};
use crate::value::value;
use c_core::{BinOp, Expr, Node, Program, common};
use c_meaning::Memory;

// What a comparison answers.
#[inline(always)]
fn compared(
    program: &Program,
    op: BinOp,
    left: &Expr,
    right: &Expr,
    memory: &Memory,
) -> Option<bool>
    requires { operators.is_comparison op ≡ true }
    ensures { result ≡ truth_in (of_both (program_view program.now) op (expr_view left.now) (expr_view right.now)
        memory.now.cells) }
{
    let a = value(program, left, memory)?;
    let b = value(program, right, memory)?;
    let ty = common(program.model, type_of(left), type_of(right));
    let first = fitted(program.model, ty, a);
    let second = fitted(program.model, ty, b);
    Some(is_so(op, first, second))
}

// Whether a value isn't 0, where there is one.
#[inline(always)]
fn truth_of_value(program: &Program, e: &Expr, memory: &Memory) -> Option<bool>
    ensures { result ≡ truth_in (value_of (program_view program.now) (expr_view e.now) memory.now.cells) }
{
    match value(program, e, memory) {
        Some(value) => Some(value != 0),
        None => None,
    }
}

// The right side counts only where the left one holds.
#[cycle(truth)]
fn and(program: &Program, left: &Expr, right: &Expr, memory: &Memory) -> Option<bool>
    ensures { result ≡ truth_in (of_logic (program_view program.now) true (expr_view left.now) (expr_view right.now)
        memory.now.cells) }
{
    match truth(program, left, memory) {
        None => None,
        Some(first) => {
            if first {
                truth(program, right, memory)
            } else {
                Some(false)
            }
        }
    }
}

// The right side counts only where the left one doesn't hold.
#[cycle(truth)]
fn or(program: &Program, left: &Expr, right: &Expr, memory: &Memory) -> Option<bool>
    ensures { result ≡ truth_in (of_logic (program_view program.now) false (expr_view left.now) (expr_view right.now)
        memory.now.cells) }
{
    match truth(program, left, memory) {
        None => None,
        Some(first) => {
            if first {
                Some(true)
            } else {
                truth(program, right, memory)
            }
        }
    }
}

#[cycle(truth)]
fn logic(program: &Program, both: bool, left: &Expr, right: &Expr, memory: &Memory) -> Option<bool>
    ensures { result ≡ truth_in (of_logic (program_view program.now) both (expr_view left.now) (expr_view right.now)
        memory.now.cells) }
{
    if both {
        and(program, left, right, memory)
    } else {
        or(program, left, right, memory)
    }
}

// Whether the value of an expression isn't 0, where there is one.
#[cycle(truth)]
fn truth(program: &Program, e: &Expr, memory: &Memory) -> Option<bool>
    ensures { result ≡ truth_in (value_of (program_view program.now) (expr_view e.now) memory.now.cells) }
{
    match &e.node {
        Node::Logic { both, left, right } => logic(program, *both, left, right, memory),
        Node::Binary { op, left, right } => {
            if is_comparison(*op) {
                compared(program, *op, left, right, memory)
            } else {
                truth_of_value(program, e, memory)
            }
        }
        _ => truth_of_value(program, e, memory),
    }
}

/// Whether a constraint has a value in a memory, and that isn't 0.
pub fn holds(program: &Program, test: &Expr, memory: &Memory) -> bool
    ensures { result ≡ holds_in (program_view program.now) (expr_view test.now) memory.now.cells }
{
    match truth(program, test, memory) {
        Some(answer) => answer,
        None => false,
    }
}
