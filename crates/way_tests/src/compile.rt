// The steps of a constraint, made once.
ghost use Rattle.std.specs.Prelude.{◌≡◌, ℕ, ◌+◌, length, Some, None, Option, List, IfOk};
ghost use Rattle.std.specs.Option.{option_map};
ghost use Rattle.c_core.specs.View.{expr_view, program_view};
ghost use Rattle.way_tests.specs.Code.{code_of, compare_of, items_if, joined, number_if, operand_of, operand_one, step_if};

use crate::number::{is_comparison, type_of, type_of_object};
use crate::step::{Operand, Step, Test};
use crate::value::wrapping;
use c_core::{BinOp, Expr, Node, Program, UnOp, common, computed_one};
use std::alloc::Global;
use wv_base::{OutOfMemory, Seq};

fn number(value: Option<i128>) -> Option<Operand>
    ensures { result ≡ number_if value }
{
    match value {
        Some(value) => Some(Operand::Number(value)),
        None => None,
    }
}

fn operand_one(program: &Program, op: UnOp, of: &Expr) -> Option<Operand>
    ensures { result ≡ operand_one (program_view program.now) op (expr_view of.now) }
{
    match &of.node {
        Node::Const(value) => {
            number(wrapping(computed_one(program.model, op, type_of(of), *value)))
        }
        _ => None,
    }
}

fn operand(program: &Program, e: &Expr) -> Option<Operand>
    ensures { result ≡ operand_of (program_view program.now) (expr_view e.now) }
{
    match &e.node {
        Node::Const(value) => Some(Operand::Number(*value)),
        Node::Var(object) => Some(Operand::Cell(*object, type_of_object(program, *object))),
        Node::Unary { op, of } => operand_one(program, *op, of),
        _ => None,
    }
}

fn comparison(program: &Program, op: BinOp, left: &Expr, right: &Expr) -> Option<Test>
    ensures { result ≡ compare_of (program_view program.now) op (expr_view left.now) (expr_view right.now) }
{
    if !is_comparison(op) {
        return None;
    }
    let a = operand(program, left)?;
    let b = operand(program, right)?;
    let ty = common(program.model, type_of(left), type_of(right));
    Some(Test::Compare(op, ty, a, b))
}

// One step for a test.
fn one(
    alloc: Global,
    test: Option<Test>,
    yes: usize,
    no: usize,
) -> Result<Option<Vec<Step>>, OutOfMemory>
    ensures { IfOk result (λ steps. items_if steps ≡ step_if yes no test) }
{
    let Some(test) = test else {
        return Ok(None);
    };
    let mut steps = Vec::new(alloc);
    steps.push(Step { test, yes, no })?;
    Ok(Some(steps))
}

// The steps of the right side follow those of the left one, which pass over them where the left side decides.
#[cycle(code)]
fn logic(
    alloc: Global,
    program: &Program,
    both: bool,
    left: &Expr,
    right: &Expr,
    yes: usize,
    no: usize,
) -> Result<Option<Vec<Step>>, OutOfMemory>
    ensures { IfOk result (λ steps. items_if steps ≡ joined both yes no (code_of (program_view program.now) yes no
        (expr_view right.now)) (λ y n. code_of (program_view program.now) y n (expr_view left.now))) }
{
    let Some(mut after) = code(alloc, program, right, yes, no)? else {
        return Ok(None);
    };
    let exits = if both { no } else { yes };
    let Some(decided) = after.len().checked_add(exits) else {
        return Err(OutOfMemory);
    };
    let first = if both {
        code(alloc, program, left, 0, decided)?
    } else {
        code(alloc, program, left, decided, 0)?
    };
    let Some(mut steps) = first else {
        return Ok(None);
    };
    steps.append(&mut after)?;
    Ok(Some(steps))
}

// The steps of a constraint before others: how many of those are passed over where it holds, and where it doesn't.
#[cycle(code)]
fn code(
    alloc: Global,
    program: &Program,
    e: &Expr,
    yes: usize,
    no: usize,
) -> Result<Option<Vec<Step>>, OutOfMemory>
    ensures { IfOk result (λ steps. items_if steps ≡ code_of (program_view program.now) yes no (expr_view e.now)) }
{
    match &e.node {
        Node::Const(value) => one(alloc, Some(Test::Truth(Operand::Number(*value))), yes, no),
        Node::Var(object) => {
            let cell = Operand::Cell(*object, type_of_object(program, *object));
            one(alloc, Some(Test::Truth(cell)), yes, no)
        }
        Node::Binary { op, left, right } => {
            one(alloc, comparison(program, *op, left, right), yes, no)
        }
        Node::Logic { both, left, right } => { logic(alloc, program, *both, left, right, yes, no) }
        _ => Ok(None),
    }
}

/// The steps of a constraint, none where it has other parts than objects and constants that are compared.
pub fn compiled(
    alloc: Global,
    program: &Program,
    e: &Expr,
) -> Result<Option<Seq<Step>>, OutOfMemory>
    ensures { IfOk result (λ found. found ≡ code_of (program_view program.now) 0 0 (expr_view e.now)) }
{
    match code(alloc, program, e, 0, 0)? {
        Some(steps) => Ok(Some(Seq::from_vec(steps))),
        None => Ok(None),
    }
}
