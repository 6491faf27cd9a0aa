// What the steps of a constraint answer.
ghost use Rattle.std.specs.Prelude.{◌≡◌, ◌≤◌, length, drop, false, List};
ghost use Rattle.c_core.specs.View.{expr_view, program_view};
ghost use Rattle.c_meaning.specs.Value.{holds as holds_in};
ghost use Rattle.way_tests.specs.Code.{answer_of, code_of, compared_by, is_yes, read_by, taken};
ghost use Rattle.way_tests.specs.Truth.{truth_in};
ghost use Rattle.way_tests.specs.declared.step.Step as step;

use crate::number::{fitted, is_so};
use crate::step::{Operand, Step, Test};
use crate::truth::holds;
use c_core::{BinOp, DataModel, Expr, IntType, Program};
use c_meaning::Memory;
use wv_base::Seq;

#[inline(always)]
fn read(model: DataModel, operand: Operand, memory: &Memory) -> Option<i128>
    ensures { result ≡ read_by model operand memory.now.cells }
{
    match operand {
        Operand::Cell(object, ty) => match memory.cell(object, 0) {
            Some(value) => Some(fitted(model, ty, value)),
            None => None,
        },
        Operand::Number(value) => Some(value),
    }
}

#[inline(always)]
fn is_nonzero(model: DataModel, operand: Operand, memory: &Memory) -> Option<bool>
    ensures { result ≡ truth_in (read_by model operand memory.now.cells) }
{
    match read(model, operand, memory) {
        Some(value) => Some(value != 0),
        None => None,
    }
}

#[inline(always)]
fn compared(
    model: DataModel,
    op: BinOp,
    ty: IntType,
    left: Operand,
    right: Operand,
    memory: &Memory,
) -> Option<bool>
    ensures { result ≡ compared_by model op ty left right memory.now.cells }
{
    let a = read(model, left, memory)?;
    let b = read(model, right, memory)?;
    let first = fitted(model, ty, a);
    let second = fitted(model, ty, b);
    Some(is_so(op, first, second))
}

#[inline(always)]
fn tested(model: DataModel, test: &Test, memory: &Memory) -> Option<bool>
    ensures { result ≡ answer_of model test.now memory.now.cells }
{
    match test {
        Test::Truth(operand) => is_nonzero(model, *operand, memory),
        Test::Compare(op, ty, left, right) => compared(model, *op, *ty, *left, *right, memory),
    }
}

// The number of the step after those that are passed over.
#[inline(always)]
fn past(at: usize, skipped: usize, count: usize) -> usize
    requires { at ≤ count }
    ensures within { at ≤ result }
    ensures past { (xs : List step.Step) → length xs ≡ count → drop result xs ≡ drop skipped (drop at xs) }
{
    if skipped < count - at {
        at + skipped
    } else {
        count
    }
}

fn answer(model: DataModel, steps: &[Step], memory: &Memory) -> bool
    ensures { result ≡ is_yes (taken model memory.now.cells 0 false steps.now) }
{
    let mut yes = false;
    let mut at = 0;
    while at < steps.len() {
        let step = &steps[at];
        match tested(model, &step.test, memory) {
            Some(answer) => yes = answer,
            None => return false,
        }
        let skipped = if yes { step.yes } else { step.no };
        at = past(at + 1, skipped, steps.len());
    }
    yes
}

/// Whether a constraint holds, by its steps where it has such.
pub fn holds_by(program: &Program, test: &Expr, steps: &Option<Seq<Step>>, memory: &Memory) -> bool
    requires { steps.now ≡ code_of (program_view program.now) 0 0 (expr_view test.now) }
    ensures { result ≡ holds_in (program_view program.now) (expr_view test.now) memory.now.cells }
{
    match steps {
        Some(steps) => answer(program.model, steps.as_slice(), memory),
        None => holds(program, test, memory),
    }
}
