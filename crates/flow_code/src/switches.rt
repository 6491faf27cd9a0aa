// The code of `switch`: its test, an operation that chooses an arm by it, and the arms, each running into the next.
ghost use Rattle.std.specs.Prelude.{◌≡◌, ◌++◌, [], length, OnOk, IfOk};
ghost use Rattle.c_core.specs.Tree as t;
ghost use Rattle.c_core.specs.Typing as typing;
ghost use Rattle.c_core.specs.Typing.{labels_in};
ghost use Rattle.c_core.specs.View.{program_view, expr_view, switch_view};
ghost use Rattle.c_meaning.specs.Run.{first_label};
ghost use Rattle.flow_code.specs.Statements.{form_code, block_code, arm_at, with_case, with_cases, selection_code, arms_code, switch_test_code};
ghost use Rattle.flow_code.specs.Statements as spec;

use crate::code::{Action, Op, Then};
use crate::emit::{ahead, emit, more, only};
use crate::operands::prepare;
use crate::sizes::{Depth, any_arm_leaks, in_arms, size_of_arms, size_of_statements};
use crate::statements::{Inside, close_scope, deeper, full_of, open_scope, sequence};
use crate::tables::Table;
use crate::words::native;
use c_core::{Arm, Expr, Label, Program, Spot, promote};
use c_meaning::type_of;
use std::alloc::Global;
use wv_base::{OutOfMemory, Seq};

// Among the arms of a `switch`, where `break` goes on at an address.
fn in_switch(inside: Inside, broken: u32) -> Inside
    ensures { result ≡ spec.in_switch broken inside }
{
    Inside {
        broken,
        again: inside.again,
        depth: in_arms(inside.depth),
        result: inside.result,
    }
}

/// `switch`: a scope around its arms, if one of their statements declares names.
#[cycle(statement)]
pub fn switch(
    alloc: Global,
    program: &Program,
    ops: &mut Seq<Op>,
    inside: Inside,
    at: Spot,
    test: &Expr,
    arms: &[Arm],
) -> Result<(), OutOfMemory>
    ensures { OnOk result (ops.new ≡ ops.old ++ form_code (program_view program.now) (length ops.old) inside at
        (t.Switch (expr_view test.now) (switch_view arms.now))) }
{
    switch_test(program, ops, at, test)?;
    let there = any_arm_leaks(arms);
    let size = size_of_arms(arms, inside.depth)?;
    let broken = ahead(ops, size)?;
    let within = deeper(in_switch(inside, broken), there)?;
    open_scope(ops, there)?;
    selected_arms(alloc, program, ops, within, at, arms)?;
    close_scope(ops, there)?;
    Ok(())
}

// The test, which stays on the stack in its promoted type.
fn switch_test(
    program: &Program,
    ops: &mut Seq<Op>,
    at: Spot,
    test: &Expr,
) -> Result<(), OutOfMemory>
    ensures { OnOk result (ops.new ≡ ops.old ++ switch_test_code (program_view program.now) (length ops.old) at
        (expr_view test.now)) }
{
    let around = full_of(at, test);
    let value = prepare(program, ops, 0, around, test)?;
    let promoted = promote(program.model, type_of(test));
    let ty = native(program.model, promoted);
    let into = only(Then::Push);
    emit(
        ops,
        value.steps,
        Action::Convert {
            ty,
            of: value.operand,
            into,
        },
    )?;
    Ok(())
}

// The arms, after the operation that chooses one.
#[cycle(statement)]
fn selected_arms(
    alloc: Global,
    program: &Program,
    ops: &mut Seq<Op>,
    inside: Inside,
    at: Spot,
    arms: &[Arm],
) -> Result<(), OutOfMemory>
    ensures { OnOk result (ops.new ≡ ops.old ++ arms_code (program_view program.now) (length ops.old) inside at
        (switch_view arms.now)) }
{
    let start = ahead(ops, 1)?;
    select(alloc, ops, inside.depth, at, start, arms)?;
    bodies(alloc, program, ops, inside, arms)?;
    Ok(())
}

// The choice of one of the arms that begin at an address.
fn select(
    alloc: Global,
    ops: &mut Seq<Op>,
    depth: Depth,
    at: Spot,
    start: u32,
    arms: &[Arm],
) -> Result<(), OutOfMemory>
    ensures { OnOk result (ops.new ≡ ops.old ++ selection_code depth at start (switch_view arms.now)) }
{
    let cases = cases(alloc, depth, start, arms)?;
    let other = default_at(depth, start, arms)?;
    emit(ops, 0, Action::Select { at, cases, other })?;
    Ok(())
}

// Where each constant leads.
fn cases(alloc: Global, depth: Depth, start: u32, arms: &[Arm]) -> Result<Table, OutOfMemory>
    ensures { IfOk result (λ table. table ≡ with_cases [] depth start (switch_view arms.now)) }
{
    let mut table = Table::new(alloc);
    let mut to = start;
    for arm in arms {
        case(&mut table, arm.label, to)?;
        let size = size_of_statements(arm.body.as_slice(), depth)?;
        to = more(to, size)?;
    }
    Ok(table)
}

// An arm's constant leads to an address.
fn case(table: &mut Table, label: Label, to: u32) -> Result<(), OutOfMemory>
    ensures { OnOk result (table.new ≡ with_case table.old label to) }
{
    match label {
        Label::Case(value) => {
            table.add(value, to)?;
            Ok(())
        }
        Label::Default => Ok(()),
    }
}

// Is it the label of a `default`?
fn is_default(label: Label) -> bool
    ensures { result ≡ typing.is_default label }
{
    match label {
        Label::Case(_) => false,
        Label::Default => true,
    }
}

// Where the statements of the `default` begin, or the end where there is none.
fn default_at(depth: Depth, start: u32, arms: &[Arm]) -> Result<u32, OutOfMemory>
    ensures { IfOk result (λ n. n
        ≡ arm_at depth start (first_label typing.is_default (labels_in (switch_view arms.now)))
        (switch_view arms.now)) }
{
    let mut to = start;
    for arm in arms {
        if is_default(arm.label) {
            return Ok(to);
        }
        let size = size_of_statements(arm.body.as_slice(), depth)?;
        to = more(to, size)?;
    }
    Ok(to)
}

// The statements of all arms.
#[cycle(statement)]
fn bodies(
    alloc: Global,
    program: &Program,
    ops: &mut Seq<Op>,
    inside: Inside,
    arms: &[Arm],
) -> Result<(), OutOfMemory>
    ensures { OnOk result (ops.new ≡ ops.old ++ block_code (program_view program.now) (length ops.old) inside
        (switch_view arms.now)) }
{
    for arm in arms {
        sequence(alloc, program, ops, inside, arm.body.as_slice())?;
    }
    Ok(())
}
