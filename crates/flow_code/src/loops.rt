// The code of loops: the test stands behind the body, and a loop begins with a jump to it.
ghost use Rattle.std.specs.Prelude.{◌≡◌, ◌++◌, length, Some, OnOk};
ghost use Rattle.c_core.specs.Tree as t;
ghost use Rattle.c_core.specs.View.{program_view, expr_view, expr_view_if, first_view, stmt_view};
ghost use Rattle.flow_code.specs.Statements.{form_code, test_code, first_code, only_if, turns_code};
ghost use Rattle.flow_code.specs.Statements as spec;

use crate::code::{Action, Op, Then};
use crate::declarations::declare;
use crate::emit::{ahead, emit, here, more};
use crate::expressions::expression;
use crate::sizes::{first_leaks, in_turn, size, size_if, size_of_arm, size_of_test};
use crate::statements::{Inside, arm, close_scope, deeper, full_of, open_scope};
use c_core::{Expr, First, Program, Spot, Stmt};
use std::alloc::Global;
use wv_base::{OutOfMemory, Seq};

// In a loop whose body `continue` goes on to an address, and `break` to another.
fn in_loop(inside: Inside, again: u32, broken: u32) -> Inside
    ensures { result ≡ spec.in_loop again broken inside }
{
    Inside {
        broken,
        again,
        depth: in_turn(inside.depth),
        result: inside.result,
    }
}

// The test of a loop, which goes on at an address where it holds.
fn test_at(
    program: &Program,
    ops: &mut Seq<Op>,
    at: Spot,
    test: &Expr,
    to: u32,
) -> Result<(), OutOfMemory>
    ensures { OnOk result (ops.new ≡ ops.old ++ test_code (program_view program.now) (length ops.old) at
        (Some (expr_view test.now)) to) }
{
    let branch = Then::Branch { at, way: true, to };
    let around = full_of(at, test);
    expression(program, ops, 0, around, true, test, branch)?;
    Ok(())
}

/// `while`: `continue` goes on at the test.
#[cycle(statement)]
pub fn while_loop(
    alloc: Global,
    program: &Program,
    ops: &mut Seq<Op>,
    inside: Inside,
    at: Spot,
    test: &Expr,
    body: &Stmt,
) -> Result<(), OutOfMemory>
    ensures { OnOk result (ops.new ≡ ops.old ++ form_code (program_view program.now) (length ops.old) inside at
        (t.While (expr_view test.now) (stmt_view body.now))) }
{
    let start = ahead(ops, 1)?;
    let turn = size_of_arm(body, in_turn(inside.depth))?;
    let tested = size(test)?;
    let again = more(start, turn)?;
    let broken = more(again, tested)?;
    let within = in_loop(inside, again, broken);
    emit(ops, 0, Action::Jump(again))?;
    arm(alloc, program, ops, within, body)?;
    test_at(program, ops, at, test, start)?;
    Ok(())
}

/// `do`: the body comes first.
#[cycle(statement)]
pub fn do_loop(
    alloc: Global,
    program: &Program,
    ops: &mut Seq<Op>,
    inside: Inside,
    at: Spot,
    body: &Stmt,
    test: &Expr,
) -> Result<(), OutOfMemory>
    ensures { OnOk result (ops.new ≡ ops.old ++ form_code (program_view program.now) (length ops.old) inside at
        (t.DoWhile (stmt_view body.now) (expr_view test.now))) }
{
    let start = here(ops)?;
    let turn = size_of_arm(body, in_turn(inside.depth))?;
    let tested = size(test)?;
    let again = more(start, turn)?;
    let broken = more(again, tested)?;
    let within = in_loop(inside, again, broken);
    arm(alloc, program, ops, within, body)?;
    test_at(program, ops, at, test, start)?;
    Ok(())
}

// The first part of a `for`.
fn begin(program: &Program, ops: &mut Seq<Op>, at: Spot, first: &First) -> Result<(), OutOfMemory>
    ensures { OnOk result (ops.new ≡ ops.old ++ first_code (program_view program.now) (length ops.old) at
        (first_view first.now)) }
{
    match first {
        First::Absent => Ok(()),
        First::Expr(e) => expression(program, ops, 0, full_of(at, e), false, e, Then::Drop),
        First::Declare(names) => declare(program, ops, at, names.as_slice()),
    }
}

/// `for`: a scope around it, if its first part declares names.
#[cycle(statement)]
pub fn for_loop(
    alloc: Global,
    program: &Program,
    ops: &mut Seq<Op>,
    inside: Inside,
    at: Spot,
    first: &First,
    test: &Option<Expr>,
    step: &Option<Expr>,
    body: &Stmt,
) -> Result<(), OutOfMemory>
    ensures { OnOk result (ops.new ≡ ops.old ++ form_code (program_view program.now) (length ops.old) inside at
        (t.For (first_view first.now) (expr_view_if test.now) (expr_view_if step.now) (stmt_view body.now))) }
{
    let there = first_leaks(first);
    let within = deeper(inside, there)?;
    open_scope(ops, there)?;
    begin(program, ops, at, first)?;
    turns(alloc, program, ops, within, at, test, step, body)?;
    close_scope(ops, there)?;
    Ok(())
}

// An expression whose value is not used, where there is one.
fn evaluate_if(
    program: &Program,
    ops: &mut Seq<Op>,
    at: Spot,
    e: &Option<Expr>,
) -> Result<(), OutOfMemory>
    ensures { OnOk result (ops.new ≡ ops.old ++ only_if (program_view program.now) (length ops.old) at
        (expr_view_if e.now)) }
{
    match e {
        None => Ok(()),
        Some(e) => expression(program, ops, 0, full_of(at, e), false, e, Then::Drop),
    }
}

// The test of a `for`, or the jump in its place.
fn test_if(
    program: &Program,
    ops: &mut Seq<Op>,
    at: Spot,
    test: &Option<Expr>,
    to: u32,
) -> Result<(), OutOfMemory>
    ensures { OnOk result (ops.new ≡ ops.old ++ test_code (program_view program.now) (length ops.old) at
        (expr_view_if test.now) to) }
{
    match test {
        None => emit(ops, 0, Action::Jump(to)),
        Some(e) => test_at(program, ops, at, e, to),
    }
}

// What a `for` does again and again: its body, its last part, its test.
#[cycle(statement)]
fn turns(
    alloc: Global,
    program: &Program,
    ops: &mut Seq<Op>,
    inside: Inside,
    at: Spot,
    test: &Option<Expr>,
    step: &Option<Expr>,
    body: &Stmt,
) -> Result<(), OutOfMemory>
    ensures { OnOk result (ops.new ≡ ops.old ++ turns_code (program_view program.now) (length ops.old) inside at
        (expr_view_if test.now) (expr_view_if step.now) (stmt_view body.now)) }
{
    let start = ahead(ops, 1)?;
    let turn = size_of_arm(body, in_turn(inside.depth))?;
    let last = size_if(step)?;
    let tested = size_of_test(test)?;
    let again = more(start, turn)?;
    let head = more(again, last)?;
    let broken = more(head, tested)?;
    let within = in_loop(inside, again, broken);
    emit(ops, 0, Action::Jump(head))?;
    arm(alloc, program, ops, within, body)?;
    evaluate_if(program, ops, at, step)?;
    test_if(program, ops, at, test, start)?;
    Ok(())
}
