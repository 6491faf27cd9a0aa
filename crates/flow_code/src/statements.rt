// The code of statements.
ghost use Rattle.std.specs.Prelude.{◌≡◌, ◌++◌, ◌∷◌, [], length, OnOk, IfOk};
ghost use Rattle.c_core.specs.Tree as t;
ghost use Rattle.c_core.specs.View.{program_view, expr_view, form_view, stmt_view, stmts_view};
ghost use Rattle.run_state.specs.Interpreting.{else_part};
ghost use Rattle.flow_code.specs.Preparing.{opened, closed, all_closed};
ghost use Rattle.flow_code.specs.Statements.{statement_code, form_code, arm_code, block_code, else_code, return_code};
ghost use Rattle.flow_code.specs.Statements as spec;

use crate::code::{Action, Op, Then};
use crate::declarations::declare;
use crate::emit::{ahead, emit, more};
use crate::expressions::expression;
use crate::loops::{do_loop, for_loop, while_loop};
use crate::sizes::{Depth, any_leaks, deep, leaks, size, size_of_arm};
use crate::switches::switch;
use c_core::{Expr, Form, IntType, Program, Spot, Stmt};
use run_state::Around;
use std::alloc::Global;
use wv_base::{OutOfMemory, Seq};

/// Where a statement stands: the addresses at which `break` and `continue` go on, the scopes that are open, and the
/// function's result.
#[derive(Clone, Copy)]
pub struct Inside {
    pub broken: u32,
    pub again: u32,
    pub depth: Depth,
    pub result: Option<IntType>,
}

/// Inside one scope more, where it is there.
pub fn deeper(inside: Inside, there: bool) -> Result<Inside, OutOfMemory>
    ensures { IfOk result (λ w. w ≡ spec.deeper there inside) }
{
    let depth = deep(there, inside.depth)?;
    Ok(Inside {
        broken: inside.broken,
        again: inside.again,
        depth,
        result: inside.result,
    })
}

/// A scope begins, where it is there.
pub fn open_scope(ops: &mut Seq<Op>, there: bool) -> Result<(), OutOfMemory>
    ensures { OnOk result (ops.new ≡ ops.old ++ opened there) }
{
    if there {
        emit(ops, 0, Action::Open)?;
        Ok(())
    } else {
        Ok(())
    }
}

/// A scope ends, where it is there.
pub fn close_scope(ops: &mut Seq<Op>, there: bool) -> Result<(), OutOfMemory>
    ensures { OnOk result (ops.new ≡ ops.old ++ closed there) }
{
    if there {
        emit(ops, 0, Action::Close)?;
        Ok(())
    } else {
        Ok(())
    }
}

// So many scopes end.
fn close_all(ops: &mut Seq<Op>, count: u32) -> Result<(), OutOfMemory>
    ensures { OnOk result (ops.new ≡ ops.old ++ all_closed count) }
{
    for index in 0..count {
        emit(ops, 0, Action::Close)?;
    }
    Ok(())
}

/// The full expression of a statement.
pub fn full_of(at: Spot, e: &Expr) -> Around
    ensures { result ≡ spec.full_of at (expr_view e.now) }
{
    Around {
        statement: at,
        full: e.spot,
    }
}

/// A statement: its step and its event, then its form.
#[cycle(statement)]
pub fn statement(
    alloc: Global,
    program: &Program,
    ops: &mut Seq<Op>,
    inside: Inside,
    s: &Stmt,
) -> Result<(), OutOfMemory>
    ensures { OnOk result (ops.new ≡ ops.old ++ statement_code (program_view program.now) (length ops.old) inside
        (stmt_view s.now)) }
{
    emit(ops, 1, Action::Arrive(s.spot))?;
    form(alloc, program, ops, inside, s.spot, &s.form)?;
    Ok(())
}

/// What a statement does by its form.
#[cycle(statement)]
pub fn form(
    alloc: Global,
    program: &Program,
    ops: &mut Seq<Op>,
    inside: Inside,
    at: Spot,
    f: &Form,
) -> Result<(), OutOfMemory>
    ensures { OnOk result (ops.new ≡ ops.old ++ form_code (program_view program.now) (length ops.old) inside at
        (form_view f.now)) }
{
    match f {
        Form::Empty => Ok(()),
        Form::Expr(e) => expression(program, ops, 0, full_of(at, e), false, e, Then::Drop),
        Form::Declare(names) => declare(program, ops, at, names.as_slice()),
        Form::Block(body) => block(alloc, program, ops, inside, body.as_slice()),
        Form::If { test, yes, no } => choose(alloc, program, ops, inside, at, test, yes, no),
        Form::While { test, body } => while_loop(alloc, program, ops, inside, at, test, body),
        Form::Do { body, test } => do_loop(alloc, program, ops, inside, at, body, test),
        Form::For {
            first,
            test,
            step,
            body,
        } => for_loop(alloc, program, ops, inside, at, first, test, step, body),
        Form::Break => jump_out(ops, inside.depth.inner, inside.broken),
        Form::Continue => jump_out(ops, inside.depth.turn, inside.again),
        Form::Return(None) => leave(ops, inside.depth.scopes),
        Form::Return(Some(e)) => give_back(program, ops, inside, at, e),
        Form::Label(s) => statement(alloc, program, ops, inside, s),
        Form::Switch { test, arms } => {
            switch(alloc, program, ops, inside, at, test, arms.as_slice())
        }
    }
}

// Out of so many scopes, to an address.
fn jump_out(ops: &mut Seq<Op>, scopes: u32, to: u32) -> Result<(), OutOfMemory>
    ensures { OnOk result (ops.new ≡ ops.old ++ spec.jump_out scopes to) }
{
    close_all(ops, scopes)?;
    emit(ops, 0, Action::Jump(to))?;
    Ok(())
}

// `return` without a value, out of so many scopes.
fn leave(ops: &mut Seq<Op>, scopes: u32) -> Result<(), OutOfMemory>
    ensures { OnOk result (ops.new ≡ ops.old ++ spec.leaving scopes) }
{
    close_all(ops, scopes)?;
    emit(ops, 0, Action::Leave)?;
    Ok(())
}

// `return` with a value.
fn give_back(
    program: &Program,
    ops: &mut Seq<Op>,
    inside: Inside,
    at: Spot,
    e: &Expr,
) -> Result<(), OutOfMemory>
    ensures { OnOk result (ops.new ≡ ops.old ++ return_code (program_view program.now) (length ops.old) at inside.result
        (expr_view e.now) inside.depth.scopes) }
{
    let around = full_of(at, e);
    expression(program, ops, 0, around, true, e, Then::Push)?;
    close_all(ops, inside.depth.scopes)?;
    emit(ops, 0, Action::Return(inside.result))?;
    Ok(())
}

// A block, which is a scope if it declares names.
#[cycle(statement)]
fn block(
    alloc: Global,
    program: &Program,
    ops: &mut Seq<Op>,
    inside: Inside,
    body: &[Stmt],
) -> Result<(), OutOfMemory>
    ensures { OnOk result (ops.new ≡ ops.old ++ spec.scoped_block (program_view program.now) (length ops.old) inside
        (stmts_view body.now)) }
{
    let there = any_leaks(body);
    let within = deeper(inside, there)?;
    open_scope(ops, there)?;
    sequence(alloc, program, ops, within, body)?;
    close_scope(ops, there)?;
    Ok(())
}

/// The statements of a block in their order.
#[cycle(statement)]
pub fn sequence(
    alloc: Global,
    program: &Program,
    ops: &mut Seq<Op>,
    inside: Inside,
    body: &[Stmt],
) -> Result<(), OutOfMemory>
    ensures { OnOk result (ops.new ≡ ops.old ++ block_code (program_view program.now) (length ops.old) inside
        (stmts_view body.now)) }
{
    for s in body {
        statement(alloc, program, ops, inside, s)?;
    }
    Ok(())
}

/// A statement that is a scope of its own, if it declares names.
#[cycle(statement)]
pub fn arm(
    alloc: Global,
    program: &Program,
    ops: &mut Seq<Op>,
    inside: Inside,
    s: &Stmt,
) -> Result<(), OutOfMemory>
    ensures { OnOk result (ops.new ≡ ops.old ++ arm_code (program_view program.now) (length ops.old) inside
        (stmt_view s.now)) }
{
    let there = leaks(s);
    let within = deeper(inside, there)?;
    open_scope(ops, there)?;
    statement(alloc, program, ops, within, s)?;
    close_scope(ops, there)?;
    Ok(())
}

// The way of the first arm around the second.
fn else_jump(no: &Option<Box<Stmt>>) -> u32
    ensures { result ≡ spec.else_jump (else_part no.now) }
{
    match no {
        None => 0,
        Some(_) => 1,
    }
}

// `if`: its test, which leads to the second arm where it doesn't hold.
#[cycle(statement)]
fn choose(
    alloc: Global,
    program: &Program,
    ops: &mut Seq<Op>,
    inside: Inside,
    at: Spot,
    test: &Expr,
    yes: &Stmt,
    no: &Option<Box<Stmt>>,
) -> Result<(), OutOfMemory>
    ensures { OnOk result (ops.new ≡ ops.old ++ form_code (program_view program.now) (length ops.old) inside at
        (t.If (expr_view test.now) (stmt_view yes.now) (else_part no.now))) }
{
    let tested = size(test)?;
    let taken = size_of_arm(yes, inside.depth)?;
    let jump = else_jump(no);
    let both = more(tested, taken)?;
    let first = more(both, jump)?;
    let to = ahead(ops, first)?;
    let branch = Then::Branch { at, way: false, to };
    let around = full_of(at, test);
    expression(program, ops, 0, around, true, test, branch)?;
    arm(alloc, program, ops, inside, yes)?;
    otherwise(alloc, program, ops, inside, to, no)?;
    Ok(())
}

// The second arm, and before it the way of the first around it.
#[cycle(statement)]
fn otherwise(
    alloc: Global,
    program: &Program,
    ops: &mut Seq<Op>,
    inside: Inside,
    to: u32,
    no: &Option<Box<Stmt>>,
) -> Result<(), OutOfMemory>
    ensures { OnOk result (ops.new ≡ ops.old ++ else_code (program_view program.now) (length ops.old) to inside
        (else_part no.now)) }
{
    match no {
        None => Ok(()),
        Some(no) => second_arm(alloc, program, ops, inside, to, no),
    }
}

#[cycle(statement)]
fn second_arm(
    alloc: Global,
    program: &Program,
    ops: &mut Seq<Op>,
    inside: Inside,
    to: u32,
    s: &Stmt,
) -> Result<(), OutOfMemory>
    ensures { OnOk result (ops.new ≡ ops.old ++ else_code (program_view program.now) (length ops.old) to inside
        (t.OrElse (stmt_view s.now))) }
{
    let taken = size_of_arm(s, inside.depth)?;
    let end = more(to, taken)?;
    emit(ops, 0, Action::Jump(end))?;
    arm(alloc, program, ops, inside, s)?;
    Ok(())
}
