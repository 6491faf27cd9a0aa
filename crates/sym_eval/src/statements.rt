// Statements: one function for each form. What a form costs besides its weight is paid by the weight of its statement.
ghost use Rattle.std.specs.Prelude.{IfOk, Some};
ghost use Rattle.c_core.specs.Tree as t;
ghost use Rattle.c_core.specs.View.{expr_view, expr_view_if, form_view, stmt_view, stmts_view};
ghost use Rattle.sym_weight.specs.Views.{else_of};
ghost use Rattle.sym_walk.specs.Walking.{program_of, mode_of, IsWalk};
ghost use Rattle.sym_eval.specs.Doing.{Ready, Does, ScopeDoes, FormReady, FormDoes, ElseReady, ElseDoes, BlockReady, BlockDoes};

use crate::control::{decided, full};
use crate::declarations::declare_names;
use crate::loops::one_loop;
use crate::switches::switch;
use c_core::{Expr, Form, IntType, Spot, Stmt};
use c_meaning::type_of;
use circuits::not;
use sym_flow::{cut, give, go_again, go_back, leave_loop};
use sym_state::{Sym, join, narrow};
use sym_values::convert;
use sym_walk::{Walk, begin};
use wv_base::OutOfMemory;

/// A statement: what its mode does before it, and then its form.
#[cycle(walk)]
#[inline(always)]
pub fn statement(
    walk: &Walk,
    sym: &mut Sym,
    depth: u32,
    gives: Option<IntType>,
    s: &Stmt,
) -> Result<(), OutOfMemory>
    requires walk { IsWalk walk.now }
    requires ready { Ready (program_of walk.now) (mode_of walk.now) depth gives sym.old (stmt_view s.now) }
    ensures { IfOk result (λ r. Does (program_of walk.now) (mode_of walk.now) depth gives (stmt_view s.now)
        sym.old sym.new) }
{
    begin(walk, sym, s.spot)?;
    form(walk, sym, depth, gives, s.spot, &s.form)?;
    Ok(())
}

/// A statement by its form, in a function that gives this.
#[cycle(walk)]
pub fn form(
    walk: &Walk,
    sym: &mut Sym,
    depth: u32,
    gives: Option<IntType>,
    at: Spot,
    f: &Form,
) -> Result<(), OutOfMemory>
    requires walk { IsWalk walk.now }
    requires ready { FormReady (program_of walk.now) (mode_of walk.now) depth gives at sym.old (form_view f.now) }
    ensures { IfOk result (λ r. FormDoes (program_of walk.now) (mode_of walk.now) depth gives at (form_view f.now)
        sym.old sym.new) }
{
    match f {
        Form::Empty => Ok(()),
        Form::Expr(e) => {
            only(walk, sym, depth, gives, at, e)?;
            Ok(())
        }
        Form::Declare(names) => {
            declare_names(walk, sym, depth, at, names.as_slice())?;
            Ok(())
        }
        Form::Block(body) => {
            block(walk, sym, depth, gives, at, body.as_slice())?;
            Ok(())
        }
        Form::If { test, yes, no } => {
            choose(walk, sym, depth, gives, at, test, yes, no)?;
            Ok(())
        }
        Form::Break => {
            leave_loop(sym, walk.program)?;
            Ok(())
        }
        Form::Continue => {
            go_again(sym, walk.program)?;
            Ok(())
        }
        Form::Return(e) => {
            give_back(walk, sym, depth, gives, at, e)?;
            Ok(())
        }
        Form::Label(of) => {
            statement(walk, sym, depth, gives, of)?;
            Ok(())
        }
        Form::While { .. } => {
            one_loop(walk, sym, depth, gives, at, f)?;
            Ok(())
        }
        Form::Do { .. } => {
            one_loop(walk, sym, depth, gives, at, f)?;
            Ok(())
        }
        Form::For { .. } => {
            one_loop(walk, sym, depth, gives, at, f)?;
            Ok(())
        }
        Form::Switch { test, arms } => {
            switch(walk, sym, depth, gives, at, test, arms.as_slice())?;
            Ok(())
        }
    }
}

// An expression for its effects.
#[cycle(walk)]
#[inline(never)]
fn only(
    walk: &Walk,
    sym: &mut Sym,
    depth: u32,
    gives: Option<IntType>,
    at: Spot,
    e: &Expr,
) -> Result<(), OutOfMemory>
    requires walk { IsWalk walk.now }
    requires ready { FormReady (program_of walk.now) (mode_of walk.now) depth gives at sym.old
        (t.Do (expr_view e.now)) }
    ensures { IfOk result (λ r. FormDoes (program_of walk.now) (mode_of walk.now) depth gives at
        (t.Do (expr_view e.now)) sym.old sym.new) }
{
    let _value = full(walk, sym, depth, at, false, e)?;
    Ok(())
}

// The value is converted to the function's result.
#[cycle(walk)]
fn give_as(
    walk: &Walk,
    sym: &mut Sym,
    depth: u32,
    to: IntType,
    at: Spot,
    e: &Expr,
) -> Result<(), OutOfMemory>
    requires walk { IsWalk walk.now }
    requires ready { FormReady (program_of walk.now) (mode_of walk.now) depth (Some to) at sym.old
        (t.Return (Some (expr_view e.now))) }
    ensures { IfOk result (λ r. FormDoes (program_of walk.now) (mode_of walk.now) depth (Some to) at
        (t.Return (Some (expr_view e.now))) sym.old sym.new) }
{
    let x = full(walk, sym, depth, at, true, e)?;
    let y = convert(walk.alloc, walk.program, sym, type_of(e), to, &x)?;
    give(walk.alloc, walk.program, sym, to, &y)?;
    Ok(())
}

// `return` with a value: the function has a result.
#[cycle(walk)]
fn give_value(
    walk: &Walk,
    sym: &mut Sym,
    depth: u32,
    gives: Option<IntType>,
    at: Spot,
    e: &Expr,
) -> Result<(), OutOfMemory>
    requires walk { IsWalk walk.now }
    requires ready { FormReady (program_of walk.now) (mode_of walk.now) depth gives at sym.old
        (t.Return (Some (expr_view e.now))) }
    ensures { IfOk result (λ r. FormDoes (program_of walk.now) (mode_of walk.now) depth gives at
        (t.Return (Some (expr_view e.now))) sym.old sym.new) }
{
    match gives {
        Some(to) => {
            give_as(walk, sym, depth, to, at, e)?;
            Ok(())
        }
        None => unreachable!(),
    }
}

// `return`, with a value or without.
#[cycle(walk)]
#[inline(never)]
fn give_back(
    walk: &Walk,
    sym: &mut Sym,
    depth: u32,
    gives: Option<IntType>,
    at: Spot,
    e: &Option<Expr>,
) -> Result<(), OutOfMemory>
    requires walk { IsWalk walk.now }
    requires ready { FormReady (program_of walk.now) (mode_of walk.now) depth gives at sym.old
        (t.Return (expr_view_if e.now)) }
    ensures { IfOk result (λ r. FormDoes (program_of walk.now) (mode_of walk.now) depth gives at
        (t.Return (expr_view_if e.now)) sym.old sym.new) }
{
    match e {
        Some(e) => {
            give_value(walk, sym, depth, gives, at, e)?;
            Ok(())
        }
        None => {
            go_back(sym, walk.program)?;
            Ok(())
        }
    }
}

/// The statements of a block, one after another.
#[cycle(walk)]
pub fn execs(
    walk: &Walk,
    sym: &mut Sym,
    depth: u32,
    gives: Option<IntType>,
    body: &[Stmt],
) -> Result<(), OutOfMemory>
    requires walk { IsWalk walk.now }
    requires ready { BlockReady (program_of walk.now) (mode_of walk.now) depth gives sym.old
        (stmts_view body.now) }
    ensures { IfOk result (λ r. BlockDoes (program_of walk.now) (mode_of walk.now) depth gives
        (stmts_view body.now) sym.old sym.new) }
{
    for s in body {
        statement(walk, sym, depth, gives, s)?;
    }
    Ok(())
}

// A block: what is declared in it ends with it.
#[cycle(walk)]
#[inline(never)]
fn block(
    walk: &Walk,
    sym: &mut Sym,
    depth: u32,
    gives: Option<IntType>,
    at: Spot,
    body: &[Stmt],
) -> Result<(), OutOfMemory>
    requires walk { IsWalk walk.now }
    requires ready { FormReady (program_of walk.now) (mode_of walk.now) depth gives at sym.old
        (t.Block (stmts_view body.now)) }
    ensures { IfOk result (λ r. FormDoes (program_of walk.now) (mode_of walk.now) depth gives at
        (t.Block (stmts_view body.now)) sym.old sym.new) }
{
    let cells = sym.cells.len();
    execs(walk, sym, depth, gives, body)?;
    cut(sym, walk.program, cells);
    Ok(())
}

// A statement that is a scope of its own.
#[cycle(walk)]
#[inline(always)]
fn arm(
    walk: &Walk,
    sym: &mut Sym,
    depth: u32,
    gives: Option<IntType>,
    s: &Stmt,
) -> Result<(), OutOfMemory>
    requires walk { IsWalk walk.now }
    requires ready { Ready (program_of walk.now) (mode_of walk.now) depth gives sym.old (stmt_view s.now) }
    ensures { IfOk result (λ r. ScopeDoes (program_of walk.now) (mode_of walk.now) depth gives (stmt_view s.now)
        sym.old sym.new) }
{
    let outer = sym.cells.len();
    statement(walk, sym, depth, gives, s)?;
    cut(sym, walk.program, outer);
    Ok(())
}

// What stands after `else`, if anything does.
#[cycle(walk)]
fn otherwise(
    walk: &Walk,
    sym: &mut Sym,
    depth: u32,
    gives: Option<IntType>,
    no: &Option<Box<Stmt>>,
) -> Result<(), OutOfMemory>
    requires walk { IsWalk walk.now }
    requires ready { ElseReady (program_of walk.now) (mode_of walk.now) depth gives sym.old (else_of no.now) }
    ensures { IfOk result (λ r. ElseDoes (program_of walk.now) (mode_of walk.now) depth gives (else_of no.now)
        sym.old sym.new) }
{
    match no {
        Some(s) => {
            arm(walk, sym, depth, gives, s)?;
            Ok(())
        }
        None => Ok(()),
    }
}

// `if`: runs part by the test, do the one arm or the other, and come together again.
#[cycle(walk)]
#[inline(never)]
fn choose(
    walk: &Walk,
    sym: &mut Sym,
    depth: u32,
    gives: Option<IntType>,
    at: Spot,
    test: &Expr,
    yes: &Stmt,
    no: &Option<Box<Stmt>>,
) -> Result<(), OutOfMemory>
    requires walk { IsWalk walk.now }
    requires ready { FormReady (program_of walk.now) (mode_of walk.now) depth gives at sym.old
        (t.If (expr_view test.now) (stmt_view yes.now) (else_of no.now)) }
    ensures { IfOk result (λ r. FormDoes (program_of walk.now) (mode_of walk.now) depth gives at
        (t.If (expr_view test.now) (stmt_view yes.now) (else_of no.now)) sym.old sym.new) }
{
    let bit = decided(walk, sym, depth, at, test)?;
    let before = sym.live;
    narrow(sym, walk.program, before, bit)?;
    arm(walk, sym, depth, gives, yes)?;
    let first = sym.live;
    let other = not(bit);
    narrow(sym, walk.program, before, other)?;
    otherwise(walk, sym, depth, gives, no)?;
    join(sym, walk.program, first)?;
    Ok(())
}
