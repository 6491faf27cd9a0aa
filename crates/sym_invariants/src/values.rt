// The value of an expression over symbolic cells: one function for each form.
ghost use Rattle.std.specs.Prelude.{IfOk};
ghost use Rattle.c_core.specs.Tree as t;
ghost use Rattle.c_core.specs.View.{program_view, expr_view, exprs_view};
ghost use Rattle.sym_invariants.specs.Valued.{Ready, SeesExpression, ReadyToTest, Holds};

use crate::elements::{element_at, element_in_row};
use crate::seen::{
    Seen, as_type, cell, chosen, constant, converted, decided, no_value, operated, operated_one,
    second,
};
use c_core::{BinOp, Expr, IntType, Node, Program, Spot, UnOp};
use c_meaning::type_of;
use circuits::Bit;
use std::alloc::Global;
use sym_state::Sym;
use sym_values::test;
use wv_base::OutOfMemory;

/// The value of an expression in the cells as they are, with wrapping arithmetic. An expression that has steps,
/// assignments or calls has none.
#[cycle(value)]
fn value_bits(
    alloc: Global,
    program: &Program,
    sym: &mut Sym,
    e: &Expr,
) -> Result<Seen, OutOfMemory>
    requires { Ready (program_view program.now) sym.old (expr_view e.now) }
    ensures { IfOk result (λ r. SeesExpression (program_view program.now) (expr_view e.now) sym.old sym.new r.bits.bits
        r.defined) }
{
    match &e.node {
        Node::Const(value) => {
            let r = constant(alloc, program, sym, type_of(e), *value)?;
            Ok(r)
        }
        Node::Var(object) => {
            let r = cell(alloc, program, sym, *object, 0, type_of(e))?;
            Ok(r)
        }
        Node::Index { object, at } => {
            let r = element(alloc, program, sym, e.spot, e.ty, *object, at.as_slice())?;
            Ok(r)
        }
        Node::Unary { op, of } => {
            let r = unary(alloc, program, sym, e.spot, e.ty, *op, of)?;
            Ok(r)
        }
        Node::Cast(of) => {
            let r = cast(alloc, program, sym, e.spot, e.ty, of)?;
            Ok(r)
        }
        Node::Binary { op, left, right } => {
            let r = binary(alloc, program, sym, e.spot, e.ty, *op, left, right)?;
            Ok(r)
        }
        Node::Logic { both, left, right } => {
            let r = logic(alloc, program, sym, e.spot, e.ty, *both, left, right)?;
            Ok(r)
        }
        Node::Choose {
            mark,
            test: condition,
            yes,
            no,
        } => {
            let r = choice(alloc, program, sym, e.spot, e.ty, *mark, condition, yes, no)?;
            Ok(r)
        }
        Node::Comma { first, last } => {
            let r = comma(alloc, program, sym, e.spot, e.ty, first, last)?;
            Ok(r)
        }
        Node::Step { op, target } => {
            let r = no_value(alloc, program, sym, type_of(e))?;
            Ok(r)
        }
        Node::Assign { op, target, from } => {
            let r = no_value(alloc, program, sym, type_of(e))?;
            Ok(r)
        }
        Node::Call {
            callee,
            args,
            close,
        } => {
            let r = no_value(alloc, program, sym, type_of(e))?;
            Ok(r)
        }
    }
}

#[cycle(value)]
fn element(
    alloc: Global,
    program: &Program,
    sym: &mut Sym,
    spot: Spot,
    ty: Option<IntType>,
    object: u32,
    at: &[Expr],
) -> Result<Seen, OutOfMemory>
    requires { Ready (program_view program.now) sym.old (t.Expr spot ty (t.Index object (exprs_view at.now))) }
    ensures { IfOk result (λ r. SeesExpression (program_view program.now)
        (t.Expr spot ty (t.Index object (exprs_view at.now))) sym.old sym.new r.bits.bits r.defined) }
{
    match at {
        [index] => {
            let r = indexed(alloc, program, sym, spot, ty, object, index)?;
            Ok(r)
        }
        [row, column] => {
            let r = indexed_twice(alloc, program, sym, spot, ty, object, row, column)?;
            Ok(r)
        }
        // no array has another number of dimensions
        _ => Err(OutOfMemory),
    }
}

#[cycle(value)]
fn indexed(
    alloc: Global,
    program: &Program,
    sym: &mut Sym,
    spot: Spot,
    ty: Option<IntType>,
    object: u32,
    index: &Expr,
) -> Result<Seen, OutOfMemory>
    requires { Ready (program_view program.now) sym.old
        (t.Expr spot ty (t.Index object (t.MoreExp (expr_view index.now) t.NoExp))) }
    ensures { IfOk result (λ r. SeesExpression (program_view program.now)
        (t.Expr spot ty (t.Index object (t.MoreExp (expr_view index.now) t.NoExp))) sym.old sym.new r.bits.bits
        r.defined) }
{
    let x = value_bits(alloc, program, sym, index)?;
    let r = element_at(alloc, program, sym, object, type_of(index), &x)?;
    Ok(r)
}

#[cycle(value)]
fn indexed_twice(
    alloc: Global,
    program: &Program,
    sym: &mut Sym,
    spot: Spot,
    ty: Option<IntType>,
    object: u32,
    row: &Expr,
    column: &Expr,
) -> Result<Seen, OutOfMemory>
    requires { Ready (program_view program.now) sym.old
        (t.Expr spot ty (t.Index object (t.MoreExp (expr_view row.now) (t.MoreExp (expr_view column.now) t.NoExp)))) }
    ensures { IfOk result (λ r. SeesExpression (program_view program.now)
        (t.Expr spot ty (t.Index object (t.MoreExp (expr_view row.now) (t.MoreExp (expr_view column.now) t.NoExp))))
        sym.old sym.new r.bits.bits r.defined) }
{
    let x = value_bits(alloc, program, sym, row)?;
    let y = value_bits(alloc, program, sym, column)?;
    let r = element_in_row(
        alloc,
        program,
        sym,
        object,
        type_of(row),
        &x,
        type_of(column),
        &y,
    )?;
    Ok(r)
}

#[cycle(value)]
fn unary(
    alloc: Global,
    program: &Program,
    sym: &mut Sym,
    spot: Spot,
    ty: Option<IntType>,
    op: UnOp,
    of: &Expr,
) -> Result<Seen, OutOfMemory>
    requires { Ready (program_view program.now) sym.old (t.Expr spot ty (t.Unary op (expr_view of.now))) }
    ensures { IfOk result (λ r. SeesExpression (program_view program.now)
        (t.Expr spot ty (t.Unary op (expr_view of.now))) sym.old sym.new r.bits.bits r.defined) }
{
    let x = value_bits(alloc, program, sym, of)?;
    let r = operated_one(alloc, program, sym, op, type_of(of), &x)?;
    Ok(r)
}

#[cycle(value)]
fn cast(
    alloc: Global,
    program: &Program,
    sym: &mut Sym,
    spot: Spot,
    ty: Option<IntType>,
    of: &Expr,
) -> Result<Seen, OutOfMemory>
    requires { Ready (program_view program.now) sym.old (t.Expr spot ty (t.Cast (expr_view of.now))) }
    ensures { IfOk result (λ r. SeesExpression (program_view program.now) (t.Expr spot ty (t.Cast (expr_view of.now)))
        sym.old sym.new r.bits.bits r.defined) }
{
    let x = value_bits(alloc, program, sym, of)?;
    match ty {
        Some(to) => {
            let r = converted(alloc, program, sym, type_of(of), to, &x)?;
            Ok(r)
        }
        None => Ok(x),
    }
}

#[cycle(value)]
fn binary(
    alloc: Global,
    program: &Program,
    sym: &mut Sym,
    spot: Spot,
    ty: Option<IntType>,
    op: BinOp,
    left: &Expr,
    right: &Expr,
) -> Result<Seen, OutOfMemory>
    requires { Ready (program_view program.now) sym.old
        (t.Expr spot ty (t.Binary op (expr_view left.now) (expr_view right.now))) }
    ensures { IfOk result (λ r. SeesExpression (program_view program.now)
        (t.Expr spot ty (t.Binary op (expr_view left.now) (expr_view right.now))) sym.old sym.new r.bits.bits
        r.defined) }
{
    let x = value_bits(alloc, program, sym, left)?;
    let y = value_bits(alloc, program, sym, right)?;
    let r = operated(
        alloc,
        program,
        sym,
        op,
        type_of(left),
        &x,
        type_of(right),
        &y,
    )?;
    Ok(r)
}

#[cycle(value)]
fn logic(
    alloc: Global,
    program: &Program,
    sym: &mut Sym,
    spot: Spot,
    ty: Option<IntType>,
    both: bool,
    left: &Expr,
    right: &Expr,
) -> Result<Seen, OutOfMemory>
    requires { Ready (program_view program.now) sym.old
        (t.Expr spot ty (t.Logic both (expr_view left.now) (expr_view right.now))) }
    ensures { IfOk result (λ r. SeesExpression (program_view program.now)
        (t.Expr spot ty (t.Logic both (expr_view left.now) (expr_view right.now))) sym.old sym.new r.bits.bits
        r.defined) }
{
    let x = value_bits(alloc, program, sym, left)?;
    let y = value_bits(alloc, program, sym, right)?;
    let r = decided(
        alloc,
        program,
        sym,
        both,
        type_of(left),
        &x,
        type_of(right),
        &y,
    )?;
    Ok(r)
}

#[cycle(value)]
fn choice(
    alloc: Global,
    program: &Program,
    sym: &mut Sym,
    spot: Spot,
    ty: Option<IntType>,
    mark: Spot,
    condition: &Expr,
    yes: &Expr,
    no: &Expr,
) -> Result<Seen, OutOfMemory>
    requires { Ready (program_view program.now) sym.old
        (t.Expr spot ty (t.Choose mark (expr_view condition.now) (expr_view yes.now) (expr_view no.now))) }
    ensures { IfOk result (λ r. SeesExpression (program_view program.now)
        (t.Expr spot ty (t.Choose mark (expr_view condition.now) (expr_view yes.now) (expr_view no.now))) sym.old
        sym.new r.bits.bits r.defined) }
{
    let e = value_bits(alloc, program, sym, condition)?;
    let x = value_bits(alloc, program, sym, yes)?;
    let y = value_bits(alloc, program, sym, no)?;
    let u = as_type(alloc, program, sym, ty, type_of(yes), x)?;
    let w = as_type(alloc, program, sym, ty, type_of(no), y)?;
    let r = chosen(alloc, program, sym, ty, type_of(condition), &e, &u, &w)?;
    Ok(r)
}

#[cycle(value)]
fn comma(
    alloc: Global,
    program: &Program,
    sym: &mut Sym,
    spot: Spot,
    ty: Option<IntType>,
    first: &Expr,
    last: &Expr,
) -> Result<Seen, OutOfMemory>
    requires { Ready (program_view program.now) sym.old
        (t.Expr spot ty (t.Comma (expr_view first.now) (expr_view last.now))) }
    ensures { IfOk result (λ r. SeesExpression (program_view program.now)
        (t.Expr spot ty (t.Comma (expr_view first.now) (expr_view last.now))) sym.old sym.new r.bits.bits r.defined) }
{
    let x = value_bits(alloc, program, sym, first)?;
    let y = value_bits(alloc, program, sym, last)?;
    let r = second(program, sym, &x, y)?;
    Ok(r)
}

/// A bit that is true in the runs in which an expression has a value, in the cells as they are, and the value isn't 0.
pub fn holds_bit(
    alloc: Global,
    program: &Program,
    sym: &mut Sym,
    e: &Expr,
) -> Result<Bit, OutOfMemory>
    requires { ReadyToTest (program_view program.now) sym.old (expr_view e.now) }
    ensures { IfOk result (λ r. Holds (program_view program.now) (expr_view e.now) sym.old sym.new r) }
{
    let x = value_bits(alloc, program, sym, e)?;
    let truth = test(alloc, program, sym, type_of(e), &x.bits)?;
    let holds = sym.net.and(x.defined, truth)?;
    Ok(holds)
}
