// Assignments and steps: the target comes first, then what it holds, the right side, the operator and the store.
ghost use Rattle.std.specs.Prelude.{◌≡◌, IfOk, None, Some, cond};
ghost use Rattle.c_core.specs.Tree as t;
ghost use Rattle.c_core.specs.View.{expr_view, exprs_view};
ghost use Rattle.c_meaning.specs.Meaning.{Used};
ghost use Rattle.sym_exprs.specs.Evaluating.{Ready, Values};
ghost use Rattle.sym_exprs.specs.Targeting.{TargetReady};
ghost use Rattle.sym_eval.specs.Targets.{finding, Found};
ghost use Rattle.sym_walk.specs.Walking.{program_of, mode_of, IsWalk};

use crate::expressions::eval;
use crate::targets::{Target, look_target, store_target};
use c_core::{BinOp, Expr, IntType, Node, StepOp, op_of_step, type_for};
use c_meaning::type_of;
use circuits::{Bits, const_bits};
use sym_elements::{find, find_in_row};
use sym_exprs::is_prefix;
use sym_state::{Around, Sym};
use sym_walk::{Walk, operate};
use wv_base::OutOfMemory;

// The cell that an expression means (ISO C11 6.3.2.1).
#[cycle(walk)]
#[inline(never)]
fn target(
    walk: &Walk,
    sym: &mut Sym,
    depth: u32,
    at: Around,
    e: &Expr,
) -> Result<Target, OutOfMemory>
    requires walk { IsWalk walk.now }
    requires ready { TargetReady (program_of walk.now) (mode_of walk.now) depth at
        (finding (program_of walk.now) (expr_view e.now)) sym.old (expr_view e.now) }
    ensures { IfOk result (λ cell. Found (program_of walk.now) (mode_of walk.now) depth at (expr_view e.now)
        sym.old sym.new cell) }
{
    match &e.node {
        Node::Var(object) => Ok(Target::Scalar(*object)),
        Node::Index {
            object,
            at: indexes,
        } => indexed(walk, sym, depth, at, e, *object, indexes.as_slice()),
        // a checked program assigns to nothing else (ISO C11 6.3.2.1)
        _ => Err(OutOfMemory),
    }
}

/// The cell of an element, at its place.
#[cycle(walk)]
pub fn indexed(
    walk: &Walk,
    sym: &mut Sym,
    depth: u32,
    at: Around,
    e: &Expr,
    object: u32,
    indexes: &[Expr],
) -> Result<Target, OutOfMemory>
    requires walk { IsWalk walk.now }
    requires ready { TargetReady (program_of walk.now) (mode_of walk.now) depth at
        (finding (program_of walk.now) (t.Expr e.now.spot e.now.ty (t.Index object (exprs_view indexes.now)))) sym.old
        (t.Expr e.now.spot e.now.ty (t.Index object (exprs_view indexes.now))) }
    ensures { IfOk result (λ cell. Found (program_of walk.now) (mode_of walk.now) depth at
        (t.Expr e.now.spot e.now.ty (t.Index object (exprs_view indexes.now))) sym.old sym.new cell) }
{
    match indexes {
        [index] => at_index(walk, sym, depth, at, e, object, index),
        [row, column] => at_row(walk, sym, depth, at, e, object, row, column),
        // no array has another number of dimensions
        _ => Err(OutOfMemory),
    }
}

#[cycle(walk)]
fn at_index(
    walk: &Walk,
    sym: &mut Sym,
    depth: u32,
    at: Around,
    e: &Expr,
    object: u32,
    index: &Expr,
) -> Result<Target, OutOfMemory>
    requires walk { IsWalk walk.now }
    requires ready { TargetReady (program_of walk.now) (mode_of walk.now) depth at
        (finding (program_of walk.now)
        (t.Expr e.now.spot e.now.ty (t.Index object (t.MoreExp (expr_view index.now) t.NoExp)))) sym.old
        (t.Expr e.now.spot e.now.ty (t.Index object (t.MoreExp (expr_view index.now) t.NoExp))) }
    ensures { IfOk result (λ cell. Found (program_of walk.now) (mode_of walk.now) depth at
        (t.Expr e.now.spot e.now.ty (t.Index object (t.MoreExp (expr_view index.now) t.NoExp))) sym.old sym.new cell) }
{
    let i = eval(walk, sym, depth, at, true, index)?;
    let places = find(walk.alloc, walk.program, sym, object, type_of(index), &i)?;
    Ok(Target::Element(object, places))
}

// Both indexes are evaluated before the first is tested.
#[cycle(walk)]
fn at_row(
    walk: &Walk,
    sym: &mut Sym,
    depth: u32,
    at: Around,
    e: &Expr,
    object: u32,
    row: &Expr,
    column: &Expr,
) -> Result<Target, OutOfMemory>
    requires walk { IsWalk walk.now }
    requires ready { TargetReady (program_of walk.now) (mode_of walk.now) depth at
        (finding (program_of walk.now)
        (t.Expr e.now.spot e.now.ty
        (t.Index object (t.MoreExp (expr_view row.now) (t.MoreExp (expr_view column.now) t.NoExp))))) sym.old
        (t.Expr e.now.spot e.now.ty
        (t.Index object (t.MoreExp (expr_view row.now) (t.MoreExp (expr_view column.now) t.NoExp)))) }
    ensures { IfOk result (λ cell. Found (program_of walk.now) (mode_of walk.now) depth at
        (t.Expr e.now.spot e.now.ty
        (t.Index object (t.MoreExp (expr_view row.now) (t.MoreExp (expr_view column.now) t.NoExp)))) sym.old sym.new
        cell) }
{
    let i = eval(walk, sym, depth, at, true, row)?;
    let j = eval(walk, sym, depth, at, true, column)?;
    let (a, b) = (type_of(row), type_of(column));
    let places = find_in_row(walk.alloc, walk.program, sym, object, a, &i, b, &j)?;
    Ok(Target::Element(object, places))
}

/// An assignment; its value is that of the target after it (ISO C11 6.5.16).
#[cycle(walk)]
#[inline(never)]
pub fn assign(
    walk: &Walk,
    sym: &mut Sym,
    depth: u32,
    at: Around,
    e: &Expr,
    op: Option<BinOp>,
    to: &Expr,
    from: &Expr,
) -> Result<Bits, OutOfMemory>
    requires walk { IsWalk walk.now }
    requires ready { Ready (program_of walk.now) (mode_of walk.now) depth at sym.old
        (t.Expr e.now.spot e.now.ty (t.Assign op (expr_view to.now) (expr_view from.now))) }
    ensures { IfOk result (λ r. Values (program_of walk.now) (mode_of walk.now) depth at Used
        (t.Expr e.now.spot e.now.ty (t.Assign op (expr_view to.now) (expr_view from.now))) sym.old sym.new r.bits) }
{
    match op {
        None => {
            let r = replace(walk, sym, depth, at, e, to, from)?;
            Ok(r)
        }
        Some(op) => {
            let r = update(walk, sym, depth, at, e, op, to, from)?;
            Ok(r)
        }
    }
}

#[cycle(walk)]
#[inline(always)]
fn replace(
    walk: &Walk,
    sym: &mut Sym,
    depth: u32,
    at: Around,
    e: &Expr,
    to: &Expr,
    from: &Expr,
) -> Result<Bits, OutOfMemory>
    requires walk { IsWalk walk.now }
    requires ready { Ready (program_of walk.now) (mode_of walk.now) depth at sym.old
        (t.Expr e.now.spot e.now.ty (t.Assign None (expr_view to.now) (expr_view from.now))) }
    ensures { IfOk result (λ r. Values (program_of walk.now) (mode_of walk.now) depth at Used
        (t.Expr e.now.spot e.now.ty (t.Assign None (expr_view to.now) (expr_view from.now))) sym.old sym.new r.bits) }
{
    let cell = target(walk, sym, depth, at, to)?;
    let y = eval(walk, sym, depth, at, true, from)?;
    let b = type_of(from);
    let r = store_target(walk.alloc, walk.program, sym, &cell, b, type_of(to), &y)?;
    Ok(r)
}

#[cycle(walk)]
#[inline(always)]
fn update(
    walk: &Walk,
    sym: &mut Sym,
    depth: u32,
    at: Around,
    e: &Expr,
    op: BinOp,
    to: &Expr,
    from: &Expr,
) -> Result<Bits, OutOfMemory>
    requires walk { IsWalk walk.now }
    requires ready { Ready (program_of walk.now) (mode_of walk.now) depth at sym.old
        (t.Expr e.now.spot e.now.ty (t.Assign (Some op) (expr_view to.now) (expr_view from.now))) }
    ensures { IfOk result (λ r. Values (program_of walk.now) (mode_of walk.now) depth at Used
        (t.Expr e.now.spot e.now.ty (t.Assign (Some op) (expr_view to.now) (expr_view from.now))) sym.old sym.new
        r.bits) }
{
    let cell = target(walk, sym, depth, at, to)?;
    let a = type_of(to);
    let x = look_target(walk.alloc, walk.program, sym, &cell, a)?;
    let y = eval(walk, sym, depth, at, true, from)?;
    let b = type_of(from);
    let z = operate(walk, sym, at, e.spot, op, a, &x, b, &y)?;
    let c = type_for(walk.program.model, op, a, b);
    let r = store_target(walk.alloc, walk.program, sym, &cell, c, a, &z)?;
    Ok(r)
}

// The value of a step: that of the target after it, or before it.
fn value_of_step(prefix: bool, after: Bits, before: Bits) -> Bits
    ensures { result.bits ≡ cond prefix after.bits before.bits }
{
    if prefix { after } else { before }
}

/// `++` or `--`, before or after its target (ISO C11 6.5.2.4, 6.5.3.1).
#[cycle(walk)]
#[inline(never)]
pub fn step(
    walk: &Walk,
    sym: &mut Sym,
    depth: u32,
    at: Around,
    e: &Expr,
    op: StepOp,
    to: &Expr,
) -> Result<Bits, OutOfMemory>
    requires walk { IsWalk walk.now }
    requires ready { Ready (program_of walk.now) (mode_of walk.now) depth at sym.old
        (t.Expr e.now.spot e.now.ty (t.Step op (expr_view to.now))) }
    ensures { IfOk result (λ r. Values (program_of walk.now) (mode_of walk.now) depth at Used
        (t.Expr e.now.spot e.now.ty (t.Step op (expr_view to.now))) sym.old sym.new r.bits) }
{
    let cell = target(walk, sym, depth, at, to)?;
    let a = type_of(to);
    let x = look_target(walk.alloc, walk.program, sym, &cell, a)?;
    let one = const_bits(walk.alloc, &sym.net, walk.program.model, IntType::Int, 1)?;
    let by = op_of_step(op);
    let z = operate(walk, sym, at, e.spot, by, a, &x, IntType::Int, &one)?;
    let c = type_for(walk.program.model, by, a, IntType::Int);
    let w = store_target(walk.alloc, walk.program, sym, &cell, c, a, &z)?;
    Ok(value_of_step(is_prefix(op), w, x))
}
