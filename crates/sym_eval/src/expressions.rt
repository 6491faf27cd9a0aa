// Expressions: one function for each form.
ghost use Rattle.std.specs.Prelude.{IfOk, None, Some};
ghost use Rattle.c_core.specs.Tree as t;
ghost use Rattle.c_core.specs.View.{expr_view, exprs_view};
ghost use Rattle.c_core.specs.declared.tree.Callee.TheVariants.{Exit};
ghost use Rattle.c_meaning.specs.Meaning.{Used};
ghost use Rattle.sym_exprs.specs.Evaluating.{use_of, Ready, Values, ReadyWhere, ValuesWhere};
ghost use Rattle.sym_walk.specs.Walking.{program_of, mode_of, IsWalk};

use crate::assignments::{assign, indexed, step};
use crate::calls::call_defined;
use crate::targets::look_target;
use c_core::{BinOp, Callee, Expr, IntType, Node, Spot, UnOp};
use c_meaning::type_of;
use circuits::{Bit, Bits, const_bits, not};
use sym_exprs::kept_if;
use sym_state::{Around, Sym, join, look, narrow};
use sym_values::{choose, convert, end, input, test, truth};
use sym_walk::{Walk, operate, operate_one, reach, tell_branch, tell_enter, tell_value};
use wv_base::{OutOfMemory, Seq};

/// An expression, at a statement and a full expression, with calls at most `depth` deep. A void one gives any bits.
/// This choice stands in the frames of its callers, and each form has one of its own, never inlined here: nested
/// expressions take the stack of their own forms alone.
#[cycle(walk)]
#[inline(always)]
pub fn eval(
    walk: &Walk,
    sym: &mut Sym,
    depth: u32,
    at: Around,
    used: bool,
    e: &Expr,
) -> Result<Bits, OutOfMemory>
    requires walk { IsWalk walk.now }
    requires ready { Ready (program_of walk.now) (mode_of walk.now) depth at sym.old (expr_view e.now) }
    ensures { IfOk result (λ r. Values (program_of walk.now) (mode_of walk.now) depth at (use_of used)
        (expr_view e.now) sym.old sym.new r.bits) }
{
    match &e.node {
        Node::Const(value) => constant(walk, sym, depth, at, e, *value),
        Node::Var(object) => scalar(walk, sym, depth, at, e, *object),
        Node::Index {
            object,
            at: indexes,
        } => element(walk, sym, depth, at, e, *object, indexes.as_slice()),
        Node::Unary { op, of } => unary(walk, sym, depth, at, e, *op, of),
        Node::Cast(of) => cast(walk, sym, depth, at, e, of),
        Node::Step { op, target } => step(walk, sym, depth, at, e, *op, target),
        Node::Binary { op, left, right } => binary(walk, sym, depth, at, e, *op, left, right),
        Node::Logic { both, left, right } => logic(walk, sym, depth, at, e, *both, left, right),
        Node::Choose {
            mark,
            test,
            yes,
            no,
        } => conditional(walk, sym, depth, at, e, *mark, test, yes, no),
        Node::Comma { first, last } => comma(walk, sym, depth, at, e, first, last),
        Node::Assign { op, target, from } => assign(walk, sym, depth, at, e, *op, target, from),
        Node::Call {
            callee,
            args,
            close,
        } => call(
            walk,
            sym,
            depth,
            at,
            used,
            e,
            *callee,
            args.as_slice(),
            *close,
        ),
    }
}

#[inline(never)]
fn constant(
    walk: &Walk,
    sym: &mut Sym,
    depth: u32,
    at: Around,
    e: &Expr,
    value: i128,
) -> Result<Bits, OutOfMemory>
    requires walk { IsWalk walk.now }
    requires ready { Ready (program_of walk.now) (mode_of walk.now) depth at sym.old
        (t.Expr e.now.spot e.now.ty (t.Const value)) }
    ensures { IfOk result (λ r. Values (program_of walk.now) (mode_of walk.now) depth at Used
        (t.Expr e.now.spot e.now.ty (t.Const value)) sym.old sym.new r.bits) }
{
    let r = const_bits(walk.alloc, &sym.net, walk.program.model, type_of(e), value)?;
    Ok(r)
}

#[inline(never)]
fn scalar(
    walk: &Walk,
    sym: &mut Sym,
    depth: u32,
    at: Around,
    e: &Expr,
    object: u32,
) -> Result<Bits, OutOfMemory>
    requires walk { IsWalk walk.now }
    requires ready { Ready (program_of walk.now) (mode_of walk.now) depth at sym.old
        (t.Expr e.now.spot e.now.ty (t.Var object)) }
    ensures { IfOk result (λ r. Values (program_of walk.now) (mode_of walk.now) depth at Used
        (t.Expr e.now.spot e.now.ty (t.Var object)) sym.old sym.new r.bits) }
{
    let r = look(walk.alloc, walk.program, sym, object, 0, type_of(e))?;
    Ok(r)
}

#[cycle(walk)]
#[inline(never)]
fn element(
    walk: &Walk,
    sym: &mut Sym,
    depth: u32,
    at: Around,
    e: &Expr,
    object: u32,
    indexes: &[Expr],
) -> Result<Bits, OutOfMemory>
    requires walk { IsWalk walk.now }
    requires ready { Ready (program_of walk.now) (mode_of walk.now) depth at sym.old
        (t.Expr e.now.spot e.now.ty (t.Index object (exprs_view indexes.now))) }
    ensures { IfOk result (λ r. Values (program_of walk.now) (mode_of walk.now) depth at Used
        (t.Expr e.now.spot e.now.ty (t.Index object (exprs_view indexes.now))) sym.old sym.new r.bits) }
{
    let cell = indexed(walk, sym, depth, at, e, object, indexes)?;
    let r = look_target(walk.alloc, walk.program, sym, &cell, type_of(e))?;
    Ok(r)
}

#[cycle(walk)]
#[inline(never)]
fn unary(
    walk: &Walk,
    sym: &mut Sym,
    depth: u32,
    at: Around,
    e: &Expr,
    op: UnOp,
    of: &Expr,
) -> Result<Bits, OutOfMemory>
    requires walk { IsWalk walk.now }
    requires ready { Ready (program_of walk.now) (mode_of walk.now) depth at sym.old
        (t.Expr e.now.spot e.now.ty (t.Unary op (expr_view of.now))) }
    ensures { IfOk result (λ r. Values (program_of walk.now) (mode_of walk.now) depth at Used
        (t.Expr e.now.spot e.now.ty (t.Unary op (expr_view of.now))) sym.old sym.new r.bits) }
{
    let x = eval(walk, sym, depth, at, true, of)?;
    let r = operate_one(walk, sym, at, op, type_of(of), &x)?;
    Ok(r)
}

#[cycle(walk)]
#[inline(never)]
fn binary(
    walk: &Walk,
    sym: &mut Sym,
    depth: u32,
    at: Around,
    e: &Expr,
    op: BinOp,
    left: &Expr,
    right: &Expr,
) -> Result<Bits, OutOfMemory>
    requires walk { IsWalk walk.now }
    requires ready { Ready (program_of walk.now) (mode_of walk.now) depth at sym.old
        (t.Expr e.now.spot e.now.ty (t.Binary op (expr_view left.now) (expr_view right.now))) }
    ensures { IfOk result (λ r. Values (program_of walk.now) (mode_of walk.now) depth at Used
        (t.Expr e.now.spot e.now.ty (t.Binary op (expr_view left.now) (expr_view right.now))) sym.old sym.new r.bits) }
{
    let x = eval(walk, sym, depth, at, true, left)?;
    let y = eval(walk, sym, depth, at, true, right)?;
    let a = type_of(left);
    let b = type_of(right);
    let r = operate(walk, sym, at, e.spot, op, a, &x, b, &y)?;
    Ok(r)
}

#[cycle(walk)]
#[inline(never)]
fn cast(
    walk: &Walk,
    sym: &mut Sym,
    depth: u32,
    at: Around,
    e: &Expr,
    of: &Expr,
) -> Result<Bits, OutOfMemory>
    requires walk { IsWalk walk.now }
    requires ready { Ready (program_of walk.now) (mode_of walk.now) depth at sym.old
        (t.Expr e.now.spot e.now.ty (t.Cast (expr_view of.now))) }
    ensures { IfOk result (λ r. Values (program_of walk.now) (mode_of walk.now) depth at Used
        (t.Expr e.now.spot e.now.ty (t.Cast (expr_view of.now))) sym.old sym.new r.bits) }
{
    match e.ty {
        None => {
            let r = eval(walk, sym, depth, at, false, of)?;
            Ok(r)
        }
        Some(to) => {
            let x = eval(walk, sym, depth, at, true, of)?;
            let r = convert(walk.alloc, walk.program, sym, type_of(of), to, &x)?;
            Ok(r)
        }
    }
}

#[cycle(walk)]
#[inline(never)]
fn comma(
    walk: &Walk,
    sym: &mut Sym,
    depth: u32,
    at: Around,
    e: &Expr,
    first: &Expr,
    last: &Expr,
) -> Result<Bits, OutOfMemory>
    requires walk { IsWalk walk.now }
    requires ready { Ready (program_of walk.now) (mode_of walk.now) depth at sym.old
        (t.Expr e.now.spot e.now.ty (t.Comma (expr_view first.now) (expr_view last.now))) }
    ensures { IfOk result (λ r. Values (program_of walk.now) (mode_of walk.now) depth at Used
        (t.Expr e.now.spot e.now.ty (t.Comma (expr_view first.now) (expr_view last.now))) sym.old sym.new r.bits) }
{
    let _value = eval(walk, sym, depth, at, false, first)?;
    let r = eval(walk, sym, depth, at, true, last)?;
    Ok(r)
}

// An expression is evaluated in the runs in which a bit is true.
#[cycle(walk)]
#[inline(always)]
fn eval_where(
    walk: &Walk,
    sym: &mut Sym,
    depth: u32,
    at: Around,
    go: Bit,
    e: &Expr,
) -> Result<Bits, OutOfMemory>
    requires walk { IsWalk walk.now }
    requires ready { ReadyWhere (program_of walk.now) (mode_of walk.now) depth at go sym.old (expr_view e.now) }
    ensures { IfOk result (λ r. ValuesWhere (program_of walk.now) (mode_of walk.now) depth at go (expr_view e.now)
        sym.old sym.new r.bits) }
{
    let skipped = sym.net.under(sym.live, not(go))?;
    let live = sym.live;
    narrow(sym, walk.program, live, go)?;
    let r = eval(walk, sym, depth, at, true, e)?;
    join(sym, walk.program, skipped)?;
    Ok(r)
}

#[cycle(walk)]
#[inline(never)]
fn logic(
    walk: &Walk,
    sym: &mut Sym,
    depth: u32,
    at: Around,
    e: &Expr,
    both: bool,
    left: &Expr,
    right: &Expr,
) -> Result<Bits, OutOfMemory>
    requires walk { IsWalk walk.now }
    requires ready { Ready (program_of walk.now) (mode_of walk.now) depth at sym.old
        (t.Expr e.now.spot e.now.ty (t.Logic both (expr_view left.now) (expr_view right.now))) }
    ensures { IfOk result (λ r. Values (program_of walk.now) (mode_of walk.now) depth at Used
        (t.Expr e.now.spot e.now.ty (t.Logic both (expr_view left.now) (expr_view right.now))) sym.old sym.new r.bits) }
{
    let x = eval(walk, sym, depth, at, true, left)?;
    let first = test(walk.alloc, walk.program, sym, type_of(left), &x)?;
    let go = kept_if(both, first);
    let y = eval_where(walk, sym, depth, at, go, right)?;
    let second = test(walk.alloc, walk.program, sym, type_of(right), &y)?;
    let hit = kept_if(both, second);
    let all = sym.net.and(go, hit)?;
    let decided = kept_if(both, all);
    let r = truth(walk.alloc, walk.program, sym, decided)?;
    Ok(r)
}

#[cycle(walk)]
#[inline(never)]
fn conditional(
    walk: &Walk,
    sym: &mut Sym,
    depth: u32,
    at: Around,
    e: &Expr,
    mark: Spot,
    condition: &Expr,
    yes: &Expr,
    no: &Expr,
) -> Result<Bits, OutOfMemory>
    requires walk { IsWalk walk.now }
    requires ready { Ready (program_of walk.now) (mode_of walk.now) depth at sym.old
        (t.Expr e.now.spot e.now.ty (t.Choose mark (expr_view condition.now) (expr_view yes.now) (expr_view no.now))) }
    ensures { IfOk result (λ r. Values (program_of walk.now) (mode_of walk.now) depth at Used
        (t.Expr e.now.spot e.now.ty (t.Choose mark (expr_view condition.now) (expr_view yes.now) (expr_view no.now)))
        sym.old sym.new r.bits) }
{
    match e.ty {
        Some(to) => {
            let r = pick(walk, sym, depth, at, e.spot, to, mark, condition, yes, no)?;
            Ok(r)
        }
        None => {
            let r = void_arms(walk, sym, depth, at, e.spot, mark, condition, yes, no)?;
            Ok(r)
        }
    }
}

#[cycle(walk)]
fn pick(
    walk: &Walk,
    sym: &mut Sym,
    depth: u32,
    at: Around,
    spot: Spot,
    to: IntType,
    mark: Spot,
    condition: &Expr,
    yes: &Expr,
    no: &Expr,
) -> Result<Bits, OutOfMemory>
    requires walk { IsWalk walk.now }
    requires ready { Ready (program_of walk.now) (mode_of walk.now) depth at sym.old
        (t.Expr spot (Some to) (t.Choose mark (expr_view condition.now) (expr_view yes.now) (expr_view no.now))) }
    ensures { IfOk result (λ r. Values (program_of walk.now) (mode_of walk.now) depth at Used
        (t.Expr spot (Some to) (t.Choose mark (expr_view condition.now) (expr_view yes.now) (expr_view no.now))) sym.old
        sym.new r.bits) }
{
    let e = eval(walk, sym, depth, at, true, condition)?;
    let go = test(walk.alloc, walk.program, sym, type_of(condition), &e)?;
    tell_branch(walk, sym, mark, go)?;
    let x = eval_where(walk, sym, depth, at, go, yes)?;
    let u = convert(walk.alloc, walk.program, sym, type_of(yes), to, &x)?;
    let other = not(go);
    let y = eval_where(walk, sym, depth, at, other, no)?;
    let w = convert(walk.alloc, walk.program, sym, type_of(no), to, &y)?;
    let r = choose(walk.alloc, walk.program, sym, to, go, &u, &w)?;
    Ok(r)
}

// `?:` without a value.
#[cycle(walk)]
fn void_arms(
    walk: &Walk,
    sym: &mut Sym,
    depth: u32,
    at: Around,
    spot: Spot,
    mark: Spot,
    condition: &Expr,
    yes: &Expr,
    no: &Expr,
) -> Result<Bits, OutOfMemory>
    requires walk { IsWalk walk.now }
    requires ready { Ready (program_of walk.now) (mode_of walk.now) depth at sym.old
        (t.Expr spot None (t.Choose mark (expr_view condition.now) (expr_view yes.now) (expr_view no.now))) }
    ensures { IfOk result (λ r. Values (program_of walk.now) (mode_of walk.now) depth at Used
        (t.Expr spot None (t.Choose mark (expr_view condition.now) (expr_view yes.now) (expr_view no.now))) sym.old
        sym.new r.bits) }
{
    let e = eval(walk, sym, depth, at, true, condition)?;
    let go = test(walk.alloc, walk.program, sym, type_of(condition), &e)?;
    tell_branch(walk, sym, mark, go)?;
    let _nothing = eval_where(walk, sym, depth, at, go, yes)?;
    let other = not(go);
    let r = eval_where(walk, sym, depth, at, other, no)?;
    Ok(r)
}

#[cycle(walk)]
#[inline(never)]
fn call(
    walk: &Walk,
    sym: &mut Sym,
    depth: u32,
    at: Around,
    used: bool,
    e: &Expr,
    callee: Callee,
    args: &[Expr],
    close: Spot,
) -> Result<Bits, OutOfMemory>
    requires walk { IsWalk walk.now }
    requires ready { Ready (program_of walk.now) (mode_of walk.now) depth at sym.old
        (t.Expr e.now.spot e.now.ty (t.Call callee (exprs_view args.now) close)) }
    ensures { IfOk result (λ r. Values (program_of walk.now) (mode_of walk.now) depth at (use_of used)
        (t.Expr e.now.spot e.now.ty (t.Call callee (exprs_view args.now) close)) sym.old sym.new r.bits) }
{
    match callee {
        Callee::Defined(f) => {
            call_defined(walk, sym, depth, at, used, e.spot, e.ty, f, args, close)
        }
        Callee::Input(of) => {
            tell_enter(walk, sym, close)?;
            let r = input(walk.alloc, walk.program, sym, e.spot, of)?;
            tell_value(walk, sym, close, of, &r)?;
            Ok(r)
        }
        Callee::ReachError => {
            tell_enter(walk, sym, close)?;
            reach(walk, sym, at, e.spot)?;
            let bits = Seq::new(walk.alloc);
            Ok(Bits { bits })
        }
        Callee::Abort => {
            tell_enter(walk, sym, close)?;
            end(sym, walk.program)?;
            let bits = Seq::new(walk.alloc);
            Ok(Bits { bits })
        }
        Callee::Exit => exit(walk, sym, depth, at, e, args, close),
    }
}

#[cycle(walk)]
fn exit(
    walk: &Walk,
    sym: &mut Sym,
    depth: u32,
    at: Around,
    e: &Expr,
    args: &[Expr],
    close: Spot,
) -> Result<Bits, OutOfMemory>
    requires walk { IsWalk walk.now }
    requires ready { Ready (program_of walk.now) (mode_of walk.now) depth at sym.old
        (t.Expr e.now.spot e.now.ty (t.Call Exit (exprs_view args.now) close)) }
    ensures { IfOk result (λ r. Values (program_of walk.now) (mode_of walk.now) depth at Used
        (t.Expr e.now.spot e.now.ty (t.Call Exit (exprs_view args.now) close)) sym.old sym.new r.bits) }
{
    let r = eval(walk, sym, depth, at, true, &args[0])?;
    tell_enter(walk, sym, close)?;
    end(sym, walk.program)?;
    Ok(r)
}
