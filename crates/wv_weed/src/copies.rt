// Copies of typed trees, and of the invariants that are left.
ghost use Rattle.std.specs.Prelude.{◌≡◌, IfOk, length};
ghost use Rattle.c_core.specs.Tree.{Call, Index};
ghost use Rattle.c_core.specs.View.{expr_view, exprs_view, node_view};
ghost use Rattle.c_inductive.specs.Picking.{picked, IsSelection};
ghost use Rattle.c_meaning.specs.Placing.{placed, placed_view};

use c_core::{Callee, Expr, Node, Spot};
use c_meaning::PlacedInvariant;
use std::alloc::Global;
use wv_base::{OutOfMemory, Seq};

#[cycle(copy)]
fn expression(alloc: Global, e: &Expr) -> Result<Expr, OutOfMemory>
    ensures { IfOk result (λ r. expr_view r ≡ expr_view e.now) }
{
    let node = node(alloc, &e.node)?;
    Ok(Expr {
        spot: e.spot,
        ty: e.ty,
        node,
    })
}

#[cycle(copy)]
fn boxed(alloc: Global, e: &Expr) -> Result<Box<Expr>, OutOfMemory>
    ensures { IfOk result (λ r. expr_view r.value ≡ expr_view e.now) }
{
    let copy = expression(alloc, e)?;
    let copy = Box::new(alloc, copy)?;
    Ok(copy)
}

#[cycle(copy)]
fn node(alloc: Global, inner: &Node) -> Result<Node, OutOfMemory>
    ensures { IfOk result (λ r. node_view r ≡ node_view inner.now) }
{
    match inner {
        Node::Const(value) => Ok(Node::Const(*value)),
        Node::Var(object) => Ok(Node::Var(*object)),
        Node::Index { object, at } => element(alloc, *object, at.as_slice()),
        Node::Unary { op, of } => {
            let of = boxed(alloc, of)?;
            Ok(Node::Unary { op: *op, of })
        }
        Node::Cast(of) => Ok(Node::Cast(boxed(alloc, of)?)),
        Node::Step { op, target } => {
            let target = boxed(alloc, target)?;
            Ok(Node::Step { op: *op, target })
        }
        Node::Logic { both, left, right } => {
            let (both, left, right) = (*both, boxed(alloc, left)?, boxed(alloc, right)?);
            Ok(Node::Logic { both, left, right })
        }
        Node::Comma { first, last } => {
            let (first, last) = (boxed(alloc, first)?, boxed(alloc, last)?);
            Ok(Node::Comma { first, last })
        }
        Node::Binary { op, left, right } => {
            let (op, left, right) = (*op, boxed(alloc, left)?, boxed(alloc, right)?);
            Ok(Node::Binary { op, left, right })
        }
        Node::Choose {
            mark,
            test,
            yes,
            no,
        } => {
            let (test, yes, no) = (boxed(alloc, test)?, boxed(alloc, yes)?, boxed(alloc, no)?);
            Ok(Node::Choose {
                mark: *mark,
                test,
                yes,
                no,
            })
        }
        Node::Assign { op, target, from } => {
            let (op, target, from) = (*op, boxed(alloc, target)?, boxed(alloc, from)?);
            Ok(Node::Assign { op, target, from })
        }
        Node::Call {
            callee,
            args,
            close,
        } => call(alloc, *callee, args.as_slice(), *close),
    }
}

#[cycle(copy)]
fn element(alloc: Global, object: u32, at: &[Expr]) -> Result<Node, OutOfMemory>
    ensures { IfOk result (λ r. node_view r ≡ Index object (exprs_view at.now)) }
{
    let at = expressions(alloc, at)?;
    Ok(Node::Index { object, at })
}

#[cycle(copy)]
fn call(alloc: Global, callee: Callee, args: &[Expr], close: Spot) -> Result<Node, OutOfMemory>
    ensures { IfOk result (λ r. node_view r ≡ Call callee (exprs_view args.now) close) }
{
    let args = expressions(alloc, args)?;
    Ok(Node::Call {
        callee,
        args,
        close,
    })
}

#[cycle(copy)]
fn expressions(alloc: Global, es: &[Expr]) -> Result<Seq<Expr>, OutOfMemory>
    ensures { IfOk result (λ r. exprs_view r ≡ exprs_view es.now) }
{
    let mut all = Seq::new(alloc);
    for e in es {
        let copy = expression(alloc, e)?;
        all.push(copy)?;
    }
    Ok(all)
}

fn invariant(alloc: Global, x: &PlacedInvariant) -> Result<PlacedInvariant, OutOfMemory>
    ensures { IfOk result (λ r. placed r ≡ placed x.now) }
{
    let test = expression(alloc, &x.test)?;
    Ok(PlacedInvariant {
        at_loop: x.at_loop,
        spot: x.spot,
        test,
    })
}

/// Copies of the invariants with these numbers, in their order.
pub fn copies_of(
    alloc: Global,
    invariants: &Seq<PlacedInvariant>,
    numbers: &Seq<u32>,
) -> Result<Seq<PlacedInvariant>, OutOfMemory>
    requires { IsSelection (length invariants.now) numbers.now }
    ensures { IfOk result (λ r. placed_view r ≡ picked numbers.now (placed_view invariants.now)) }
{
    let mut copies = Seq::new(alloc);
    let all = invariants.as_slice();
    for number in numbers.as_slice() {
        let copy = invariant(alloc, &all[*number as usize - 1])?;
        copies.push(copy)?;
    }
    Ok(copies)
}
