// The parts of an expression, which are looked at one after another.
use c_core::{Expr, Node};
use wv_base::OutOfMemory;

fn open_one<'a>(open: &mut Vec<&'a Expr>, e: &'a Expr) -> Result<(), OutOfMemory> {
    open.push(e)?;
    Ok(())
}

/// Opens the later part first, so that the earlier one is looked at before it.
fn open_two<'a>(
    open: &mut Vec<&'a Expr>,
    left: &'a Expr,
    right: &'a Expr,
) -> Result<(), OutOfMemory> {
    open_one(open, right)?;
    open_one(open, left)
}

fn open_each<'a>(open: &mut Vec<&'a Expr>, list: &'a [Expr]) -> Result<(), OutOfMemory> {
    for e in list {
        open_one(open, e)?;
    }
    Ok(())
}

/// Opens the parts of an expression.
pub fn open_parts<'a>(open: &mut Vec<&'a Expr>, e: &'a Expr) -> Result<(), OutOfMemory> {
    match &e.node {
        Node::Const(_) => Ok(()),
        Node::Var(_) => Ok(()),
        Node::Index { at, .. } => open_each(open, at.as_slice()),
        Node::Unary { of, .. } => open_one(open, of),
        Node::Cast(of) => open_one(open, of),
        Node::Step { target, .. } => open_one(open, target),
        Node::Logic { left, right, .. } => open_two(open, left, right),
        Node::Binary { left, right, .. } => open_two(open, left, right),
        Node::Comma { first, last } => open_two(open, first, last),
        Node::Choose { test, yes, no, .. } => {
            open_two(open, yes, no)?;
            open_one(open, test)
        }
        Node::Assign { target, from, .. } => open_two(open, target, from),
        Node::Call { args, .. } => open_each(open, args.as_slice()),
    }
}
