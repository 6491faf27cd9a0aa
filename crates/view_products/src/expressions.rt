// The products, quotients and remainders in expressions.
ghost use Rattle.std.specs.Prelude.{◌≡◌, ◌++◌, cond, false, not, ◌&&◌, OnOk};
ghost use Rattle.c_core.specs.Parts.{exps_of_arguments, exps_of_node};
ghost use Rattle.c_core.specs.View.{expr_view, exprs_view, node_view};
ghost use Rattle.view_products.specs.Products.{is_constant, is_product, multiplies, multiplies_in_place, own_product, products_among, products_in};

use c_core::{BinOp, Expr, Node, Spot};
use wv_base::OutOfMemory;

// Is an expression a constant, or made of constants by operators?
#[cycle(parts)]
fn is_constant(e: &Expr) -> bool
    ensures { result ≡ is_constant (expr_view e.now) }
{
    match &e.node {
        Node::Const(_) => true,
        Node::Unary { of, .. } => is_constant(of),
        Node::Cast(of) => is_constant(of),
        Node::Binary { left, right, .. } => is_constant(left) && is_constant(right),
        _ => false,
    }
}

fn multiplies(op: BinOp) -> bool
    ensures { result ≡ multiplies op }
{
    match op {
        BinOp::Mul | BinOp::Div | BinOp::Rem => true,
        _ => false,
    }
}

fn multiplies_in_place(op: Option<BinOp>) -> bool
    ensures { result ≡ multiplies_in_place op }
{
    match op {
        Some(op) => multiplies(op),
        None => false,
    }
}

fn is_product(node: &Node) -> bool
    ensures { result ≡ is_product (node_view node.now) }
{
    match node {
        Node::Binary { op, left, right } => {
            multiplies(*op) && (!is_constant(left) && !is_constant(right))
        }
        Node::Assign { op, from, .. } => multiplies_in_place(*op) && !is_constant(from),
        _ => false,
    }
}

fn push_own(list: &mut Vec<Spot>, e: &Expr) -> Result<(), OutOfMemory>
    ensures { OnOk result (list.new.items ≡ list.old.items ++ own_product (expr_view e.now)) }
{
    if is_product(&e.node) {
        list.push(e.spot)?;
    }
    Ok(())
}

/// Appends the places of the products, quotients and remainders in an expression, its own among them.
#[cycle(expression)]
#[tactic(auto, using(crate::proofs::Among::among_both))]
pub fn push_expression(list: &mut Vec<Spot>, e: &Expr) -> Result<(), OutOfMemory>
    ensures { OnOk result (list.new.items ≡ list.old.items ++ products_in (expr_view e.now)) }
{
    push_own(list, e)?;
    push_node(list, &e.node)?;
    Ok(())
}

#[cycle(expression)]
#[tactic(auto, using(crate::proofs::Among::among_both))]
fn push_node(list: &mut Vec<Spot>, node: &Node) -> Result<(), OutOfMemory>
    ensures { OnOk result (list.new.items ≡ list.old.items ++ products_among (exps_of_node (node_view node.now))) }
{
    match node {
        Node::Const(_) => {}
        Node::Var(_) => {}
        Node::Index { at, .. } => push_arguments(list, at.as_slice())?,
        Node::Unary { of, .. } => push_expression(list, of)?,
        Node::Cast(of) => push_expression(list, of)?,
        Node::Step { target, .. } => push_expression(list, target)?,
        Node::Binary { left, right, .. } => {
            push_expression(list, left)?;
            push_expression(list, right)?;
        }
        Node::Logic { left, right, .. } => {
            push_expression(list, left)?;
            push_expression(list, right)?;
        }
        Node::Choose { test, yes, no, .. } => {
            push_expression(list, test)?;
            push_expression(list, yes)?;
            push_expression(list, no)?;
        }
        Node::Comma { first, last } => {
            push_expression(list, first)?;
            push_expression(list, last)?;
        }
        Node::Assign { target, from, .. } => {
            push_expression(list, target)?;
            push_expression(list, from)?;
        }
        Node::Call { args, .. } => push_arguments(list, args.as_slice())?,
    }
    Ok(())
}

#[cycle(expression)]
#[tactic(auto, using(crate::proofs::Among::among_both))]
fn push_arguments(list: &mut Vec<Spot>, es: &[Expr]) -> Result<(), OutOfMemory>
    ensures { OnOk result (list.new.items
        ≡ list.old.items ++ products_among (exps_of_arguments (exprs_view es.now))) }
{
    for e in es {
        push_expression(list, e)?;
    }
    Ok(())
}
