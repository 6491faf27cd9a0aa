// Which full expressions can violate the property.
ghost use Rattle.std.specs.Prelude.{◌≡◌};
ghost use Rattle.c_core.specs.Operators.{overflows as overflows_of, overflows_one as overflows_one_of};
ghost use Rattle.c_core.specs.View.{expr_view, exprs_view, node_view};
ghost use Rattle.c_core.specs.Places.{node_reaches_error};
ghost use Rattle.c_meaning.specs.Duties as of_duties;
ghost use Rattle.c_meaning.specs.Parts.{some_argument, some_node, some_part};

use c_core::{
    BinOp, Callee, DataModel, Expr, IntType, Node, Property, UnOp, op_of_step, promote, signed,
    type_for,
};
use c_meaning::type_of;

fn overflows(op: BinOp) -> bool
    ensures { result ≡ overflows_of op }
{
    match op {
        BinOp::Add | BinOp::Sub | BinOp::Mul | BinOp::Div | BinOp::Rem | BinOp::Shl => true,
        _ => false,
    }
}

fn overflows_one(op: UnOp) -> bool
    ensures { result ≡ overflows_one_of op }
{
    match op {
        UnOp::Neg => true,
        _ => false,
    }
}

fn may_overflow(model: DataModel, op: BinOp, a: IntType, b: IntType) -> bool
    ensures { result ≡ of_duties.may_overflow model op a b }
{
    overflows(op) && signed(type_for(model, op, a, b))
}

/// Whether a node computes by an operator that can overflow.
pub fn node_may_overflow(model: DataModel, node: &Node) -> bool
    ensures { result ≡ of_duties.node_may_overflow model (node_view node.now) }
{
    match node {
        Node::Binary { op, left, right } => may_overflow(model, *op, type_of(left), type_of(right)),
        Node::Unary { op, of } => overflows_one(*op) && signed(promote(model, type_of(of))),
        Node::Step { op, target } => {
            may_overflow(model, op_of_step(*op), type_of(target), IntType::Int)
        }
        Node::Assign {
            op: Some(op),
            target,
            from,
        } => may_overflow(model, *op, type_of(target), type_of(from)),
        _ => false,
    }
}

fn node_reaches(node: &Node) -> bool
    ensures { result ≡ node_reaches_error (node_view node.now) }
{
    match node {
        Node::Call {
            callee: Callee::ReachError,
            ..
        } => true,
        _ => false,
    }
}

fn may_violate(property: Property, model: DataModel, node: &Node) -> bool
    ensures { result ≡ of_duties.may_violate property model (node_view node.now) }
{
    match property {
        Property::UnreachCall => node_reaches(node),
        Property::NoOverflow => node_may_overflow(model, node),
    }
}

/// Does an expression hold a node that can violate the property?
#[cycle(expression)]
pub fn violates(property: Property, model: DataModel, e: &Expr) -> bool
    ensures { result ≡ some_node (of_duties.may_violate property model) (expr_view e.now) }
{
    may_violate(property, model, &e.node) || part_violates(property, model, &e.node)
}

#[cycle(expression)]
fn part_violates(property: Property, model: DataModel, node: &Node) -> bool
    ensures { result ≡ some_part (of_duties.may_violate property model) (node_view node.now) }
{
    match node {
        Node::Const(_) => false,
        Node::Var(_) => false,
        Node::Index { at, .. } => argument_violates(property, model, at.as_slice()),
        Node::Unary { of, .. } => violates(property, model, of),
        Node::Cast(of) => violates(property, model, of),
        Node::Step { target, .. } => violates(property, model, target),
        Node::Binary { left, right, .. } => {
            violates(property, model, left) || violates(property, model, right)
        }
        Node::Logic { left, right, .. } => {
            violates(property, model, left) || violates(property, model, right)
        }
        Node::Choose { test, yes, no, .. } => {
            violates(property, model, test)
                || (violates(property, model, yes) || violates(property, model, no))
        }
        Node::Comma { first, last } => {
            violates(property, model, first) || violates(property, model, last)
        }
        Node::Assign { target, from, .. } => {
            violates(property, model, target) || violates(property, model, from)
        }
        Node::Call { args, .. } => argument_violates(property, model, args.as_slice()),
    }
}

#[cycle(expression)]
fn argument_violates(property: Property, model: DataModel, es: &[Expr]) -> bool
    ensures { result ≡ some_argument (of_duties.may_violate property model) (exprs_view es.now) }
{
    for e in es {
        if violates(property, model, e) {
            return true;
        }
    }
    false
}
