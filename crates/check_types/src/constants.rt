// Values of constant expressions (C11 6.6).
ghost use Rattle.std.specs.Prelude.{◌≡◌, cond, true, false};
ghost use Rattle.c_core.specs.Types.{is_zero, number_of};
ghost use Rattle.c_core.specs.Parts.{every_exp};
ghost use Rattle.c_core.specs.View.{expr_view};
ghost use Rattle.check_rules.specs.Constants as constants;
ghost use Rattle.check_rules.specs.Constants.{is_constant_part};

use crate::operators::{computed, computed_one, converted, valued};
use c_core::{DataModel, Expr, Node};

// Is every part of an expression one that a constant may have: no name, call, step or assignment?
#[cycle(parts)]
fn is_constant(e: &Expr) -> bool
    ensures { result ≡ every_exp is_constant_part (expr_view e.now) }
{
    match &e.node {
        Node::Const(_) => true,
        Node::Var(_) => false,
        Node::Index { .. } => false,
        Node::Unary { of, .. } => is_constant(of),
        Node::Cast(of) => is_constant(of),
        Node::Step { .. } => false,
        Node::Binary { left, right, .. } => is_constant(left) && is_constant(right),
        Node::Logic { left, right, .. } => is_constant(left) && is_constant(right),
        Node::Choose { test, yes, no, .. } => {
            is_constant(test) && (is_constant(yes) && is_constant(no))
        }
        Node::Comma { first, last } => is_constant(first) && is_constant(last),
        Node::Assign { .. } => false,
        Node::Call { .. } => false,
    }
}

// Is a value other than zero?
fn holds(value: i128) -> bool
    ensures { result ≡ cond (is_zero value) false true }
{
    value != 0
}

// 1 where a value is other than zero, else 0.
fn truth(value: i128) -> i128
    ensures { result ≡ number_of (cond (is_zero value) false true) }
{
    i128::from(holds(value))
}

// The value of an expression of constants; none where it overflows or is undefined.
#[cycle(value)]
fn value_of(model: DataModel, e: &Expr) -> Option<i128>
    ensures { result ≡ constants.value_of model (expr_view e.now) }
{
    match &e.node {
        Node::Const(value) => Some(*value),
        Node::Unary { op, of } => {
            let value = value_of(model, of)?;
            computed_one(model, *op, valued(of.ty), value)
        }
        Node::Cast(of) => {
            let value = value_of(model, of)?;
            Some(converted(model, e.ty, value))
        }
        Node::Binary { op, left, right } => {
            let a = value_of(model, left)?;
            let b = value_of(model, right)?;
            computed(model, *op, valued(left.ty), valued(right.ty), a, b)
        }
        Node::Logic { both, left, right } => {
            if holds(value_of(model, left)?) == *both {
                let value = value_of(model, right)?;
                Some(truth(value))
            } else {
                Some(i128::from(!*both))
            }
        }
        Node::Choose { test, yes, no, .. } => {
            let arm = if holds(value_of(model, test)?) {
                yes
            } else {
                no
            };
            let value = value_of(model, arm)?;
            Some(converted(model, e.ty, value))
        }
        Node::Comma { first, last } => {
            value_of(model, first)?;
            value_of(model, last)
        }
        _ => None,
    }
}

/// The value of a constant expression; void is none.
pub fn constant(model: DataModel, e: &Expr) -> Option<i128>
    ensures { result ≡ constants.constant model (expr_view e.now) }
{
    if e.ty.is_some() && is_constant(e) {
        value_of(model, e)
    } else {
        None
    }
}
