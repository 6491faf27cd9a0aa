// Which expressions stand in witnesses and in constraints on results.
ghost use Rattle.std.specs.Prelude.{◌≡◌};
ghost use Rattle.c_parser.specs.Tree.{exps};
ghost use Rattle.c_parser.specs.Witness.{is_effectless, are_effectless, is_nameless};
ghost use Rattle.c_parser.specs.View.{expr_view, exprs_view};

use crate::tree::{RawExpr, RawNode};

/// Whether no assignment, step, call, comma and cast to void stands in an expression.
#[cycle(effectless)]
pub fn is_effectless(expr: &RawExpr) -> bool
    ensures { result ≡ is_effectless (expr_view expr.now) }
{
    match &expr.node {
        RawNode::Number { .. } => true,
        RawNode::Char(_) => true,
        RawNode::Var { .. } => true,
        RawNode::Index { at, .. } => are_effectless(at.as_slice()),
        RawNode::Unary { of, .. } => is_effectless(of),
        RawNode::Cast { to, of } => to.is_some() && is_effectless(of),
        RawNode::Step { .. } => false,
        RawNode::Binary { left, right, .. } => is_effectless(left) && is_effectless(right),
        RawNode::Logic { left, right, .. } => is_effectless(left) && is_effectless(right),
        RawNode::Choose { test, yes, no, .. } => is_effectless(test)
            && (is_effectless(yes) && is_effectless(no)),
        RawNode::Comma { .. } => false,
        RawNode::Assign { .. } => false,
        RawNode::Call { .. } => false,
    }
}

/// The same of each of these.
#[cycle(effectless)]
fn are_effectless(exprs: &[RawExpr]) -> bool
    ensures { result ≡ are_effectless (exps (exprs_view exprs.now)) }
{
    for expr in exprs {
        if !is_effectless(expr) {
            return false;
        }
    }
    true
}

/// Whether no name, call, step and cast to void stands in an expression.
pub fn is_nameless(expr: &RawExpr) -> bool
    ensures { result ≡ is_nameless (expr_view expr.now) }
{
    match &expr.node {
        RawNode::Number { .. } => true,
        RawNode::Char(_) => true,
        RawNode::Var { .. } => false,
        RawNode::Index { .. } => false,
        RawNode::Unary { of, .. } => is_nameless(of),
        RawNode::Cast { to, of } => to.is_some() && is_nameless(of),
        RawNode::Step { .. } => false,
        RawNode::Binary { left, right, .. } => is_nameless(left) && is_nameless(right),
        RawNode::Logic { left, right, .. } => is_nameless(left) && is_nameless(right),
        RawNode::Choose { test, yes, no, .. } => is_nameless(test)
            && (is_nameless(yes) && is_nameless(no)),
        RawNode::Comma { first, last } => is_nameless(first) && is_nameless(last),
        RawNode::Assign { target, from, .. } => is_nameless(target) && is_nameless(from),
        RawNode::Call { .. } => false,
    }
}
