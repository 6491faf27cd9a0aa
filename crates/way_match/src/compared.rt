// The constant that an object is compared with in a chain of `&&`.
ghost use Rattle.std.specs.Prelude.{◌≡◌, ◌||◌};
ghost use Rattle.std.specs.Option.{option_copied};
ghost use Rattle.c_core.specs.View.{expr_view, expr_view_if, exprs_view, node_view};
ghost use Rattle.c_meaning.specs.Parts.{some_argument, some_part};
ghost use Rattle.way_places.specs.Seeking.{or_else};
ghost use Rattle.way_match.specs.Given.{constant_beside, constant_compared, first_constant, has_names, is_equality, is_object, node_names, operands};

use c_core::{BinOp, Expr, Node};

pub fn is_equality(op: BinOp) -> bool
    ensures { result ≡ is_equality op }
{
    match op {
        BinOp::Eq => true,
        _ => false,
    }
}

fn is_object(object: u32, e: &Expr) -> bool
    ensures { result ≡ is_object object (expr_view e.now) }
{
    match &e.node {
        Node::Var(other) => *other == object,
        _ => false,
    }
}

#[cycle(names)]
fn has_names(e: &Expr) -> bool
    ensures { result ≡ has_names (expr_view e.now) }
{
    part_has_names(&e.node)
}

#[cycle(names)]
fn part_has_names(node: &Node) -> bool
    ensures { result ≡ node_names (node_view node.now) || some_part node_names (node_view node.now) }
{
    match node {
        Node::Const(_) => false,
        Node::Var(_) => true,
        Node::Index { .. } => true,
        Node::Unary { of, .. } => has_names(of),
        Node::Cast(of) => has_names(of),
        Node::Step { target, .. } => has_names(target),
        Node::Binary { left, right, .. } => has_names(left) || has_names(right),
        Node::Logic { left, right, .. } => has_names(left) || has_names(right),
        Node::Choose { test, yes, no, .. } => has_names(test) || (has_names(yes) || has_names(no)),
        Node::Comma { first, last } => has_names(first) || has_names(last),
        Node::Assign { target, from, .. } => has_names(target) || has_names(from),
        Node::Call { args, .. } => some_has_names(args.as_slice()),
    }
}

#[cycle(names)]
fn some_has_names(es: &[Expr]) -> bool
    ensures { result ≡ some_argument node_names (exprs_view es.now) }
{
    for e in es {
        if has_names(e) {
            return true;
        }
    }
    false
}

fn constant_beside<'a>(object: u32, left: &'a Expr, right: &'a Expr) -> Option<&'a Expr>
    ensures { expr_view_if (option_copied result) ≡ constant_beside object (expr_view left.now) (expr_view right.now) }
{
    if is_object(object, left) && !has_names(right) {
        return Some(right);
    }
    if is_object(object, right) && !has_names(left) {
        return Some(left);
    }
    None
}

fn constant_compared<'a>(object: u32, e: &'a Expr) -> Option<&'a Expr>
    ensures { expr_view_if (option_copied result) ≡ constant_compared object (expr_view e.now) }
{
    match &e.node {
        Node::Binary { op, left, right } => {
            if is_equality(*op) {
                constant_beside(object, left, right)
            } else {
                None
            }
        }
        _ => None,
    }
}

fn earlier<'a>(first: Option<&'a Expr>, second: Option<&'a Expr>) -> Option<&'a Expr>
    ensures { expr_view_if (option_copied result) ≡ or_else (expr_view_if (option_copied first.entry))
        (expr_view_if (option_copied second.entry)) }
{
    match first {
        Some(found) => Some(found),
        None => second,
    }
}

/// The constant of the first operand that compares the object with one.
#[tactic(auto, using(crate::proofs::GatherLaws::first_alone))]
pub fn first_constant<'a>(object: u32, e: &'a Expr) -> Option<&'a Expr>
    ensures { expr_view_if (option_copied result) ≡ first_constant object (operands (expr_view e.now)) }
{
    match &e.node {
        Node::Logic { both, left, right } => {
            if *both {
                let first = first_constant(object, left);
                let second = first_constant(object, right);
                earlier(first, second)
            } else {
                None
            }
        }
        _ => constant_compared(object, e),
    }
}
