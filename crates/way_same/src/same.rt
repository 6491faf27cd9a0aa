// Trees that are the same.
ghost use Rattle.std.specs.Prelude.{◌≡◌, true};
ghost use Rattle.c_core.specs.View.{expr_view, exprs_view, node_view};

use c_core::{BinOp, Expr, IntType, Node, Spot, UnOp};

fn same_spot(a: Spot, b: Spot) -> bool
    ensures { result ≡ true → a ≡ b }
{
    a == b
}

fn same_type(a: Option<IntType>, b: Option<IntType>) -> bool
    ensures { result ≡ true → a ≡ b }
{
    a == b
}

fn same_unary(a: UnOp, b: UnOp) -> bool
    ensures { result ≡ true → a ≡ b }
{
    a == b
}

fn same_binary(a: BinOp, b: BinOp) -> bool
    ensures { result ≡ true → a ≡ b }
{
    a == b
}

/// Whether two trees are the same. Trees with steps, assignments and calls, which no constraint has, count as different.
#[cycle(same)]
pub fn is_same(a: &Expr, b: &Expr) -> bool
    ensures { result ≡ true → expr_view a.now ≡ expr_view b.now }
{
    same_spot(a.spot, b.spot) && same_type(a.ty, b.ty) && same_node(&a.node, &b.node)
}

#[cycle(same)]
fn same_node(a: &Node, b: &Node) -> bool
    ensures { result ≡ true → node_view a.now ≡ node_view b.now }
{
    match (a, b) {
        (Node::Const(x), Node::Const(y)) => *x == *y,
        (Node::Var(x), Node::Var(y)) => *x == *y,
        (
            Node::Index { object, at },
            Node::Index {
                object: other,
                at: there,
            },
        ) => *object == *other && same_exprs(at.as_slice(), there.as_slice()),
        (
            Node::Unary { op, of },
            Node::Unary {
                op: other,
                of: there,
            },
        ) => same_unary(*op, *other) && is_same(of, there),
        (Node::Cast(of), Node::Cast(there)) => is_same(of, there),
        (
            Node::Binary { op, left, right },
            Node::Binary {
                op: other,
                left: first,
                right: second,
            },
        ) => same_binary(*op, *other) && is_same(left, first) && is_same(right, second),
        (
            Node::Logic { both, left, right },
            Node::Logic {
                both: other,
                left: first,
                right: second,
            },
        ) => *both == *other && is_same(left, first) && is_same(right, second),
        (
            Node::Choose {
                mark,
                test,
                yes,
                no,
            },
            Node::Choose {
                mark: other,
                test: there,
                yes: first,
                no: second,
            },
        ) => {
            same_spot(*mark, *other)
                && is_same(test, there)
                && is_same(yes, first)
                && is_same(no, second)
        }
        (
            Node::Comma { first, last },
            Node::Comma {
                first: other,
                last: there,
            },
        ) => is_same(first, other) && is_same(last, there),
        _ => false,
    }
}

#[cycle(same)]
fn same_exprs(a: &[Expr], b: &[Expr]) -> bool
    ensures { result ≡ true → exprs_view a.now ≡ exprs_view b.now }
{
    if a.len() != b.len() {
        return false;
    }
    for (i, e) in a.iter().enumerate() {
        if !is_same(e, &b[i]) {
            return false;
        }
    }
    true
}
