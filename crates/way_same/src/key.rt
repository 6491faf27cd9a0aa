// Numbers of trees: equal trees have equal numbers, and different trees mostly have different ones.
use c_core::{BinOp, Expr, Node, UnOp};

fn mix(before: u64, number: u64) -> u64 {
    let mixed = (before ^ number).wrapping_mul(0x9E37_79B9_7F4A_7C15);
    mixed ^ (mixed >> 29)
}

fn mix_value(before: u64, value: i128) -> u64 {
    let size = value.unsigned_abs() % 0xFFFF_FFFF_FFFF_FFC5;
    mix(before, size as u64)
}

fn mix_unary(before: u64, op: UnOp) -> u64 {
    mix(before, 20 + op as u64)
}

fn mix_binary(before: u64, op: BinOp) -> u64 {
    mix(before, op as u64)
}

/// The number of a tree, mixed with one before it.
#[cycle(key)]
pub fn key_of(before: u64, e: &Expr) -> u64 {
    key_of_node(mix(before, e.spot.column as u64), &e.node)
}

#[cycle(key)]
fn key_of_node(before: u64, node: &Node) -> u64 {
    match node {
        Node::Const(value) => mix_value(before, *value),
        Node::Var(object) => mix(before, *object as u64),
        Node::Index { object, at } => key_of_all(mix(before, *object as u64), at.as_slice()),
        Node::Unary { op, of } => key_of(mix_unary(before, *op), of),
        Node::Cast(of) => key_of(before, of),
        Node::Binary { op, left, right } => key_of(key_of(mix_binary(before, *op), left), right),
        Node::Logic { both, left, right } => {
            key_of(key_of(mix(before, *both as u64), left), right)
        }
        Node::Choose { test, yes, no, .. } => key_of(key_of(key_of(before, test), yes), no),
        Node::Comma { first, last } => key_of(key_of(before, first), last),
        Node::Step { .. } => before,
        Node::Assign { .. } => before,
        Node::Call { .. } => before,
    }
}

#[cycle(key)]
fn key_of_all(before: u64, es: &[Expr]) -> u64 {
    let mut key = before;
    for e in es {
        key = key_of(key, e);
    }
    key
}
