// What bits conjoin, and what follows from it.
ghost use Rattle.std.specs.Prelude.{◌≡◌, ◌&&◌, IfOk, IfSome, IsTrue, List};
ghost use Rattle.circuits.specs.declared.net.NetNode.{NetNode};
ghost use Rattle.circuits.specs.Net.{holds, IsIn, IsNet};
ghost use Rattle.circuits.specs.Facts.{Condition, AllFollow, AreArms, AreParted, IsAnswer, IsBoth, IsConjoined};
ghost use Rattle.circuits.specs.Facts.{IsDisjunction, IsEither, IsLeftOut, IsNowhere};

use crate::hints::Hints;
use crate::{Bit, NetNode, not};
use std::alloc::Global;
use wv_base::OutOfMemory;

/// Two bits.
#[derive(Clone, Copy)]
pub struct Pair {
    pub left: Bit,
    pub right: Bit,
}

// so many bits are taken apart
const MOST_KNOWN: usize = 128;

/// What is conjoined in a bit that isn't negated.
pub fn arguments(nodes: &[NetNode], bit: Bit) -> Option<Pair>
    requires { IsNet nodes.now }
    ensures { IfSome result (λ p. IsBoth nodes.now bit p.left p.right) }
{
    if bit.negated {
        return None;
    }
    match nodes.get(bit.node as usize) {
        Some(NetNode::And(left, right)) => Some(Pair {
            left: *left,
            right: *right,
        }),
        _ => None,
    }
}

// whether nothing is learned of what is conjoined in a bit of this node: it tells something of words, and that doesn't
// (where runs are may be what a test of words comes to)
fn is_whole(nodes: &[NetNode], hints: &Hints, node: u32) -> bool
    requires { IsNet nodes.now }
{
    if !hints.is_test(node) {
        return false;
    }
    let plain = Bit {
        node,
        negated: false,
    };
    match arguments(nodes, plain) {
        Some(pair) => !hints.is_test(pair.left.node) && !hints.is_test(pair.right.node),
        None => true,
    }
}

/// Bits, and what is conjoined in those from a place on, the nearest first; what tells something of words stays whole.
pub fn taken_apart(
    nodes: &[NetNode],
    hints: &Hints,
    known: Vec<Bit>,
    from: usize,
) -> Result<Vec<Bit>, OutOfMemory>
    requires { IsNet nodes.now }
    ensures { IfOk result (λ r. (here : Condition) → AllFollow nodes.now here known.items
        → AllFollow nodes.now here r.items) }
{
    let mut all = known;
    for step in 0..MOST_KNOWN {
        let at = from.saturating_add(step);
        if at >= all.len() {
            break;
        }
        let whole = all[at];
        if is_whole(nodes, hints, whole.node) {
            continue;
        }
        if let Some(pair) = arguments(nodes, whole) {
            all.push(pair.left)?;
            all.push(pair.right)?;
        }
    }
    Ok(all)
}

/// The value that a bit has by being one of these, or the opposite of one.
pub fn value_among(known: &[Bit], bit: Bit) -> Option<bool>
    ensures { IfSome result (λ r. (net : List NetNode) (here : Condition) → AllFollow net here known.now
        → IsAnswer net here bit r) }
{
    for other in known {
        if other.node == bit.node {
            return Some(other.negated == bit.negated);
        }
    }
    None
}

// the value of a conjunction, from what is known of the values of both
fn conjoined(left: Option<bool>, right: Option<bool>) -> Option<bool>
    ensures { IfSome result (λ r. IsConjoined left right r) }
{
    match (left, right) {
        (Some(false), _) => Some(false),
        (_, Some(false)) => Some(false),
        (Some(true), Some(true)) => Some(true),
        _ => None,
    }
}

/// The value that a bit has by what is conjoined in it, or in its opposite.
pub fn value_by_parts(nodes: &[NetNode], known: &[Bit], depth: u32, bit: Bit) -> Option<bool>
    requires { IsNet nodes.now }
    ensures { IfSome result (λ r. (here : Condition) → AllFollow nodes.now here known.now
        → IsAnswer nodes.now here bit r) }
{
    if let Some(value) = value_among(known, bit) {
        return Some(value);
    }
    if depth == 0 {
        return None;
    }
    let plain = Bit {
        node: bit.node,
        negated: false,
    };
    let pair = arguments(nodes, plain)?;
    let left = value_by_parts(nodes, known, depth - 1, pair.left);
    let right = value_by_parts(nodes, known, depth - 1, pair.right);
    let value = conjoined(left, right)?;
    Some(value != bit.negated)
}

// what is false where a bit is true and others are known: the other part, where a bit is the opposite of a conjunction
fn left_out(nodes: &[NetNode], known: &[Bit], bit: Bit) -> Option<Bit>
    requires { IsNet nodes.now }
    ensures { IfSome result (λ r. IsLeftOut nodes.now known.now bit r) }
{
    if !bit.negated {
        return None;
    }
    let pair = arguments(nodes, not(bit))?;
    if let Some(true) = value_among(known, pair.left) {
        return Some(not(pair.right));
    }
    if let Some(true) = value_among(known, pair.right) {
        return Some(not(pair.left));
    }
    None
}

/// What is known where a bit is true besides.
pub fn assumed(
    alloc: Global,
    nodes: &[NetNode],
    hints: &Hints,
    known: &[Bit],
    bit: Bit,
) -> Result<Vec<Bit>, OutOfMemory>
    requires net { IsNet nodes.now }
    requires bit_in { IsIn nodes.now bit }
    ensures { IfOk result (λ r. (here : Condition) → AllFollow nodes.now here known.now
        → AllFollow nodes.now (λ v. here v && holds v nodes.now bit) r.items) }
{
    let mut all = known.to_vec(alloc)?;
    let from = all.len();
    all.push(bit)?;
    if let Some(other) = left_out(nodes, known, bit) {
        all.push(other)?;
    }
    taken_apart(nodes, hints, all, from)
}

/// Whether bits can't all be true: one from a place on is the opposite of one before.
pub fn is_contradictory(known: &[Bit], from: usize) -> bool
    ensures { IsTrue result → (net : List NetNode) (here : Condition) → AllFollow net here known.now
        → IsNowhere here }
{
    for at in from..known.len() {
        if let Some(false) = value_among(known, known[at]) {
            return true;
        }
    }
    false
}

// the opposites of what is conjoined in the opposite of a bit, where it isn't known which one is true
fn arms_of(nodes: &[NetNode], known: &[Bit], bit: Bit) -> Option<Pair>
    requires { IsNet nodes.now }
    ensures { IfSome result (λ p. IsDisjunction nodes.now bit p.left p.right) }
{
    if !bit.negated {
        return None;
    }
    let pair = arguments(nodes, not(bit))?;
    let arms = Pair {
        left: not(pair.left),
        right: not(pair.right),
    };
    match (
        value_among(known, arms.left),
        value_among(known, arms.right),
    ) {
        (Some(true), _) | (_, Some(true)) => None,
        _ => Some(arms),
    }
}

/// Two bits of which one at least is true where those are known: what is disjoined in the first of these that is a
/// disjunction and tells nothing of words.
pub fn arms(nodes: &[NetNode], hints: &Hints, known: &[Bit]) -> Option<Pair>
    requires { IsNet nodes.now }
    ensures { IfSome result (λ p. AreArms nodes.now known.now p.left p.right) }
{
    for bit in known {
        if !hints.is_test(bit.node) {
            if let Some(arms) = arms_of(nodes, known, *bit) {
                return Some(arms);
            }
        }
    }
    None
}

// the bit that is the first of two pairs, whose others are opposite
fn common(x: Pair, y: Pair) -> Option<Bit>
    ensures { IfSome result (λ r. AreParted x.left x.right y.left y.right r) }
{
    if x.left == y.left && x.right == not(y.right) {
        Some(x.left)
    } else {
        None
    }
}

fn swapped(pair: Pair) -> Pair
    ensures left { result.left ≡ pair.right }
    ensures right { result.right ≡ pair.left }
{
    Pair {
        left: pair.right,
        right: pair.left,
    }
}

/// The bit that a test alone parts in two: it is true where either is.
pub fn parted(nodes: &[NetNode], a: Bit, b: Bit) -> Option<Bit>
    requires { IsNet nodes.now }
    ensures { IfSome result (λ r. IsEither nodes.now a b r) }
{
    let x = arguments(nodes, a)?;
    let y = arguments(nodes, b)?;
    if let Some(whole) = common(x, y) {
        return Some(whole);
    }
    if let Some(whole) = common(x, swapped(y)) {
        return Some(whole);
    }
    if let Some(whole) = common(swapped(x), y) {
        return Some(whole);
    }
    common(swapped(x), swapped(y))
}
