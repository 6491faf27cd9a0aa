// Equalities that known orders give: of two numbers that neither is less, and of one between neighbours.
ghost use Rattle.std.specs.Prelude.{◌≡◌, ◌≤◌, ◌<◌, ◌^◌, IfOk, IfSome, IsTrue, OnOk, List, length, true, false};
ghost use Rattle.std.specs.List.{All};
ghost use Rattle.circuits.specs.declared.net.Bit.{Bit};
ghost use Rattle.circuits.specs.declared.net.NetNode.{NetNode};
ghost use Rattle.circuits.specs.Net.{IsNet};
ghost use Rattle.circuits.specs.Words.{AreTrue, bits_of};
ghost use Rattle.circuits.specs.Facts.{AllFollow, Condition, IsAnswer};
ghost use Rattle.circuits.specs.Inequalities.{AreEqualities, AreKnown, Follows, IsDifference, IsKnown, IsMoreBy};

use crate::hints::Hints;
use crate::truths::specialised;
use crate::{Bit, NetNode};
use polynomials::{Polynomial, masked};
use std::alloc::Global;
use wv_base::OutOfMemory;

/// Whether one polynomial is less than another, both modulo 2^width.
#[derive(Drop)]
pub struct Known {
    pub width: u32,
    pub lesser: Polynomial,
    pub greater: Polynomial,
    pub is_less: bool,
}

/// A polynomial that is 0 modulo 2^width.
#[derive(Drop)]
pub struct Equality {
    pub width: u32,
    pub polynomial: Polynomial,
}

// so many orders are held against each other
const MOST_KNOWN: usize = 16;

// so many equalities are given
const MOST_EQUALITIES: usize = 8;

/// p - q, where the limit on terms allows it.
pub fn difference(
    alloc: Global,
    width: u32,
    p: &Polynomial,
    q: &Polynomial,
) -> Result<Option<Polynomial>, OutOfMemory>
    requires { width ≤ 64 }
    ensures { IfOk result (λ r. IfSome r (λ d. IsDifference width p.now q.now d)) }
{
    let mut rest = p.copy(alloc)?;
    if !rest.add_multiple(width, u64::MAX, [0; 6], q)? {
        return Ok(None);
    }
    Ok(Some(rest))
}

// whether polynomials may differ by a number alone: all but their last terms begin alike
fn may_differ_by_a_number(p: &Polynomial, q: &Polynomial) -> bool {
    match (p.terms().first(), q.terms().first()) {
        (Some(x), Some(y)) => {
            let is_one_a_number = p.terms().len() == 1 || q.terms().len() == 1;
            p.terms().len().abs_diff(q.terms().len()) <= 1
                && (is_one_a_number || x.factors == y.factors)
        }
        _ => true,
    }
}

/// What p is found to be more than q: a number modulo 2^width.
pub fn offset(
    alloc: Global,
    width: u32,
    p: &Polynomial,
    q: &Polynomial,
) -> Result<Option<u64>, OutOfMemory>
    requires { width ≤ 64 }
    ensures small { IfOk result (λ r. IfSome r (λ by. by < 2 ^ width)) }
    ensures more { IfOk result (λ r. IfSome r (λ by. IsMoreBy width by p.now q.now)) }
{
    if !may_differ_by_a_number(p, q) {
        return Ok(None);
    }
    let Some(rest) = difference(alloc, width, p, q)? else {
        return Ok(None);
    };
    match rest.as_constant() {
        Some(constant) => Ok(Some(masked(width, constant))),
        None => Ok(None),
    }
}

/// Whether p is found to be q + by.
pub fn is_more_by(
    alloc: Global,
    width: u32,
    by: u64,
    p: &Polynomial,
    q: &Polynomial,
) -> Result<bool, OutOfMemory>
    requires { width ≤ 64 }
    ensures { IfOk result (λ r. IsTrue r → IsMoreBy width by p.now q.now) }
{
    match offset(alloc, width, p, q)? {
        Some(found) => Ok(found == by),
        None => Ok(false),
    }
}

// a - b, where a isn't less than b, nor b less than a
fn neither_less(alloc: Global, x: &Known, y: &Known) -> Result<Option<Polynomial>, OutOfMemory>
    requires narrow { x.now.width ≤ 64 }
    requires same { y.now.width ≡ x.now.width }
    requires first { x.now.is_less ≡ false }
    requires second { y.now.is_less ≡ false }
    ensures { IfOk result (λ r. IfSome r (λ p. Follows x.now y.now p)) }
{
    let width = x.width;
    if !is_more_by(alloc, width, 0, &x.lesser, &y.greater)? {
        return Ok(None);
    }
    if !is_more_by(alloc, width, 0, &y.lesser, &x.greater)? {
        return Ok(None);
    }
    difference(alloc, width, &x.lesser, &x.greater)
}

// b - c, where a is less than b, and c, which is a + 1, isn't less than b
fn not_above_next(alloc: Global, x: &Known, y: &Known) -> Result<Option<Polynomial>, OutOfMemory>
    requires narrow { x.now.width ≤ 64 }
    requires same { y.now.width ≡ x.now.width }
    requires first { x.now.is_less ≡ true }
    requires second { y.now.is_less ≡ false }
    ensures { IfOk result (λ r. IfSome r (λ p. Follows x.now y.now p)) }
{
    let width = x.width;
    if !is_more_by(alloc, width, 0, &x.greater, &y.greater)? {
        return Ok(None);
    }
    if !is_more_by(alloc, width, 1, &y.lesser, &x.lesser)? {
        return Ok(None);
    }
    difference(alloc, width, &x.greater, &y.lesser)
}

// a - c, where a is less than b, which is c + 1, and a isn't less than c
fn not_below_last(alloc: Global, x: &Known, y: &Known) -> Result<Option<Polynomial>, OutOfMemory>
    requires narrow { x.now.width ≤ 64 }
    requires same { y.now.width ≡ x.now.width }
    requires first { x.now.is_less ≡ true }
    requires second { y.now.is_less ≡ false }
    ensures { IfOk result (λ r. IfSome r (λ p. Follows x.now y.now p)) }
{
    let width = x.width;
    if !is_more_by(alloc, width, 0, &y.lesser, &x.lesser)? {
        return Ok(None);
    }
    if !is_more_by(alloc, width, 1, &x.greater, &y.greater)? {
        return Ok(None);
    }
    difference(alloc, width, &x.lesser, &y.greater)
}

// the equality of a number that lies between neighbours
fn between(alloc: Global, x: &Known, y: &Known) -> Result<Option<Polynomial>, OutOfMemory>
    requires narrow { x.now.width ≤ 64 }
    requires same { y.now.width ≡ x.now.width }
    requires first { x.now.is_less ≡ true }
    requires second { y.now.is_less ≡ false }
    ensures { IfOk result (λ r. IfSome r (λ p. Follows x.now y.now p)) }
{
    if let Some(equality) = not_above_next(alloc, x, y)? {
        return Ok(Some(equality));
    }
    not_below_last(alloc, x, y)
}

// the equality that two orders give
fn equality_of(alloc: Global, x: &Known, y: &Known) -> Result<Option<Polynomial>, OutOfMemory>
    requires narrow { x.now.width ≤ 64 }
    requires same { y.now.width ≡ x.now.width }
    ensures { IfOk result (λ r. IfSome r (λ p. Follows x.now y.now p)) }
{
    match (x.is_less, y.is_less) {
        (false, false) => neither_less(alloc, x, y),
        (true, false) => between(alloc, x, y),
        (false, true) => between(alloc, y, x),
        (true, true) => Ok(None),
    }
}

// the order that a bit which is true tells, or whose opposite it is, as these bits make it
fn known_order(
    nodes: &[NetNode],
    hints: &Hints,
    known: &[Bit],
    bit: Bit,
) -> Result<Option<Known>, OutOfMemory>
    requires net { IsNet nodes.now }
    requires hints { AreTrue nodes.now hints.now }
    ensures narrow { IfOk result (λ r. IfSome r (λ k. k.width ≤ 64)) }
    ensures known { IfOk result (λ r. IfSome r (λ k. (here : Condition) → AllFollow nodes.now here known.now
        → IsAnswer nodes.now here bit true → IsKnown nodes.now (bits_of hints.now.words.list.items) here k)) }
{
    let Some(at) = hints.orders.of_node(bit.node) else {
        return Ok(None);
    };
    let order = &hints.orders.list[at];
    let width = order.width;
    if width > 64 || order.bit.node != bit.node {
        return Ok(None);
    }
    let lesser = specialised(nodes, hints, known, width, &order.lesser)?;
    let greater = specialised(nodes, hints, known, width, &order.greater)?;
    Ok(Some(Known {
        width,
        lesser,
        greater,
        is_less: bit.negated == order.bit.negated,
    }))
}

/// The orders among these bits and their opposites.
pub fn known_orders(
    nodes: &[NetNode],
    hints: &Hints,
    known: &[Bit],
) -> Result<Vec<Known>, OutOfMemory>
    requires net { IsNet nodes.now }
    requires hints { AreTrue nodes.now hints.now }
    ensures narrow { IfOk result (λ r. All (λ k. k.width ≤ 64) r.items) }
    ensures known { IfOk result (λ r. (here : Condition) → AllFollow nodes.now here known.now
        → AreKnown nodes.now (bits_of hints.now.words.list.items) here r.items) }
{
    let mut found = Vec::new(hints.alloc);
    for bit in known {
        if found.len() < MOST_KNOWN {
            if let Some(order) = known_order(nodes, hints, known, *bit)? {
                found.push(order)?;
            }
        }
    }
    Ok(found)
}

// the equalities that an order gives with later ones
fn add_equalities(
    alloc: Global,
    known: &[Known],
    at: usize,
    found: &mut Vec<Equality>,
) -> Result<(), OutOfMemory>
    requires inside { at < length known.now }
    requires narrow { All (λ k. k.width ≤ 64) known.now }
    ensures { OnOk result ((net : List NetNode) (words : List (List Bit)) (here : Condition)
        → AreKnown net words here known.now → AreEqualities net words here found.old.items
        → AreEqualities net words here found.new.items) }
{
    let one = &known[at];
    for later in at + 1..known.len() {
        let other = &known[later];
        if other.width == one.width && found.len() < MOST_EQUALITIES {
            if let Some(polynomial) = equality_of(alloc, one, other)? {
                let width = one.width;
                found.push(Equality { width, polynomial })?;
            }
        }
    }
    Ok(())
}

/// The equalities that orders give wherever they are known. Where a limit stands in the way there are fewer.
pub fn equalities(alloc: Global, known: &[Known]) -> Result<Vec<Equality>, OutOfMemory>
    requires { All (λ k. k.width ≤ 64) known.now }
    ensures { IfOk result (λ r. (net : List NetNode) (words : List (List Bit)) (here : Condition)
        → AreKnown net words here known.now → AreEqualities net words here r.items) }
{
    let mut found = Vec::new(alloc);
    for at in 0..known.len() {
        add_equalities(alloc, known, at, &mut found)?;
    }
    Ok(found)
}
