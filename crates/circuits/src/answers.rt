// The values of bits wherever others are true.
ghost use Rattle.std.specs.Prelude.{◌≡◌, List, ◌≤◌, ◌<◌, ◌&&◌, IfOk, IfSome, IsTrue, false, length};
ghost use Rattle.circuits.specs.Net.{holds, IsIn, IsNet, Means};
ghost use Rattle.circuits.specs.Words.{AreTrue, bits_of};
ghost use Rattle.circuits.specs.declared.net.NetNode.{NetNode};
ghost use Rattle.circuits.specs.Facts.{Condition, IsAlike, IsAnswer, IsBoth, IsConjunction, IsRest, IsZeroWhere};
ghost use Rattle.circuits.specs.Inequalities.{IsGiven, IsOtherDifference, IsSameOrder, IsValueWhere};
ghost use Rattle.circuits.specs.Arms.{IsArm, IsOfArms};

use crate::bounds::{Comparison, value_by};
use crate::facts::facts_for;
use crate::given::{Given, given_at, given_with};
use crate::hints::Hints;
use crate::inequalities::{Known, difference, is_more_by};
use crate::parts::{arguments, arms, is_contradictory, value_among};
use crate::truths::{highest_truth, specialised};
use crate::{Bit, NetNode, not};
use polynomials::{Polynomial, masked, reduce};
use std::alloc::Global;
use wv_base::OutOfMemory;

/// What is known of a bit in one arm of a disjunction: no run is there, or it has this value, or nothing.
#[derive(Clone, Copy, PartialEq, Eq)]
pub enum Arm {
    Never,
    Constant(bool),
    Open,
}

// conjunctions are looked into so deep
const DEPTH: u32 = 4;

// so often a question is asked in both cases of a bit
const SPLITS: u32 = 3;

// what is left of a polynomial wherever what is given holds, where there is something to learn by
fn reduced(
    nodes: &[NetNode],
    hints: &Hints,
    given: &Given,
    width: u32,
    question: &Polynomial,
    questions: &mut u32,
) -> Result<Option<Polynomial>, OutOfMemory>
    requires net { IsNet nodes.now }
    requires hints { AreTrue nodes.now hints.now }
    requires narrow { width ≤ 64 }
    ensures { IfOk result (λ r. IfSome r (λ rest. (here : Condition)
        → IsGiven nodes.now (bits_of hints.now.words.list.items) here given.now
        → IsRest nodes.now (bits_of hints.now.words.list.items) here width question.now rest)) }
{
    let facts = facts_for(nodes, hints, given, width, question)?;
    if *questions == 0 || (facts.is_empty() && highest_truth(question) == 0) {
        return Ok(None);
    }
    *questions -= 1;
    let rest = reduce(hints.alloc, width, question.copy(hints.alloc)?, facts)?;
    Ok(Some(rest))
}

// whether a polynomial is 0 modulo 2^width wherever what is given holds: by the facts, or in both cases of a bit
fn is_zero(
    nodes: &[NetNode],
    hints: &Hints,
    given: &Given,
    splits: u32,
    width: u32,
    question: &Polynomial,
    questions: &mut u32,
) -> Result<Option<bool>, OutOfMemory>
    requires net { IsNet nodes.now }
    requires hints { AreTrue nodes.now hints.now }
    requires narrow { width ≤ 64 }
    ensures { IfOk result (λ r. IfSome r (λ is. (here : Condition)
        → IsGiven nodes.now (bits_of hints.now.words.list.items) here given.now
        → IsZeroWhere nodes.now (bits_of hints.now.words.list.items) here width question.now is)) }
{
    let Some(rest) = reduced(nodes, hints, given, width, question, questions)? else {
        return Ok(None);
    };
    if let Some(constant) = rest.as_constant() {
        return Ok(Some(masked(width, constant) == 0));
    }
    if splits == 0 {
        return Ok(None);
    }
    let Some(bit) = hints.words.digit(highest_truth(&rest)) else {
        return Ok(None);
    };
    let with = given_with(nodes, hints, given, bit)?;
    let Some(first) = is_zero(nodes, hints, &with, splits - 1, width, question, questions)? else {
        return Ok(None);
    };
    let without = given_with(nodes, hints, given, not(bit))?;
    match is_zero(
        nodes,
        hints,
        &without,
        splits - 1,
        width,
        question,
        questions,
    )? {
        Some(second) if second == first => Ok(Some(first)),
        _ => Ok(None),
    }
}

// the value of a bit that tells where words are equal
fn value_of_test(
    nodes: &[NetNode],
    hints: &Hints,
    given: &Given,
    at: usize,
    bit: Bit,
    questions: &mut u32,
) -> Result<Option<bool>, OutOfMemory>
    requires net { IsNet nodes.now }
    requires hints { AreTrue nodes.now hints.now }
    requires inside { at < length hints.now.zeros.list.items }
    ensures { IfOk result (λ r. IfSome r (λ value. (here : Condition)
        → IsGiven nodes.now (bits_of hints.now.words.list.items) here given.now
        → IsAnswer nodes.now here bit value)) }
{
    let zero = &hints.zeros.list[at];
    if zero.width > 64 || zero.bit.node != bit.node {
        return Ok(None);
    }
    let is = is_zero(
        nodes,
        hints,
        given,
        SPLITS,
        zero.width,
        &zero.polynomial,
        questions,
    )?;
    match is {
        Some(is) => Ok(Some(is == (zero.bit.negated == bit.negated))),
        None => Ok(None),
    }
}

// p - q, where a comparison and a known order have one number in common and the others are p and q
fn other_difference(
    alloc: Global,
    asked: &Comparison,
    known: &Known,
) -> Result<Option<Polynomial>, OutOfMemory>
    requires narrow { asked.now.width ≤ 64 }
    requires same { known.now.width ≡ asked.now.width }
    ensures { IfOk result (λ r. IfSome r (λ d. IsOtherDifference asked.now.width asked.now.lesser asked.now.greater
        known.now.lesser known.now.greater d)) }
{
    if is_more_by(alloc, asked.width, 0, &asked.lesser, &known.lesser)? {
        return difference(alloc, asked.width, &asked.greater, &known.greater);
    }
    if is_more_by(alloc, asked.width, 0, &asked.greater, &known.greater)? {
        return difference(alloc, asked.width, &asked.lesser, &known.lesser);
    }
    Ok(None)
}

// whether a polynomial is a number other than 0: then no fact makes it 0, but where no run is
fn is_other_number(width: u32, polynomial: &Polynomial) -> bool
    requires { width ≤ 64 }
{
    match polynomial.as_constant() {
        Some(constant) => masked(width, constant) != 0,
        None => false,
    }
}

// whether a comparison is a known order of equal numbers
fn is_same_order(
    nodes: &[NetNode],
    hints: &Hints,
    given: &Given,
    asked: &Comparison,
    other: &Known,
    questions: &mut u32,
) -> Result<bool, OutOfMemory>
    requires net { IsNet nodes.now }
    requires hints { AreTrue nodes.now hints.now }
    requires narrow { asked.now.width ≤ 64 }
    ensures wide { IfOk result (λ r. IsTrue r → other.now.width ≡ asked.now.width) }
    ensures same { IfOk result (λ r. IsTrue r → (here : Condition)
        → IsGiven nodes.now (bits_of hints.now.words.list.items) here given.now
        → IsSameOrder nodes.now (bits_of hints.now.words.list.items) here asked.now.width asked.now.lesser
        asked.now.greater other.now.lesser other.now.greater) }
{
    if other.width != asked.width {
        return Ok(false);
    }
    let Some(rest) = other_difference(hints.alloc, asked, other)? else {
        return Ok(false);
    };
    if is_other_number(asked.width, &rest) {
        return Ok(false);
    }
    match is_zero(nodes, hints, given, 0, asked.width, &rest, questions)? {
        Some(is) => Ok(is),
        None => Ok(false),
    }
}

// the value of a comparison by known orders: by the constants in them, or of equal numbers
fn value_of_comparison(
    nodes: &[NetNode],
    hints: &Hints,
    given: &Given,
    asked: &Comparison,
    questions: &mut u32,
) -> Result<Option<bool>, OutOfMemory>
    requires net { IsNet nodes.now }
    requires hints { AreTrue nodes.now hints.now }
    requires narrow { asked.now.width ≤ 64 }
    ensures { IfOk result (λ r. IfSome r (λ is. (here : Condition)
        → IsGiven nodes.now (bits_of hints.now.words.list.items) here given.now
        → IsValueWhere nodes.now (bits_of hints.now.words.list.items) here asked.now.width asked.now.lesser
        asked.now.greater is)) }
{
    if let Some(is) = value_by(hints.alloc, &given.orders, asked)? {
        return Ok(Some(is));
    }
    for at in 0..given.orders.len() {
        let other = &given.orders[at];
        if is_same_order(nodes, hints, given, asked, other, questions)? {
            return Ok(Some(other.is_less));
        }
    }
    Ok(None)
}

// the value of a bit that tells which of two numbers is less
fn value_of_order(
    nodes: &[NetNode],
    hints: &Hints,
    given: &Given,
    at: usize,
    bit: Bit,
    questions: &mut u32,
) -> Result<Option<bool>, OutOfMemory>
    requires net { IsNet nodes.now }
    requires hints { AreTrue nodes.now hints.now }
    requires inside { at < length hints.now.orders.list.items }
    ensures { IfOk result (λ r. IfSome r (λ value. (here : Condition)
        → IsGiven nodes.now (bits_of hints.now.words.list.items) here given.now
        → IsAnswer nodes.now here bit value)) }
{
    let order = &hints.orders.list[at];
    let width = order.width;
    if width > 64 || order.bit.node != bit.node {
        return Ok(None);
    }
    let asked = Comparison {
        width,
        lesser: specialised(nodes, hints, &given.bits, width, &order.lesser)?,
        greater: specialised(nodes, hints, &given.bits, width, &order.greater)?,
    };
    match value_of_comparison(nodes, hints, given, &asked, questions)? {
        Some(is) => Ok(Some(is == (order.bit.negated == bit.negated))),
        None => Ok(None),
    }
}

// the value of a bit that tells something of words
fn value_of_whole(
    nodes: &[NetNode],
    hints: &Hints,
    given: &Given,
    bit: Bit,
    questions: &mut u32,
) -> Result<Option<bool>, OutOfMemory>
    requires net { IsNet nodes.now }
    requires hints { AreTrue nodes.now hints.now }
    ensures { IfOk result (λ r. IfSome r (λ value. (here : Condition)
        → IsGiven nodes.now (bits_of hints.now.words.list.items) here given.now
        → IsAnswer nodes.now here bit value)) }
{
    if let Some(at) = hints.zeros.of_node(bit.node) {
        return value_of_test(nodes, hints, given, at, bit, questions);
    }
    match hints.orders.of_node(bit.node) {
        Some(at) => value_of_order(nodes, hints, given, at, bit, questions),
        None => Ok(None),
    }
}

/// The constant of a value.
pub fn constant(value: bool) -> Bit
    ensures { (net : List NetNode) → IsNet net → Means net result (λ v. value) }
{
    Bit {
        node: 0,
        negated: !value,
    }
}

// the conjunction of two bits, where a constant among them decides it
fn decided(left: Bit, right: Bit) -> Option<Bit>
    ensures { IfSome result (λ p. (net : List NetNode) → IsNet net → IsIn net left → IsIn net right → IsConjunction net
        left right p) }
{
    if left == constant(false) || right == constant(true) {
        return Some(left);
    }
    if right == constant(false) || left == constant(true) {
        return Some(right);
    }
    None
}

/// What is left of a conjunction, or of its opposite, where its parts are as good as these.
pub fn part_of(whole: Bit, left: Bit, right: Bit) -> Bit
    ensures { (net : List NetNode) → IsNet net → (here : Condition) (l r : Bit) → IsIn net whole
        → IsBoth net (record { node = whole.node; negated = false }) l r → IsAlike net here l left
        → IsAlike net here r right → IsAlike net here whole result }
{
    let Some(part) = decided(left, right) else {
        return whole;
    };
    if whole.negated {
        return not(part);
    }
    part
}

// a bit that has the value of another wherever what is given holds: the constant or a part of it where that is known
fn part_where(
    nodes: &[NetNode],
    hints: &Hints,
    given: &Given,
    depth: u32,
    bit: Bit,
    questions: &mut u32,
) -> Result<Bit, OutOfMemory>
    requires net { IsNet nodes.now }
    requires hints { AreTrue nodes.now hints.now }
    requires bit_in { IsIn nodes.now bit }
    ensures { IfOk result (λ r. (here : Condition)
        → IsGiven nodes.now (bits_of hints.now.words.list.items) here given.now → IsAlike nodes.now here bit r) }
{
    if let Some(value) = value_among(&given.bits, bit) {
        return Ok(constant(value));
    }
    if hints.is_test(bit.node) {
        return match value_of_whole(nodes, hints, given, bit, questions)? {
            Some(value) => Ok(constant(value)),
            None => Ok(bit),
        };
    }
    let plain = Bit {
        node: bit.node,
        negated: false,
    };
    let Some(pair) = arguments(nodes, plain) else {
        return Ok(bit);
    };
    if depth == 0 {
        return Ok(bit);
    }
    let left = part_where(nodes, hints, given, depth - 1, pair.left, questions)?;
    let right = part_where(nodes, hints, given, depth - 1, pair.right, questions)?;
    Ok(part_of(bit, left, right))
}

// what is known of a bit where another is true besides
fn value_in_arm(
    nodes: &[NetNode],
    hints: &Hints,
    given: &Given,
    arm: Bit,
    bit: Bit,
    questions: &mut u32,
) -> Result<Arm, OutOfMemory>
    requires net { IsNet nodes.now }
    requires hints { AreTrue nodes.now hints.now }
    requires arm_in { IsIn nodes.now arm }
    requires bit_in { IsIn nodes.now bit }
    ensures { IfOk result (λ r. (here : Condition)
        → IsGiven nodes.now (bits_of hints.now.words.list.items) here given.now
        → IsArm nodes.now (λ v. here v && holds v nodes.now arm) bit r) }
{
    let inside = given_with(nodes, hints, given, arm)?;
    if is_contradictory(&inside.bits, given.bits.len()) {
        return Ok(Arm::Never);
    }
    let part = part_where(nodes, hints, &inside, DEPTH, bit, questions)?;
    if part.node == 0 {
        return Ok(Arm::Constant(!part.negated));
    }
    Ok(Arm::Open)
}

// the value of a bit by what is known of it in both arms
fn value_of_arms(first: Arm, second: Arm) -> Option<bool>
    ensures { IfSome result (λ value. IsOfArms first second value) }
{
    match (first, second) {
        (Arm::Never, Arm::Constant(value)) => Some(value),
        (Arm::Constant(value), Arm::Never) => Some(value),
        (Arm::Constant(one), Arm::Constant(other)) if one == other => Some(one),
        _ => None,
    }
}

// the value that a bit has where either of two bits is true, of which one is wherever what is given holds
fn value_in_arms(
    nodes: &[NetNode],
    hints: &Hints,
    given: &Given,
    bit: Bit,
    questions: &mut u32,
) -> Result<Option<bool>, OutOfMemory>
    requires net { IsNet nodes.now }
    requires hints { AreTrue nodes.now hints.now }
    requires bit_in { IsIn nodes.now bit }
    ensures { IfOk result (λ r. IfSome r (λ value. (here : Condition)
        → IsGiven nodes.now (bits_of hints.now.words.list.items) here given.now
        → IsAnswer nodes.now here bit value)) }
{
    if *questions == 0 {
        return Ok(None);
    }
    let Some(arms) = arms(nodes, hints, &given.bits) else {
        return Ok(None);
    };
    *questions -= 1;
    let first = value_in_arm(nodes, hints, given, arms.left, bit, questions)?;
    if first == Arm::Open {
        return Ok(None);
    }
    let second = value_in_arm(nodes, hints, given, arms.right, bit, questions)?;
    Ok(value_of_arms(first, second))
}

// whether something of words is asked in a bit
fn asks(nodes: &[NetNode], hints: &Hints, depth: u32, bit: Bit) -> bool
    requires { IsNet nodes.now }
{
    if hints.is_test(bit.node) {
        return true;
    }
    let plain = Bit {
        node: bit.node,
        negated: false,
    };
    match arguments(nodes, plain) {
        Some(pair) if depth != 0 => {
            asks(nodes, hints, depth - 1, pair.left) || asks(nodes, hints, depth - 1, pair.right)
        }
        _ => false,
    }
}

/// A bit that has the value of another wherever `live` is true: a constant or a part of it, where facts tell that.
/// `questions` is how often facts may still be asked for it.
pub fn simplified(
    nodes: &[NetNode],
    hints: &Hints,
    live: Bit,
    bit: Bit,
    questions: &mut u32,
) -> Result<Bit, OutOfMemory>
    requires net { IsNet nodes.now }
    requires hints { AreTrue nodes.now hints.now }
    requires live_in { IsIn nodes.now live }
    requires bit_in { IsIn nodes.now bit }
    ensures { IfOk result (λ r. IsAlike nodes.now (λ v. holds v nodes.now live) bit r) }
{
    if bit.node == 0 || (hints.zeros.list.is_empty() && hints.orders.list.is_empty()) {
        return Ok(bit);
    }
    let has_orders = *questions != 0 && asks(nodes, hints, DEPTH, bit);
    let given = given_at(nodes, hints, live, has_orders)?;
    let part = part_where(nodes, hints, &given, DEPTH, bit, questions)?;
    if part.node == 0 {
        return Ok(part);
    }
    match value_in_arms(nodes, hints, &given, bit, questions)? {
        Some(value) => Ok(constant(value)),
        None => Ok(part),
    }
}
