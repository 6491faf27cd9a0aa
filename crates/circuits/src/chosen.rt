// Words that a test chose, where the test is known: what is left of them there.
ghost use Rattle.std.specs.Prelude.{◌≡◌, ℕ, Bool, ◌||◌, IfOk, IfSome, List, true};
ghost use Rattle.circuits.specs.declared.net.NetNode.{NetNode};
ghost use Rattle.circuits.specs.Net.{holds, IsIn, IsNet};
ghost use Rattle.circuits.specs.Numbers.{AreIn};
ghost use Rattle.circuits.specs.Facts.{Condition, AllFollow, IsAlike, IsAnswer};
ghost use Rattle.circuits.specs.Chosen.{AreAlike, IsPlace};

use crate::answers::{constant, part_of};
use crate::hints::Hints;
use crate::parts::{arguments, arms, assumed, is_contradictory, taken_apart, value_by_parts};
use crate::{Bit, NetNode, not};
use std::alloc::Global;
use wv_base::OutOfMemory;

// conjunctions are taken apart so deep where a bit's value is looked for
const DEPTH: u32 = 4;

// the test of a choice stands at most so deep in a digit of it: (test and yes) or (not test and no)
const CHOICE: u32 = 2;

// the test is looked for in at most so many digits, since all have the same one
const MOST_DIGITS: usize = 2;

// choices in choices are settled so often
const MOST_CHOICES: usize = 8;

/// Bits that are known where runs are, or in either of two places where they are.
#[derive(Drop)]
pub enum Place {
    Lone(Vec<Bit>),
    Either(Vec<Bit>, Vec<Bit>),
}

// either of two places; one of them, where no run is in the other
fn either(from: usize, first: Vec<Bit>, second: Vec<Bit>) -> Place
    ensures { (net : List NetNode) (here one other : Condition)
        → ((v : ℕ → Bool) → here v ≡ true → (one v || other v) ≡ true) → AllFollow net one first.items
        → AllFollow net other second.items → IsPlace net here result }
{
    if is_contradictory(&first, from) {
        return Place::Lone(second);
    }
    if is_contradictory(&second, from) {
        return Place::Lone(first);
    }
    Place::Either(first, second)
}

// what is known where a bit is true
fn place_at(nodes: &[NetNode], hints: &Hints, live: Bit) -> Result<Place, OutOfMemory>
    requires net { IsNet nodes.now }
    requires live_in { IsIn nodes.now live }
    ensures { IfOk result (IsPlace nodes.now (λ v. holds v nodes.now live)) }
{
    let alloc = hints.alloc;
    let mut bits = Vec::new(alloc);
    bits.push(live)?;
    let known = taken_apart(nodes, hints, bits, 0)?;
    let Some(arms) = arms(nodes, hints, &known) else {
        return Ok(Place::Lone(known));
    };
    let first = assumed(alloc, nodes, hints, &known, arms.left)?;
    let second = assumed(alloc, nodes, hints, &known, arms.right)?;
    Ok(either(known.len(), first, second))
}

// the value that a bit has wherever runs are
fn value_at(nodes: &[NetNode], place: &Place, bit: Bit) -> Option<bool>
    requires { IsNet nodes.now }
    ensures { IfSome result (λ value. (here : Condition) → IsPlace nodes.now here place.now
        → IsAnswer nodes.now here bit value) }
{
    match place {
        Place::Lone(known) => value_by_parts(nodes, known, DEPTH, bit),
        Place::Either(first, second) => {
            let value = value_by_parts(nodes, first, DEPTH, bit)?;
            match value_by_parts(nodes, second, DEPTH, bit) {
                Some(other) if other == value => Some(value),
                _ => None,
            }
        }
    }
}

// a bit that is true wherever runs are: within what is conjoined in a digit, or the digit or its opposite
fn test_in(nodes: &[NetNode], place: &Place, depth: u32, digit: Bit) -> Option<Bit>
    requires { IsNet nodes.now }
    ensures { IfSome result (λ t. (here : Condition) → IsPlace nodes.now here place.now
        → IsAnswer nodes.now here t true) }
{
    let plain = Bit {
        node: digit.node,
        negated: false,
    };
    if depth != 0 {
        if let Some(pair) = arguments(nodes, plain) {
            if let Some(test) = test_in(nodes, place, depth - 1, pair.left) {
                return Some(test);
            }
            if let Some(test) = test_in(nodes, place, depth - 1, pair.right) {
                return Some(test);
            }
        }
    }
    match value_at(nodes, place, digit) {
        Some(true) => Some(digit),
        Some(false) => Some(not(digit)),
        None => None,
    }
}

fn is_conjunction(nodes: &[NetNode], bit: Bit) -> bool {
    match nodes.get(bit.node as usize) {
        Some(NetNode::And(_, _)) => true,
        _ => false,
    }
}

// a test within the lowest digits that are conjunctions
fn test_of(nodes: &[NetNode], place: &Place, word: &[Bit]) -> Option<Bit>
    requires { IsNet nodes.now }
    ensures { IfSome result (λ t. (here : Condition) → IsPlace nodes.now here place.now
        → IsAnswer nodes.now here t true) }
{
    let mut looked: usize = 0;
    for digit in word {
        if looked < MOST_DIGITS && is_conjunction(nodes, *digit) {
            looked += 1;
            if let Some(test) = test_in(nodes, place, CHOICE, *digit) {
                return Some(test);
            }
        }
    }
    None
}

// what is left of a digit where a test is true
fn rest_of(nodes: &[NetNode], test: Bit, depth: u32, digit: Bit) -> Bit
    requires net { IsNet nodes.now }
    requires digit_in { IsIn nodes.now digit }
    ensures { (here : Condition) → IsAnswer nodes.now here test true → IsAlike nodes.now here digit result }
{
    if digit.node == test.node {
        return constant(digit.negated == test.negated);
    }
    if depth == 0 {
        return digit;
    }
    let plain = Bit {
        node: digit.node,
        negated: false,
    };
    let Some(pair) = arguments(nodes, plain) else {
        return digit;
    };
    let left = rest_of(nodes, test, depth - 1, pair.left);
    let right = rest_of(nodes, test, depth - 1, pair.right);
    part_of(digit, left, right)
}

// what is left of a word where a test is true
fn rest_of_word(
    alloc: Global,
    nodes: &[NetNode],
    test: Bit,
    word: &[Bit],
) -> Result<Vec<Bit>, OutOfMemory>
    requires net { IsNet nodes.now }
    requires word_in { AreIn nodes.now word.now }
    ensures { IfOk result (λ r. (here : Condition) → IsAnswer nodes.now here test true
        → AreAlike nodes.now here word.now r.items) }
{
    let mut rest = Vec::new(alloc);
    for at in 0..word.len() {
        let digit = rest_of(nodes, test, CHOICE, word[at]);
        rest.push(digit)?;
    }
    Ok(rest)
}

/// Whether bits may be settled: a word of which more is known than an unknown of its own, with a conjunction in it.
pub fn is_choice(nodes: &[NetNode], hints: &Hints, bits: &[Bit]) -> bool {
    hints.words.is_told(bits) && has_conjunction(nodes, bits)
}

fn has_conjunction(nodes: &[NetNode], bits: &[Bit]) -> bool {
    for digit in bits {
        if is_conjunction(nodes, *digit) {
            return true;
        }
    }
    false
}

/// Bits that have the number of others wherever `live` is true: what is left of a word that tests chose, where these
/// are known.
pub fn settled(
    nodes: &[NetNode],
    hints: &Hints,
    live: Bit,
    bits: &[Bit],
) -> Result<Vec<Bit>, OutOfMemory>
    requires net { IsNet nodes.now }
    requires live_in { IsIn nodes.now live }
    requires bits_in { AreIn nodes.now bits.now }
    ensures { IfOk result (λ r. AreAlike nodes.now (λ v. holds v nodes.now live) bits.now r.items) }
{
    let alloc = hints.alloc;
    let mut word = bits.to_vec(alloc)?;
    let known = place_at(nodes, hints, live)?;
    let place = &known;
    for choice in 0..MOST_CHOICES {
        let Some(test) = test_of(nodes, place, &word) else {
            break;
        };
        word = rest_of_word(alloc, nodes, test, &word)?;
        // facts speak of a word that is an unknown
        if !hints.words.is_told(&word) {
            break;
        }
    }
    // (of bits that are no word nothing is known)
    if !hints.words.is_word(&word) {
        let same = bits.to_vec(alloc)?;
        return Ok(same);
    }
    Ok(word)
}
