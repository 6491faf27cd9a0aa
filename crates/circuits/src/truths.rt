// Unknowns that are 0 or 1, and their values wherever some bits are true.
ghost use Rattle.std.specs.Prelude.{ℕ, ◌≤◌, IfOk, IfSome, List};
ghost use Rattle.circuits.specs.Net.{IsNet};
ghost use Rattle.circuits.specs.Words.{AreTrue, bits_of};
ghost use Rattle.circuits.specs.Facts.{Condition, AllFollow, AreFacts, IsRest, IsTruthFact};

use crate::hints::Hints;
use crate::parts::value_by_parts;
use crate::words::Words;
use crate::{Bit, NetNode};
use polynomials::{MOST_FACTORS, MOST_FACTS, Polynomial, Term, reduce};
use std::alloc::Global;
use wv_base::OutOfMemory;

// so many truths are facts of one question
const MOST_TRUTHS: usize = MOST_FACTS / 3;

// conjunctions are looked into so deep
const DEPTH: u32 = 4;

/// Whether a number is among others.
pub fn has_number(numbers: &[u32], number: u32) -> bool {
    for other in numbers {
        if *other == number {
            return true;
        }
    }
    false
}

// the unknowns of a term that are truths, each once in the list
fn add_truths_of_term(truths: &mut Vec<u32>, term: &Term) -> Result<(), OutOfMemory> {
    for at in 0..MOST_FACTORS {
        let x = term.factors[at];
        if x % 2 == 1 && truths.len() < MOST_TRUTHS && !has_number(truths, x) {
            truths.push(x)?;
        }
    }
    Ok(())
}

fn add_truths(truths: &mut Vec<u32>, polynomial: &Polynomial) -> Result<(), OutOfMemory> {
    for term in polynomial.terms() {
        add_truths_of_term(truths, term)?;
    }
    Ok(())
}

// the truths in a question and in facts
fn truths_in(
    alloc: Global,
    question: &Polynomial,
    facts: &[Polynomial],
) -> Result<Vec<u32>, OutOfMemory> {
    let mut truths = Vec::new(alloc);
    add_truths(&mut truths, question)?;
    for fact in facts {
        add_truths(&mut truths, fact)?;
    }
    Ok(truths)
}

// that a truth is 1 or 0, as a polynomial that is 0
fn truth_fact(
    alloc: Global,
    width: u32,
    truth: u32,
    value: bool,
) -> Result<Option<Polynomial>, OutOfMemory>
    requires { width ≤ 64 }
    ensures { IfOk result (λ r. IfSome r (λ p. IsTruthFact width truth value p)) }
{
    let mut fact = Polynomial::unknown(alloc, truth)?;
    if value && !fact.add_term(width, u64::MAX, [0; 6])? {
        return Ok(None);
    }
    Ok(Some(fact))
}

/// The facts, and what is known of the truths in them and in a question.
pub fn with_truths(
    alloc: Global,
    nodes: &[NetNode],
    words: &Words,
    known: &[Bit],
    width: u32,
    question: &Polynomial,
    facts: Vec<Polynomial>,
) -> Result<Vec<Polynomial>, OutOfMemory>
    requires net { IsNet nodes.now }
    requires narrow { width ≤ 64 }
    ensures { IfOk result (λ r. (here : Condition) → AllFollow nodes.now here known.now
        → AreFacts nodes.now (bits_of words.now.list.items) here width facts.items
        → AreFacts nodes.now (bits_of words.now.list.items) here width r.items) }
{
    let truths = truths_in(alloc, question, &facts)?;
    let mut all = facts;
    for at in 0..truths.len() {
        let truth = truths[at];
        if let Some(bit) = words.digit(truth) {
            if let Some(value) = value_by_parts(nodes, known, DEPTH, bit) {
                if let Some(fact) = truth_fact(alloc, width, truth, value)? {
                    all.push(fact)?;
                }
            }
        }
    }
    Ok(all)
}

/// The unknown that is a truth and was made last, of those in a polynomial; 0 where none is.
pub fn highest_truth(polynomial: &Polynomial) -> u32 {
    let mut highest = 0;
    for term in polynomial.terms() {
        let own = highest_in(term);
        if own > highest {
            highest = own;
        }
    }
    highest
}

fn highest_in(term: &Term) -> u32 {
    let mut highest = 0;
    for at in 0..MOST_FACTORS {
        let x = term.factors[at];
        if x % 2 == 1 && x > highest {
            highest = x;
        }
    }
    highest
}

/// A polynomial that is another one wherever these bits are true: known truths have their values in it.
pub fn specialised(
    nodes: &[NetNode],
    hints: &Hints,
    known: &[Bit],
    width: u32,
    polynomial: &Polynomial,
) -> Result<Polynomial, OutOfMemory>
    requires net { IsNet nodes.now }
    requires hints { AreTrue nodes.now hints.now }
    requires narrow { width ≤ 64 }
    ensures { IfOk result (λ r. (here : Condition) → AllFollow nodes.now here known.now
        → IsRest nodes.now (bits_of hints.now.words.list.items) here width polynomial.now r) }
{
    let alloc = hints.alloc;
    let mut rest = polynomial.copy(alloc)?;
    if highest_truth(polynomial) == 0 {
        return Ok(rest);
    }
    let none = Vec::new(alloc);
    let facts = with_truths(alloc, nodes, &hints.words, known, width, polynomial, none)?;
    // (one after the other: none has the unknown of another)
    for at in 0..facts.len() {
        let mut one = Vec::new(alloc);
        one.push(facts[at].copy(alloc)?)?;
        rest = reduce(alloc, width, rest, one)?;
    }
    Ok(rest)
}
