// Polynomials that are 0 wherever some bits are true.
ghost use Rattle.std.specs.Prelude.{◌≤◌, IfOk, IfSome, List};
ghost use Rattle.circuits.specs.declared.net.Bit.{Bit};
ghost use Rattle.circuits.specs.declared.net.NetNode.{NetNode};
ghost use Rattle.circuits.specs.Net.{IsNet};
ghost use Rattle.circuits.specs.Words.{AreTrue, AreZeros, bits_of};
ghost use Rattle.circuits.specs.Facts.{Condition, AllFollow, AreFacts, IsFact};
ghost use Rattle.circuits.specs.Inequalities.{AreEqualities, IsGiven};

use crate::given::Given;
use crate::hints::Hints;
use crate::inequalities::Equality;
use crate::truths::{has_number, with_truths};
use crate::zeros::Zeros;
use crate::{Bit, NetNode};
use polynomials::{MOST_FACTORS, MOST_FACTS, Polynomial, Term};
use std::alloc::Global;
use wv_base::OutOfMemory;

// so many tests are facts of one question
const MOST_TESTS: usize = MOST_FACTS / 3;

// so many facts are no truths
const MOST_OTHERS: usize = MOST_FACTS - MOST_FACTS / 3;

// so many unknowns are looked for in laws
const MOST_UNKNOWNS: usize = 64;

// the polynomials that are 0 modulo 2^width wherever these bits are true
fn facts_of(
    alloc: Global,
    zeros: &Zeros,
    known: &[Bit],
    width: u32,
) -> Result<Vec<Polynomial>, OutOfMemory>
    ensures { IfOk result (λ r. (net : List NetNode) (words : List (List Bit)) (here : Condition)
        → AreZeros net words zeros.now.list.items → AllFollow net here known.now
        → AreFacts net words here width r.items) }
{
    let mut facts = Vec::new(alloc);
    for bit in known {
        if let Some(at) = zeros.of_node(bit.node) {
            let zero = &zeros.list[at];
            if zero.bit == *bit && zero.width == width && facts.len() < MOST_TESTS {
                let fact = zero.polynomial.copy(alloc)?;
                facts.push(fact)?;
            }
        }
    }
    Ok(facts)
}

// the facts, and those equalities that are of this width
fn with_equalities(
    alloc: Global,
    equalities: &[Equality],
    width: u32,
    facts: Vec<Polynomial>,
) -> Result<Vec<Polynomial>, OutOfMemory>
    ensures { IfOk result (λ r. (net : List NetNode) (words : List (List Bit)) (here : Condition)
        → AreEqualities net words here equalities.now → AreFacts net words here width facts.items
        → AreFacts net words here width r.items) }
{
    let mut all = facts;
    for at in 0..equalities.len() {
        let equality = &equalities[at];
        if equality.width == width && all.len() < MOST_OTHERS {
            all.push(equality.polynomial.copy(alloc)?)?;
        }
    }
    Ok(all)
}

fn add_unknowns_of_term(unknowns: &mut Vec<u32>, term: &Term) -> Result<(), OutOfMemory> {
    for at in 0..MOST_FACTORS {
        let x = term.factors[at];
        if x != 0 && unknowns.len() < MOST_UNKNOWNS && !has_number(unknowns, x) {
            unknowns.push(x)?;
        }
    }
    Ok(())
}

fn add_unknowns(unknowns: &mut Vec<u32>, polynomial: &Polynomial) -> Result<(), OutOfMemory> {
    for term in polynomial.terms() {
        add_unknowns_of_term(unknowns, term)?;
    }
    Ok(())
}

// the unknowns in a question and in facts
fn unknowns_in(
    alloc: Global,
    question: &Polynomial,
    facts: &[Polynomial],
) -> Result<Vec<u32>, OutOfMemory> {
    let mut unknowns = Vec::new(alloc);
    add_unknowns(&mut unknowns, question)?;
    for fact in facts {
        add_unknowns(&mut unknowns, fact)?;
    }
    Ok(unknowns)
}

fn has_one_of(term: &Term, unknowns: &[u32]) -> bool {
    for at in 0..MOST_FACTORS {
        if term.factors[at] != 0 && has_number(unknowns, term.factors[at]) {
            return true;
        }
    }
    false
}

fn is_about(polynomial: &Polynomial, unknowns: &[u32]) -> bool {
    for term in polynomial.terms() {
        if has_one_of(term, unknowns) {
            return true;
        }
    }
    false
}

// the law of this number, counted from the newest, where it is of this width
fn law_at(zeros: &Zeros, back: usize, width: u32) -> Option<&Polynomial>
    ensures { IfSome result (λ p. (net : List NetNode) (words : List (List Bit)) (here : Condition) → IsNet net
        → AreZeros net words zeros.now.list.items → IsFact net words here width p.now) }
{
    let last = zeros.laws.len().wrapping_sub(back).wrapping_sub(1);
    let at = *zeros.laws.get(last)? as usize;
    if at >= zeros.list.len() {
        return None;
    }
    let law = &zeros.list[at];
    if law.bit.node == 0 && !law.bit.negated && law.width == width {
        return Some(&law.polynomial);
    }
    None
}

// the facts, and laws about what stands in them or in a question, the newest first
fn with_laws(
    alloc: Global,
    zeros: &Zeros,
    width: u32,
    question: &Polynomial,
    facts: Vec<Polynomial>,
) -> Result<Vec<Polynomial>, OutOfMemory>
    ensures { IfOk result (λ r. (net : List NetNode) (words : List (List Bit)) (here : Condition) → IsNet net
        → AreZeros net words zeros.now.list.items → AreFacts net words here width facts.items
        → AreFacts net words here width r.items) }
{
    let mut all = facts;
    if zeros.laws.is_empty() {
        return Ok(all);
    }
    let mut unknowns = unknowns_in(alloc, question, &all)?;
    for back in 0..zeros.laws.len() {
        if let Some(law) = law_at(zeros, back, width) {
            if all.len() < MOST_OTHERS && is_about(law, &unknowns) {
                add_unknowns(&mut unknowns, law)?;
                all.push(law.copy(alloc)?)?;
            }
        }
    }
    Ok(all)
}

/// Facts for a question: polynomials that are 0 modulo 2^width wherever what is given holds.
pub fn facts_for(
    nodes: &[NetNode],
    hints: &Hints,
    given: &Given,
    width: u32,
    question: &Polynomial,
) -> Result<Vec<Polynomial>, OutOfMemory>
    requires net { IsNet nodes.now }
    requires hints { AreTrue nodes.now hints.now }
    requires narrow { width ≤ 64 }
    ensures { IfOk result (λ r. (here : Condition)
        → IsGiven nodes.now (bits_of hints.now.words.list.items) here given.now
        → AreFacts nodes.now (bits_of hints.now.words.list.items) here width r.items) }
{
    let alloc = hints.alloc;
    let tests = facts_of(alloc, &hints.zeros, &given.bits, width)?;
    let equal = with_equalities(alloc, &given.equalities, width, tests)?;
    let others = with_laws(alloc, &hints.zeros, width, question, equal)?;
    with_truths(
        alloc,
        nodes,
        &hints.words,
        &given.bits,
        width,
        question,
        others,
    )
}
