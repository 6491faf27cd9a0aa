// What a polynomial is worth wherever some others are 0.
ghost use Rattle.std.specs.Prelude.{◌≤◌, ◌<◌, IfOk, IfSome, length};
ghost use Rattle.polynomials.specs.Elimination.{IsReduced, AllFollow};

use crate::division::{divide, divide_by_highest, solved_term};
use crate::{Polynomial, Term};
use std::alloc::Global;
use wv_base::OutOfMemory;

/// So many facts are looked at.
pub const MOST_FACTS: usize = 48;

// so often each fact that gives no unknown divides the question
const ROUNDS: usize = 3;

// a question, and facts: polynomials that are 0
#[derive(Drop)]
struct System {
    question: Polynomial,
    facts: Vec<Polynomial>,
}

// a fact, and the term of it that is an unknown of its own
#[derive(Clone, Copy)]
struct Pivot {
    place: usize,
    term: Term,
}

/// A polynomial that is the question wherever the facts are 0 modulo 2^width. Where the facts decide the question it is
/// mostly a number: first each fact that gives an unknown is put in for it, the shortest one first; then the others
/// divide what is left. It is no normal form.
pub fn reduce(
    alloc: Global,
    width: u32,
    question: Polynomial,
    facts: Vec<Polynomial>,
) -> Result<Polynomial, OutOfMemory>
    requires { width ≤ 64 }
    ensures { IfOk result (λ r. IsReduced width facts.items question r) }
{
    let mut facts = facts;
    facts.truncate(MOST_FACTS);
    let system = solve(alloc, width, System { question, facts })?;
    let mut rest = system.question.copy(alloc)?;
    for _round in 0..ROUNDS {
        rest = divide_by_each(alloc, width, rest, &system.facts)?;
    }
    Ok(rest)
}

// unknowns that facts give are put in, until no fact gives one, or the question is a number
fn solve(alloc: Global, width: u32, given: System) -> Result<System, OutOfMemory>
    requires { width ≤ 64 }
    ensures question { IfOk result (λ s. IsReduced width given.facts.items given.question s.question) }
    ensures facts { IfOk result (λ s. AllFollow width given.facts.items s.facts.items) }
{
    let mut system = given;
    for _pivot in 0..MOST_FACTS {
        if system.question.as_constant().is_some() {
            return Ok(system);
        }
        let Some(pivot) = shortest_pivot(&system.facts) else {
            return Ok(system);
        };
        system = without_unknown(alloc, width, &system, pivot)?;
    }
    Ok(system)
}

// the unknown of a fact is put in, there too, so that this fact goes
fn without_unknown(
    alloc: Global,
    width: u32,
    system: &System,
    pivot: Pivot,
) -> Result<System, OutOfMemory>
    requires narrow { width ≤ 64 }
    requires inside { pivot.place < length system.now.facts.items }
    ensures question { IfOk result (λ s. IsReduced width system.now.facts.items system.now.question s.question) }
    ensures facts { IfOk result (λ s. AllFollow width system.now.facts.items s.facts.items) }
{
    let fact = &system.facts[pivot.place];
    let question = divide(alloc, width, &system.question, fact, pivot.term)?;
    let facts = divide_each(alloc, width, &system.facts, pivot)?;
    Ok(System { question, facts })
}

// the facts without the unknown of one of them, and without those that say nothing
fn divide_each(
    alloc: Global,
    width: u32,
    facts: &Vec<Polynomial>,
    pivot: Pivot,
) -> Result<Vec<Polynomial>, OutOfMemory>
    requires narrow { width ≤ 64 }
    requires inside { pivot.place < length facts.now.items }
    ensures { IfOk result (λ r. AllFollow width facts.now.items r.items) }
{
    let mut divided = Vec::new(alloc);
    for i in 0..facts.len() {
        let rest = divide(alloc, width, &facts[i], &facts[pivot.place], pivot.term)?;
        if !rest.terms().is_empty() {
            divided.push(rest)?;
        }
    }
    Ok(divided)
}

// the shortest fact that gives an unknown
fn shortest_pivot(facts: &Vec<Polynomial>) -> Option<Pivot>
    ensures { IfSome result (λ p. p.place < length facts.now.items) }
{
    let mut shortest: Option<Pivot> = None;
    let mut least = usize::MAX;
    for place in 0..facts.len() {
        let terms = facts[place].terms().len();
        if terms < least {
            if let Some(term) = solved_term(&facts[place]) {
                shortest = Some(Pivot { place, term });
                least = terms;
            }
        }
    }
    shortest
}

// the facts divide the question by their highest terms, one after the other
fn divide_by_each(
    alloc: Global,
    width: u32,
    question: Polynomial,
    facts: &Vec<Polynomial>,
) -> Result<Polynomial, OutOfMemory>
    requires { width ≤ 64 }
    ensures { IfOk result (λ r. IsReduced width facts.now.items question r) }
{
    let mut rest = question;
    for i in 0..facts.len() {
        rest = divide_by_highest(alloc, width, rest, &facts[i])?;
    }
    Ok(rest)
}
