// Multiples of a fact, a polynomial that is 0 modulo 2^width, taken from another polynomial.
ghost use Rattle.std.specs.Prelude.{ℕ, ◌≤◌, IfOk, IfSome};
ghost use Rattle.polynomials.specs.Elimination.{AreAmong, StandIn, IsReducedBy};

use crate::factors::over;
use crate::modular::inverse_of;
use crate::{Factors, Polynomial, Term};
use std::alloc::Global;
use wv_base::OutOfMemory;

// so many multiples of one fact are taken from a polynomial
const MOST_STEPS: usize = 32;

/// The polynomial without the terms that the leading term of the fact divides, as far as the limits allow.
pub(crate) fn divide(
    alloc: Global,
    width: u32,
    polynomial: &Polynomial,
    fact: &Polynomial,
    lead: Term,
) -> Result<Polynomial, OutOfMemory>
    requires { width ≤ 64 }
    ensures { IfOk result (λ r. IsReducedBy width fact.now polynomial.now r) }
{
    let mut rest = polynomial.copy(alloc)?;
    for _step in 0..MOST_STEPS {
        let Some(less) = step(alloc, width, &rest, fact, lead)? else {
            return Ok(rest);
        };
        rest = less;
    }
    Ok(rest)
}

/// The same by the term of the fact with the most unknowns.
pub(crate) fn divide_by_highest(
    alloc: Global,
    width: u32,
    polynomial: Polynomial,
    fact: &Polynomial,
) -> Result<Polynomial, OutOfMemory>
    requires { width ≤ 64 }
    ensures { IfOk result (λ r. IsReducedBy width fact.now polynomial r) }
{
    let Some(lead) = highest_term(fact) else {
        return Ok(polynomial);
    };
    divide(alloc, width, &polynomial, fact, lead)
}

// a multiple of the fact less, so that a term goes
fn step(
    alloc: Global,
    width: u32,
    polynomial: &Polynomial,
    fact: &Polynomial,
    lead: Term,
) -> Result<Option<Polynomial>, OutOfMemory>
    requires { width ≤ 64 }
    ensures { IfOk result (λ r. IfSome r (λ p. IsReducedBy width fact.now polynomial.now p)) }
{
    let Some(multiple) = next_multiple(polynomial, lead) else {
        return Ok(None);
    };
    let mut less = polynomial.copy(alloc)?;
    if less.add_multiple(width, multiple.coefficient, multiple.factors, fact)? {
        Ok(Some(less))
    } else {
        Ok(None)
    }
}

// the multiple of the fact that takes away the first term that it can
fn next_multiple(polynomial: &Polynomial, lead: Term) -> Option<Term>
    ensures { IfSome result (λ m. StandIn polynomial.now m.factors) }
{
    let terms = polynomial.terms();
    for i in 0..terms.len() {
        if let Some(multiple) = multiple_for(terms[i], lead) {
            return Some(multiple);
        }
    }
    None
}

// what is to be multiplied by the leading term, to be the opposite of a term modulo 2^64
fn multiple_for(term: Term, lead: Term) -> Option<Term>
    ensures { IfSome result (λ m. AreAmong term.factors m.factors) }
{
    let twos = lead.coefficient.trailing_zeros();
    if twos >= 64 || term.coefficient.trailing_zeros() < twos {
        return None;
    }
    let factors = over(term.factors, lead.factors)?;
    let inverse = inverse_of(lead.coefficient >> twos);
    let coefficient = 0u64.wrapping_sub((term.coefficient >> twos).wrapping_mul(inverse));
    Some(Term {
        coefficient,
        factors,
    })
}

/// A term that is an unknown of its own, times an odd number: so the fact says what that unknown is. That with the
/// largest number, if there are several.
pub(crate) fn solved_term(fact: &Polynomial) -> Option<Term> {
    let terms = fact.terms();
    for i in 0..terms.len() {
        let term = terms[i];
        if is_alone(term, terms.len() <= 2) && stands_once(terms, term.factors[0]) {
            return Some(term);
        }
    }
    None
}

// an unknown, a truth only where it is said, times an odd number
fn is_alone(term: Term, truths: bool) -> bool {
    let x = term.factors[0];
    x != 0 && (x % 2 == 0 || truths) && term.factors[1] == 0 && term.coefficient % 2 == 1
}

// whether no two of the terms have the unknown
fn stands_once(terms: &[Term], unknown: u32) -> bool {
    let mut stands = false;
    for i in 0..terms.len() {
        if has_factor(terms[i].factors, unknown) {
            if stands {
                return false;
            }
            stands = true;
        }
    }
    true
}

fn has_factor(factors: Factors, unknown: u32) -> bool {
    for x in factors {
        if x == unknown {
            return true;
        }
    }
    false
}

// the first term of those with the most unknowns that are no truths.
fn highest_term(fact: &Polynomial) -> Option<Term> {
    let terms = fact.terms();
    let mut highest: Option<Term> = None;
    let mut most = 0;
    for i in 0..terms.len() {
        let words = words_in(terms[i].factors);
        if highest.is_none() || words > most {
            highest = Some(terms[i]);
            most = words;
        }
    }
    highest
}

// how many unknowns of the product are no truths
fn words_in(factors: Factors) -> usize {
    let mut words = 0;
    for i in 0..factors.len() {
        if factors[i] != 0 && factors[i] % 2 == 0 {
            words += 1;
        }
    }
    words
}
