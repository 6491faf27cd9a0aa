// Polynomials as lists of terms.
ghost use Rattle.std.specs.Prelude.{◌≡◌, ℕ, ◌+◌, ◌≤◌, ◌<◌, ◌↔◌, [], IfOk, MatchOption, IsTrue, length, slice_index_or};
ghost use Rattle.std.specs.Bool.{OnFalse};
ghost use Rattle.polynomials.specs.declared.polynomial.Term.{Term};
ghost use Rattle.polynomials.specs.Values.{AreBelow, value, factor, Same};
ghost use Rattle.polynomials.specs.Calls.{IsWithTerm, IsScaled, IsConstant, HasUnknowns};

use crate::factors::{Factors, exceeds, is_one};
use crate::modular::masked;
use std::alloc::Global;
use std::marker::Model;
use wv_base::OutOfMemory;

/// The most terms of a polynomial.
pub const MOST_TERMS: usize = 32;

/// A coefficient times a product of unknowns.
#[derive(Clone, Copy, Debug, PartialEq, Eq)]
pub struct Term {
    pub coefficient: u64,
    pub factors: Factors,
}

/// A sum of terms. Its calls keep the factors in descending order, each once, and no coefficient 0; coefficients are
/// below 2^64, and the calls with a width cut those that they touch to it. Contracts see the list of the terms, and
/// speak of its value alone.
#[derive(Drop)]
pub struct Polynomial {
    terms: Vec<Term>,
}

impl Model for Polynomial {
    ghost use Rattle.std.specs.Prelude.{List};
    ghost use Rattle.polynomials.specs.declared.polynomial.Term.{Term};

    ghost Value = { List Term };

    ghost view = { λ p. p.terms.items };
}

impl Polynomial {
    /// 0.
    pub fn new(alloc: Global) -> Polynomial
        ensures { result ≡ [] }
    {
        Polynomial {
            terms: Vec::new(alloc),
        }
    }

    /// The terms.
    pub fn terms(&self) -> &[Term]
        ensures { result.now ≡ self.now }
    {
        &self.terms
    }

    /// A number.
    pub fn constant(alloc: Global, width: u32, c: u64) -> Result<Polynomial, OutOfMemory>
        requires { width ≤ 64 }
        ensures value { IfOk result (λ p. (v : ℕ → ℕ) → Same width (value v p) c) }
        ensures within { IfOk result (λ p. (n : ℕ) → 0 < n → AreBelow n p) }
    {
        let mut p = Polynomial::new(alloc);
        let coefficient = masked(width, c);
        if coefficient != 0 {
            p.terms.push(Term {
                coefficient,
                factors: [0; 6],
            })?;
        }
        Ok(p)
    }

    /// An unknown; 1 if the number is 0.
    pub fn unknown(alloc: Global, x: u32) -> Result<Polynomial, OutOfMemory>
        ensures value { IfOk result (λ p. (v : ℕ → ℕ) → value v p ≡ factor v x) }
        ensures within { IfOk result (λ p. (n : ℕ) → x < n → AreBelow n p) }
    {
        let mut p = Polynomial::new(alloc);
        p.terms.push(Term {
            coefficient: 1,
            factors: [x, 0, 0, 0, 0, 0],
        })?;
        Ok(p)
    }

    /// The same polynomial once more.
    pub fn copy(&self, alloc: Global) -> Result<Polynomial, OutOfMemory>
        ensures { IfOk result (λ p. p ≡ self.now) }
    {
        let mut terms = Vec::new(alloc);
        terms.extend_from_slice(&self.terms)?;
        Ok(Polynomial { terms })
    }

    /// One term more. `false` where there are too many already, which is to be dropped then, as after an error.
    pub fn add_term(
        &mut self,
        width: u32,
        coefficient: u64,
        factors: Factors,
    ) -> Result<bool, OutOfMemory>
        requires { width ≤ 64 }
        ensures added { IfOk result (λ r. IsTrue r → IsWithTerm width self.old coefficient factors self.new) }
        ensures refused { IfOk result (λ r. OnFalse r (32 ≤ length self.old)) }
        ensures grown { length self.new ≤ length self.old + 1 }
    {
        let place = self.place_of(factors);
        if place < self.terms.len() && self.terms[place].factors == factors {
            self.merge(width, place, coefficient);
            return Ok(true);
        }
        let coefficient = masked(width, coefficient);
        if coefficient == 0 {
            return Ok(true);
        }
        if self.terms.len() >= MOST_TERMS {
            return Ok(false);
        }
        let term = Term {
            coefficient,
            factors,
        };
        self.terms.insert(place, term)?;
        Ok(true)
    }

    // the first place whose factors don't exceed these
    fn place_of(&self, factors: Factors) -> usize
        ensures { result ≤ length self.now }
    {
        for i in 0..self.terms.len() {
            if !exceeds(self.terms[i].factors, factors) {
                return i;
            }
        }
        self.terms.len()
    }

    // more of the term at a place
    fn merge(&mut self, width: u32, place: usize, coefficient: u64)
        requires narrow { width ≤ 64 }
        requires inside { place < length self.old }
        ensures merged { (d : Term) → IsWithTerm width self.old coefficient (slice_index_or self.old place d).factors self.new }
        ensures grown { length self.new ≤ length self.old }
    {
        let term = self.terms[place];
        let factors = term.factors;
        let coefficient = masked(width, term.coefficient.wrapping_add(coefficient));
        if coefficient == 0 {
            self.terms.remove(place);
        } else {
            self.terms[place] = Term {
                coefficient,
                factors,
            };
        }
    }

    /// Each coefficient times a number.
    pub(crate) fn scale(&mut self, width: u32, by: u64)
        requires { width ≤ 64 }
        ensures { IsScaled width self.old by self.new }
    {
        for i in 0..self.terms.len() {
            let term = self.terms[i];
            let coefficient = masked(width, term.coefficient.wrapping_mul(by));
            let factors = term.factors;
            self.terms[i] = Term {
                coefficient,
                factors,
            };
        }
    }

    /// The number that a polynomial without unknowns is; 0 without terms.
    pub fn as_constant(&self) -> Option<u64>
        ensures { MatchOption result (HasUnknowns self.now) (λ c. IsConstant self.now c) }
    {
        let mut sum = 0u64;
        for i in 0..self.terms.len() {
            let term = self.terms[i];
            if !is_one(term.factors) {
                return None;
            }
            sum = sum.wrapping_add(term.coefficient);
        }
        Some(sum)
    }

    /// Whether the terms are the same.
    pub fn same_terms(&self, other: &Polynomial) -> bool
        ensures { IsTrue result ↔ (self.now ≡ other.now) }
    {
        if self.terms.len() != other.terms.len() {
            return false;
        }
        for i in 0..self.terms.len() {
            if self.terms[i] != other.terms[i] {
                return false;
            }
        }
        true
    }

    /// A number that polynomials with the same terms share.
    pub fn hash(&self) -> u64 {
        let mut hash = 0u64;
        for i in 0..self.terms.len() {
            hash = mixed(hash, self.terms[i].coefficient);
            hash = mixed(hash, hash_of(self.terms[i].factors));
        }
        hash
    }
}

// a number for factors
fn hash_of(factors: Factors) -> u64 {
    let mut hash = 0u64;
    for x in factors {
        hash = mixed(hash, u64::from(x));
    }
    hash
}

// a step of a hash, by the odd number next to 2^64 over the golden ratio
fn mixed(hash: u64, n: u64) -> u64 {
    (hash.rotate_left(5) ^ n).wrapping_mul(0x9e37_79b9_7f4a_7c15)
}
