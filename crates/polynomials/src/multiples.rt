// Sums, differences, multiples and products of polynomials.
ghost use Rattle.std.specs.Prelude.{◌+◌, ◌≤◌, IfOk, MatchOption, IsTrue, length};
ghost use Rattle.std.specs.Bool.{OnFalse};
ghost use Rattle.polynomials.specs.Calls.{IsWithMultiple, Multiplies, MultipleIsTooMuch, ProductIsTooMuch};

use crate::Polynomial;
use crate::factors::{Factors, times};
use std::alloc::Global;
use wv_base::OutOfMemory;

impl Polynomial {
    /// `coefficient` times the product of `factors` times `other` more: a sum by 1, a difference by 2^width - 1, each
    /// with no factors. `false` where there would be too many terms or factors, which is to be dropped then, as after an
    /// error.
    pub fn add_multiple(
        &mut self,
        width: u32,
        coefficient: u64,
        factors: Factors,
        other: &Polynomial,
    ) -> Result<bool, OutOfMemory>
        requires { width ≤ 64 }
        ensures added { IfOk result (λ r. IsTrue r → IsWithMultiple width self.old coefficient factors other.now self.new) }
        ensures refused { IfOk result (λ r. OnFalse r (MultipleIsTooMuch self.old factors other.now)) }
        ensures grown { length self.new ≤ length self.old + length other.now }
    {
        let terms = other.terms();
        for i in 0..terms.len() {
            let term = terms[i];
            let Some(product) = times(factors, term.factors) else {
                return Ok(false);
            };
            let scaled = coefficient.wrapping_mul(term.coefficient);
            if !self.add_term(width, scaled, product)? {
                return Ok(false);
            }
        }
        Ok(true)
    }
}

/// The product. `None` where it would have too many terms or factors.
pub fn multiply(
    alloc: Global,
    width: u32,
    p: &Polynomial,
    q: &Polynomial,
) -> Result<Option<Polynomial>, OutOfMemory>
    requires { width ≤ 64 }
    ensures { IfOk result (λ r. MatchOption r (ProductIsTooMuch p.now q.now) (λ m. Multiplies width p.now q.now m)) }
{
    let mut product = Polynomial::new(alloc);
    let terms = p.terms();
    for i in 0..terms.len() {
        if !product.add_multiple(width, terms[i].coefficient, terms[i].factors, q)? {
            return Ok(None);
        }
    }
    Ok(Some(product))
}
