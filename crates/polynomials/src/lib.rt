//! Polynomials over numbered unknowns, with coefficients modulo 2^width. Their one promise: each call gives the value
//! that it names at all unknowns, odd numbers standing for unknowns that are 0 or 1.
#![tactic(auto)]

mod division;
mod elimination;
#[cfg(test)]
mod elimination_tests;
mod factors;
mod modular;
mod multiples;
mod normal;
mod polynomial;
#[cfg(test)]
mod tests;

pub use elimination::{MOST_FACTS, reduce};
pub use factors::{Factors, MOST_FACTORS, over, times};
pub use modular::masked;
pub use multiples::multiply;
pub use polynomial::{MOST_TERMS, Polynomial, Term};
