//! A program with its obligations: their numbers, and its invariants over a symbolic state. Its one
//! promise: each invariant of a place is tested in turn, in every run that is here, as the definition of judged runs
//! says.
#![tactic(auto)]

mod elements;
mod numbers;
mod obliged;
mod seen;
mod testing;
mod values;

pub use numbers::{around, number_of};
pub use obliged::{Obliged, Obliging};
pub use testing::{assume_all, test_all};
pub use values::holds_bit;
