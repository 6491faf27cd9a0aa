//! The obligations of a program with invariants as a net. Its one promise stands in specs/Promise: what the answer of
//! the evaluator says of the havoc runs.
#![tactic(auto)]

mod fault;
mod laws;
mod obligations;

pub use fault::SymFault;
pub use laws::one_obligation_fails;
pub use obligations::Obligations;
