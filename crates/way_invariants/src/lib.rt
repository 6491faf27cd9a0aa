//! Invariant sets bound to a program: each invariant to a loop or to a statement, its expression typed over the names
//! in scope there. The least invariant in witness order that isn't bound is reported, by the first test that it fails.
#![tactic(auto)]

mod binding;
mod invariant;
mod laws;

pub use binding::bind_correctness;
pub use laws::one_answer;
