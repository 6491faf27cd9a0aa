//! Laws on what the witnesses that `author` writes are bound to: no refusal applies to them, and the run that they give
//! is the run that they were written from.
#![tactic(auto)]

mod laws;

pub use laws::{authored_sequences_are_confirmed, constants_are_bound};
