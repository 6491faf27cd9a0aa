//! The choice of an arm of a `switch`, as bits. Its one promise: for all inputs each arm's bit says whether the
//! definition of runs does the arm, within a stated number of and-nodes.
#![tactic(auto)]

mod cases;
mod choosing;

pub use cases::case_bits;
pub use choosing::{enter_arms, no_case};
