//! Judges the invariants of a correctness witness. Its one promise: a verdict is right on the program's obligations;
//! where it confirms, no run of the program violates the property, and each invariant holds whenever its place is
//! reached.
#![tactic(auto)]

mod correctness;

pub use correctness::judge_correctness;
