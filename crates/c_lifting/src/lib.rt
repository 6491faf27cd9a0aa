//! What holds of every run where all obligations hold: none is violated, and each invariant holds wherever it is
//! placed.
#![tactic(auto)]

mod laws;

pub use laws::runs_are_lifted;
