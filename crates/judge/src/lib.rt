//! Judges a violation witness: the run that draws the values of the witness decides.
#![tactic(auto)]

mod violation;
mod watched;

pub use violation::judge_violation;
pub use watched::{Watched, run_watched};
