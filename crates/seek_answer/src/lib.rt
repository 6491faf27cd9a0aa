//! Values for the open inputs of a violation witness, from a net that has one bit for the hit of all runs that seek
//! within a bound. Its one promise: what is found was run and matched, nothing is answered only where no values are
//! sought, and the budget was spent only where the log shows it.
#![tactic(auto)]

mod answering;
mod laws;
mod reach;

pub use answering::{Sought, answer};
pub use laws::reach_tells_what_is_sought;
pub use reach::Reach;
