//! Whole programs: what a state after a program says of its havoc runs. Its one promise: under every input the failing
//! bits and the live sites tell where a havoc run ends and what it draws, and every list of values has inputs that
//! stand for its run.
#![tactic(auto)]

mod first;
mod laws;

pub use first::start;
pub use laws::{decides, found, larger};
