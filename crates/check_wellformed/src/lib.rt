//! The law that the checked program of a source that isn't refused meets every part of a program's invariant.
#![tactic(auto)]

mod laws;

pub use laws::checked_programs_fit;
