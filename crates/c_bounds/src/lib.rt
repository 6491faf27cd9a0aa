//! The bounds with which runs are defined, on the depth of calls and on the turns of loops, are never met.
#![tactic(auto)]

mod bounds;

pub use bounds::bounds_are_never_met;
