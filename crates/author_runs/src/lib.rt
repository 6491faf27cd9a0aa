//! Runs from which violation witnesses are written: what comes back of their inputs, where they violate the property,
//! and that values given by place give the run that takes them in turn.
#![tactic(auto)]

mod laws;

pub use laws::{inputs_come_back, values_by_place_replay, violations_end_runs};
