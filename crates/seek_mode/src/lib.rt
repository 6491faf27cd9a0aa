//! The mode of runs that seek: what a statement, another event, a violation and a loop do where values are sought for
//! the open inputs of a witness. In it the runs that a circuit follows are these runs.
#![tactic(auto)]

mod laws;

pub use laws::{
    hits_are_failures, runs_that_seek_cost_their_weight_at_most, sought_runs_are_judged,
};
