//! Values for the open inputs of a violation witness: which values are sought within a bound on turns and calls, and
//! the runs by which they are found, with no steps and no events, that hit exactly for these values.
#![tactic(auto)]

mod laws;

pub use laws::{
    bounded_runs_agree, bounded_runs_are_short, enough_steps_show, few_steps_have_room,
    hits_exactly,
};
