//! Runs with a bound, which values are hits within it, how judged runs in the mode of runs that seek end, and what runs
//! with a bound weigh, computed on example programs by the definitions of `seek_meaning`, `seek_mode` and
//! `seek_weight`: no crate stands on it.
#![tactic(auto)]

mod examples;
