//! Runs and havoc runs of example programs, computed by the definitions of `c_meaning`, and what the invariant of
//! programs says of worked programs and where their places are, by those of `c_core`: no crate of the product stands on
//! these.
#![tactic(auto)]

mod examples;
mod worked;
