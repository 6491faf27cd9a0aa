//! Weights of example programs, computed by the definitions of `sym_weight` and counted by hand: no crate of the
//! product stands on these.
#![tactic(auto)]

mod examples;
