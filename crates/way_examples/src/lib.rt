//! Waypoints, matching, given values and verdicts, computed on example programs by the definitions of `way_match`: no
//! crate stands on it.
#![tactic(auto)]

mod examples;
