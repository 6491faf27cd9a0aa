//! Laws on what the witnesses of a demo are bound to: no refusal applies to their waypoints and invariants.
#![tactic(auto)]

mod laws;

pub use laws::{sets_are_bound, sets_can_be_judged, violations_are_bound};
