//! Laws on what the checks of names, types and order find in the programs of a demo: no refusal applies to them.
#![tactic(auto)]

mod laws;

pub use laws::{demos_are_checked, demos_have_programs};
