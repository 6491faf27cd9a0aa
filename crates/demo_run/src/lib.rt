//! Laws on the faulty program of a demo: its typed program, and the run that its violation witness gives.
#![tactic(auto)]

mod laws;

pub use laws::{demos_are_confirmed, demos_are_typed, demos_violate};
