//! What a loop leaves as it was: at its head each cell that lived at the loop's arrival lives on, and holds another
//! value only where the loop changes its object.
#![tactic(auto)]

mod laws;

pub use laws::{heads_are_framed, others_read_as_before, turns_are_framed};
