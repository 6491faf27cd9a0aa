//! What an event of a run does to the segments of a witness, as circuits: the bits of the numbers of segments that some
//! fitting positions have completed, and at a violation whether it completes them all.
#![tactic(auto)]

mod events;
mod laws;
mod segment;

pub use events::{after, any, completes_all};
pub use laws::events_are_followed;
pub use segment::Passing;
