//! Places in a witness: where its bytes stop to be readable, and where a path of its tree stands. The reader of
//! witnesses reports no places, so they are found by reading fronts of the text: a front is completed by closing what is
//! open in it, and the reader itself says whether it can be read, and what stands in it.
#![tactic(auto)]

mod fronts;
mod near;
mod numbers;
mod opened;
mod paths;
mod stopping;
mod within;

pub use near::is_near;
pub use numbers::{invariant_path, waypoint_path};
pub use paths::{Step, place_of_path, places_in, reached, steps_of};
pub use stopping::{first_bad, is_cut, repeated_at, stopped_at};
pub use within::place_in_value;
