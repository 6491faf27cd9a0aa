//! Violation witnesses bound to a program: each waypoint to a place of its kind, its constraint to a typed expression
//! over the names in scope there. The least waypoint in document order that isn't bound is reported, by the first test
//! that it fails.
#![tactic(auto)]

mod binding;
mod fault;
mod laws;
mod lookup;
mod way;
mod waypoint;

pub use binding::{bind_over, bind_violation, told};
pub use fault::{BindFault, Unbound};
pub use laws::one_answer;
pub use lookup::Lookup;
pub use waypoint::{expression_at, place_named};
