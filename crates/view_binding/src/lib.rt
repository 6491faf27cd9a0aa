//! Waypoints and invariants that aren't bound to a checked program: why, where they may be meant to stand, and what is
//! visible there.
#![tactic(auto)]

mod binding;
mod claim;
mod errors;
mod faults;
mod few;
mod invariants;
mod names;
mod near;
mod nearest;
mod scope;
mod seen;
mod unbound;
mod words;

pub use claim::{claim_of_invariant, head};
pub use few::{bind, segments_of};
pub use invariants::invariant_at;
pub use names::name_of;
pub use nearest::line_count;
pub use unbound::{explain_unbound_invariant, explain_unbound_waypoints};
