//! The obligations of a program with invariants, in their order, and what holds of them.
#![tactic(auto)]

mod laws;
mod obligations;
mod sorting;
mod violating;
mod walk;

pub use laws::{duties_are_in_order, duties_differ, failing_runs_fail_at_duties};
pub use obligations::duties;
pub use violating::node_may_overflow;
