//! Which functions call which, whether main reaches a cycle of calls, and what a loop changes.
#![tactic(auto)]

mod declared;
mod found;
mod laws;
mod levels;
mod loop_changes;
mod loops;
mod marks;
mod recursion;
mod search;
mod uses;

pub use laws::{called_functions_are_found, depth_is_bounded};
pub use loop_changes::{changed, changed_in};
pub use recursion::{calls_itself, reached_functions};
