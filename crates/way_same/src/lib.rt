//! Typed trees that are the same, and numbers of trees, by which equal ones are found.
#![tactic(auto)]

mod key;
mod same;

pub use key::key_of;
pub use same::is_same;
