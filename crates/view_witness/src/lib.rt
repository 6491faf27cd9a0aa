//! What is wrong in a witness, at its place in it: it can't be read, doesn't meet the schema, is about another task, or
//! has keys that aren't read.
#![tactic(auto)]

mod explained;
mod formats;
mod known;
mod shape;
mod tasks;
mod unread;
mod warned;

pub use explained::{explain_schema, explain_yaml};
pub use tasks::explain_task;
pub use warned::warn_of_unread;
