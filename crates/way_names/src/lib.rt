//! The names that a witness may use at a place of a program: the objects that are visible there.
#![tactic(auto)]

mod examples;
mod keys;
mod named;
mod names;
mod places;
mod scope;
mod statics;
mod versions;
mod walk;

pub use named::{NamedObjects, NamesAt};
pub use names::names_at;
