//! The arguments of the command line. `read_words` says what they ask for, as the crate `clap` reads them.
#![tactic(auto)]

mod command;
mod examples;
mod reading;
mod request;

pub use reading::read_words;
pub use request::{Asked, Budgets, Label, Names, Request, Sources};
