//! Weeds guessed invariants: of a set it keeps the greatest part that is inductive, so no inductive part is lost.
#![tactic(auto)]

mod copies;
mod known;
mod numbers;
mod rounds;
mod weeding;

pub use weeding::{Weeded, weed};
