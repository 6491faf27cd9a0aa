//! The symbolic state of all judged runs of a program at once: a net, and bits of it that tell of each run where it is
//! and what its cells hold. Its one promise: each call turns the state as it says under every input of the net, with at
//! most the and-nodes that it states.
#![tactic(auto)]

mod cells;
mod drawing;
mod ending;
mod state;

pub use cells::{look, place_of, write};
pub use drawing::draw;
pub use ending::{fail, join, narrow, stop, violate};
pub use state::{Around, DrawSite, Sym, SymCell};
