//! What makes obligations hard: products, quotients and remainders of two values that aren't constants, in a program
//! and in its invariants. Its one promise: each of them is listed, by its place, and nothing else.
#![tactic(auto)]

mod bodies;
mod expressions;

pub use bodies::{products, products_of_invariants};
