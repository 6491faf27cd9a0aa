//! Expressions: their typed trees, which of their parts are refused, and the values of constant ones.
#![tactic(auto)]

mod constants;
mod context;
mod literals;
mod nodes;
mod operators;
mod own;
mod trees;
mod words;

pub use constants::constant;
pub use trees::expression;
