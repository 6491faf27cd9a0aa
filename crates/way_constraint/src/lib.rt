//! Expressions of witnesses over a checked program: their typed trees, by the names that stand where they are bound.
#![tactic(auto)]

mod check;
mod known;
mod names;
mod words;

pub use check::{check_at, check_expr};
