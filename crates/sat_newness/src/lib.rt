//! Logs that are spent. Its promise: where `find_spent` gives a spent log, the log is accepted and has exactly as many
//! chains as the budget, each clause that it gives is new to unit propagation, and the budget is no more than the
//! variables that decide the clauses allow.
#![tactic(auto)]

mod database;
mod newness;
mod pairs;
mod spent;
mod table;
mod undecided;

pub use database::clause_at;
pub use spent::{Kept, find_spent};
