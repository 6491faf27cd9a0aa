//! A solver for clauses. Its one promise: it gives values that satisfy every clause, or a log of resolution down to the
//! empty clause, or a log of as many new clauses as the budget allows.
#![tactic(auto)]

mod analyze;
mod check;
mod laws;
mod plain;
mod propagate;
mod solver;
mod trail;

pub use laws::all_variables_decide;
pub use solver::{Answer, solve};
