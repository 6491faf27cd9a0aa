//! Runs programs with invariants as havoc runs: a list of values is drawn in turn, and each loop is done by its
//! invariants.
#![tactic(auto)]

mod calls;
mod declarations;
mod expressions;
mod full_expressions;
mod loops;
mod run;
mod statements;

pub use run::run_havoc;
