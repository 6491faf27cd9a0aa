//! The clause form of a bit of a net, and logs of resolution. Its promises: the clauses are true exactly where each
//! variable has the value of its node and the bit is true, so they can be satisfied exactly where some inputs make the
//! bit true; and where `accepts` takes a log, no assignment satisfies the clauses.
#![tactic(auto)]

mod accept;
mod clause;
mod cnf;
mod log;
mod numbering;
mod numbers;
mod reach;
mod table;

pub use accept::{accepts, accepts_log};
pub use clause::Clause;
pub use cnf::{Cnf, cnf_of};
pub use log::{Chain, Refutation, Resolve, SpentAt};
