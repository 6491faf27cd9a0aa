//! Certificates: a refutation of each obligation of a program, as a text. Its promises: `certify` writes exactly the
//! text of the logs, and `read_certificate` reads exactly it; where `recheck` says yes, each log refutes the clauses of
//! its failing bit, so no run of the program violates the property. It doesn't stand on the solver, which found the
//! logs.
#![tactic(auto)]

mod checking;
mod cursor;
mod fault;
mod laws;
mod numbers;
mod reading;
mod rechecking;
mod writing;

pub use checking::{Rechecked, recheck_bits};
pub use fault::CertFault;
pub use laws::{accepted_is_yes, one_list, read_back};
pub use reading::read_certificate;
pub use rechecking::recheck;
pub use writing::certify;

#[cfg(test)]
mod tests;
