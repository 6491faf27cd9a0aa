//! Refutations for other checkers: the clauses of an obligation as DIMACS CNF, and its log as LRAT. Its promise: the
//! bytes are exactly these texts. A chain's clauses from its end to its start are the hints of its line.
#![tactic(auto)]

mod chain_lines;
mod clause_lines;
mod exporting;

pub use chain_lines::lrat;
pub use clause_lines::dimacs;
pub use exporting::{Exported, export};

#[cfg(test)]
mod tests;
