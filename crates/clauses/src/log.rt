// Logs of resolution.
use crate::{Clause, Cnf};
use wv_base::Seq;

/// Resolution with the clause of a number, on a variable.
#[derive(Clone, Copy)]
pub struct Resolve {
    pub with: u32,
    pub on: u32,
}

/// A clause that is derived: from the clause `start`, one resolution after the other. Clauses are numbered from 1, the
/// given ones first, then what earlier chains give.
#[derive(Drop)]
pub struct Chain {
    pub start: u32,
    pub steps: Seq<Resolve>,
    pub gives: Clause,
}

/// A log: chains, each of which gives a clause; a refutation where the last clause is empty.
#[derive(Drop)]
pub struct Refutation {
    pub chains: Seq<Chain>,
}

/// What shows that a budget was spent: clauses, and the log of what was derived from them.
#[derive(Drop)]
pub struct SpentAt {
    pub clauses: Cnf,
    pub log: Refutation,
}
