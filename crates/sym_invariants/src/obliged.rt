// A program with its obligations.
use c_core::Program;
use c_meaning::{Duty, PlacedInvariant};
use std::alloc::Global;

/// The mode of obligations: the invariants of a program in witness order, and its obligations in theirs.
#[derive(Clone, Copy)]
pub struct Obliging<'a> {
    pub invariants: &'a [PlacedInvariant],
    pub duties: &'a [Duty],
}

/// A program with its invariants and obligations.
#[derive(Clone, Copy)]
pub struct Obliged<'a> {
    pub alloc: Global,
    pub program: &'a Program,
    pub mode: Obliging<'a>,
}
