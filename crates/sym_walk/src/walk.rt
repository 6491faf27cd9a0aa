// What a walk reads.
use c_core::Program;
use std::alloc::Global;
use sym_invariants::Obliging;
use way_match::BoundSegment;

/// The mode of runs that seek: the segments of a witness, and how often each loop's body is begun at most on each
/// arrival at the loop.
#[derive(Clone, Copy)]
pub struct Seeking<'a> {
    pub segments: &'a [BoundSegment],
    pub turns: u32,
}

/// What is judged of a program: obligations, or where its runs hit what a witness asks.
#[derive(Clone, Copy)]
pub enum Judging<'a> {
    Obliges(Obliging<'a>),
    Seeks(Seeking<'a>),
}

/// What a walk over a program reads: the program, and what is judged of it.
#[derive(Clone, Copy)]
pub struct Walk<'a> {
    pub alloc: Global,
    pub program: &'a Program,
    pub mode: Judging<'a>,
}
