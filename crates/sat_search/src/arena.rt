// The clauses of the search: the given ones, then the learned ones, in one list of literals.
use crate::cells::{at, put};
use crate::lit::Lit;
use clauses::Clause;
use std::alloc::Global;
use wv_base::{OutOfMemory, Seq};

/// Where the literals of a clause stand.
#[derive(Clone, Copy)]
pub struct Span {
    pub start: u32,
    pub count: u32,
}

/// No clause has this index; those of clauses are below 2^31.
pub const NO_CLAUSE: u32 = 0xffff_ffff;

/// The literals of all clauses, one after another.
#[derive(Drop)]
pub struct Arena {
    literals: Vec<Lit>,
    spans: Vec<Span>,
}

const NONE: Lit = Lit { code: 0 };

impl Arena {
    /// No clauses.
    pub fn new(alloc: Global) -> Arena {
        Arena {
            literals: Vec::new(alloc),
            spans: Vec::new(alloc),
        }
    }

    /// The index of the last clause.
    pub fn last(&self) -> u32 {
        let count = self.spans.len();
        if 0 < count && count < 1 << 31 {
            count as u32 - 1
        } else {
            NO_CLAUSE
        }
    }

    /// Where the literals of a clause stand.
    #[inline(always)]
    pub fn span(&self, clause: u32) -> Span {
        at(&self.spans, clause as usize, Span { start: 0, count: 0 })
    }

    /// The literal at a place.
    #[inline(always)]
    pub fn literal(&self, place: usize) -> Lit {
        at(&self.literals, place, NONE)
    }

    /// Writes a literal to a place.
    #[inline(always)]
    pub fn set_literal(&mut self, place: usize, literal: Lit) {
        put(&mut self.literals, place, literal);
    }

    /// Ends a clause of the last so many literals: its index.
    fn close(&mut self, count: usize) -> Result<u32, OutOfMemory> {
        let all = self.literals.len();
        if all > 0xffff_fff0 || count > all || self.spans.len() >= 1 << 31 {
            return Err(OutOfMemory);
        }
        let index = self.spans.len() as u32;
        self.spans.push(Span {
            start: (all - count) as u32,
            count: count as u32,
        })?;
        Ok(index)
    }

    /// A clause more: its index.
    pub fn push(&mut self, literals: &[Lit]) -> Result<u32, OutOfMemory> {
        self.literals.extend_from_slice(literals)?;
        self.close(literals.len())
    }

    /// A given clause.
    pub fn push_given(&mut self, clause: &Clause) -> Result<u32, OutOfMemory> {
        let numbers = clause.numbers();
        for number in numbers {
            self.literals.push(Lit::of_number(*number))?;
        }
        self.close(numbers.len())
    }

    /// The numbers of a clause, in rising order.
    pub fn numbers(&self, alloc: Global, clause: u32) -> Result<Seq<i32>, OutOfMemory> {
        let span = self.span(clause);
        let first = span.start as usize;
        let mut numbers = Vec::with_capacity(alloc, span.count as usize)?;
        for place in first..first + span.count as usize {
            numbers.push(self.literal(place).number())?;
        }
        numbers.sort_unstable();
        Ok(Seq::from_vec(numbers))
    }
}
