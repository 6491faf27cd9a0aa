// Learned clauses that no longer help are looked at no more. They stay in the log, and in the arena as what chains rest
// on.
use crate::cells::{at, put};
use crate::search::Search;
use std::alloc::Global;
use wv_base::OutOfMemory;

/// What is known of a clause's use: how many levels its literals had, and the conflict that it took part in last.
#[derive(Clone, Copy)]
pub struct Use {
    pub levels: u32,
    pub last: u32,
    pub dropped: bool,
}

/// A learnt clause that no conflict has used yet.
pub const UNUSED: Use = Use {
    levels: 0,
    last: 0,
    dropped: false,
};

/// A clause whose literals had no more levels is kept.
const FEW: u32 = 2;

/// After so many conflicts clauses are dropped first, and then each time after so many more.
const FIRST: u32 = 1000;

const MORE: u32 = 100;

/// When clauses are dropped.
#[derive(Drop)]
pub struct Reduction {
    pub uses: Vec<Use>,
    pub conflicts: u32,
    since: u32,
    interval: u32,
}

impl Reduction {
    /// No clause was reduced yet.
    pub fn new(alloc: Global) -> Reduction {
        Reduction {
            uses: Vec::new(alloc),
            conflicts: 0,
            since: 0,
            interval: FIRST,
        }
    }

    /// A conflict more.
    pub fn count(&mut self) {
        self.conflicts = self.conflicts.saturating_add(1);
        self.since = self.since.saturating_add(1);
    }

    /// Whether enough clauses were learnt since the last reduction.
    pub fn is_due(&self) -> bool {
        self.since >= self.interval
    }

    /// A clause took part in a conflict.
    #[inline(always)]
    pub fn touch(&mut self, clause: u32) {
        let mut known = at(&self.uses, clause as usize, UNUSED);
        known.last = self.conflicts;
        put(&mut self.uses, clause as usize, known);
    }

    /// A clause more, whose literals have so many levels.
    pub fn add(&mut self, levels: u32) -> Result<(), OutOfMemory> {
        self.uses.push(Use {
            levels,
            last: self.conflicts,
            dropped: false,
        })?;
        Ok(())
    }

    // the clauses behind the given ones that may be dropped, each as a number that is greater the less it helps
    fn candidates(&self, alloc: Global, given: u32) -> Result<Vec<u64>, OutOfMemory> {
        let mut found = Vec::new(alloc);
        let recent = self.conflicts.saturating_sub(self.interval / 2);
        for clause in given as usize..self.uses.len() {
            let known = at(&self.uses, clause, UNUSED);
            if !known.dropped && known.levels > FEW && known.last < recent {
                found.push(((known.levels as u64) << 32) | (clause as u64 & 0xffff_ffff))?;
            }
        }
        found.sort_unstable();
        Ok(found)
    }

    // drops the half that helps least
    fn drop_half(&mut self, alloc: Global, given: u32) -> Result<(), OutOfMemory> {
        let found = self.candidates(alloc, given)?;
        for place in found.len() / 2..found.len() {
            let clause = (found[place] & 0xffff_ffff) as usize;
            let mut known = at(&self.uses, clause, UNUSED);
            known.dropped = true;
            put(&mut self.uses, clause, known);
        }
        self.since = 0;
        self.interval = self.interval.saturating_add(MORE);
        Ok(())
    }
}

impl Search {
    // leaves the dropped clauses out of what watches a literal
    fn filter_watches(&mut self, literal: usize) {
        let part = self.watches.part(literal);
        let mut kept = 0u32;
        for place in 0..part.count {
            let watch = self.watches.get(part, place);
            if !at(&self.reduction.uses, watch.clause() as usize, UNUSED).dropped {
                self.watches.set(part, kept, watch);
                kept = kept.wrapping_add(1);
            }
        }
        self.watches.truncate(literal, kept);
    }

    /// Drops clauses, at level 0.
    pub fn reduce(&mut self) -> Result<(), OutOfMemory> {
        self.reduction.drop_half(self.alloc, self.given)?;
        for literal in 0..self.watches.count() {
            self.filter_watches(literal);
        }
        Ok(())
    }
}
