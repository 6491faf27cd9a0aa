// What is derived from a conflict: the clause and the steps of its chain, on the way.
use crate::cells::{at, filled, put};
use crate::lit::Lit;
use crate::places::Places;
use clauses::Resolve;
use std::alloc::Global;
use wv_base::OutOfMemory;

/// What a conflict has made of a variable.
#[derive(Clone, Copy)]
pub enum Mark {
    Unseen,
    /// its literal is in the clause
    Held,
    /// reasons lead from it to literals of the clause
    Redundant,
    /// they don't
    Needed,
    /// it is resolved away
    Resolved,
}

/// A conflict on its way to a learnt clause: marks, the clause so far, the steps of its resolution.
#[derive(Drop)]
pub struct Conflict {
    marks: Vec<Mark>,
    /// the variables with a mark
    marked: Vec<u32>,
    /// the learned clause, its asserting literal first
    pub learned: Vec<Lit>,
    /// the steps of its chain
    pub steps: Vec<Resolve>,
    /// the places of the variables of level 0 that are to be resolved away
    pub fixed: Places,
    /// how many marked literals of the latest level are left
    pub open: u32,
    /// places of redundant variables
    pub places: Vec<u32>,
    /// the levels of the learned clause bear the latest stamp
    stamps: Vec<u32>,
    stamp: u32,
    /// how many levels there are, but for the latest
    pub levels: u32,
}

impl Conflict {
    /// Room for the marks of these variables.
    pub fn new(alloc: Global, variables: u32) -> Result<Conflict, OutOfMemory> {
        Ok(Conflict {
            marks: filled(alloc, variables as usize + 1, Mark::Unseen)?,
            marked: Vec::new(alloc),
            learned: Vec::new(alloc),
            steps: Vec::new(alloc),
            fixed: Places::new(alloc, variables as usize + 1)?,
            open: 0,
            places: Vec::new(alloc),
            stamps: filled(alloc, variables as usize + 1, 0)?,
            stamp: 1,
            levels: 0,
        })
    }

    /// The mark of a variable.
    #[inline(always)]
    pub fn mark_of(&self, variable: usize) -> Mark {
        at(&self.marks, variable, Mark::Unseen)
    }

    /// Whether a variable has no mark.
    #[inline(always)]
    pub fn is_unseen(&self, variable: usize) -> bool {
        matches!(self.mark_of(variable), Mark::Unseen)
    }

    /// Marks a variable, to be forgotten with the conflict.
    pub fn mark(&mut self, variable: u32, mark: Mark) -> Result<(), OutOfMemory> {
        self.marked.push(variable)?;
        put(&mut self.marks, variable as usize, mark);
        Ok(())
    }

    /// Gives a marked variable another mark.
    pub fn remark(&mut self, variable: usize, mark: Mark) {
        put(&mut self.marks, variable, mark);
    }

    /// Notes a resolution with a clause on a variable.
    pub fn step(&mut self, with: u32, on: u32) -> Result<(), OutOfMemory> {
        self.steps.push(Resolve { with, on })?;
        Ok(())
    }

    /// Forgets a conflict.
    pub fn clear(&mut self) {
        for place in 0..self.marked.len() {
            let variable = at(&self.marked, place, 0);
            put(&mut self.marks, variable as usize, Mark::Unseen);
        }
        self.marked.clear();
        self.learned.clear();
        self.steps.clear();
        self.places.clear();
        self.open = 0;
        self.levels = 0;
        self.stamp = self.stamp.wrapping_add(1);
    }

    /// Tells that the learned clause has a literal of a level.
    pub fn stamp_level(&mut self, level: u32) {
        if !self.has_level(level) {
            put(&mut self.stamps, level as usize, self.stamp);
            self.levels = self.levels.wrapping_add(1);
        }
    }

    /// Whether the learned clause has a literal of a level.
    pub fn has_level(&self, level: u32) -> bool {
        at(&self.stamps, level as usize, 0) == self.stamp
    }
}
