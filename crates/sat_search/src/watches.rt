// Which clauses watch a literal, that is, are looked at when it becomes false.
use crate::cells::{at, filled, put};
use crate::lit::Lit;
use std::alloc::Global;
use wv_base::OutOfMemory;

/// A clause, and another literal of it: where that one is true, nothing need be done.
#[derive(Clone, Copy)]
pub struct Watch {
    /// twice the index of the clause, and one more where it has two literals
    name: u32,
    pub blocker: Lit,
}

/// Fills places that no watch has.
const NO_WATCH: Watch = Watch {
    name: 0,
    blocker: Lit { code: 0 },
};

impl Watch {
    /// A clause of so many literals, and one of them.
    pub fn new(clause: u32, count: u32, blocker: Lit) -> Watch {
        let name = clause.wrapping_mul(2);
        Watch {
            name: if count == 2 { name | 1 } else { name },
            blocker,
        }
    }

    /// The same clause, and another literal of it.
    #[inline(always)]
    pub fn by(self, blocker: Lit) -> Watch {
        Watch {
            name: self.name,
            blocker,
        }
    }

    /// The index of the clause.
    #[inline(always)]
    pub fn clause(self) -> u32 {
        self.name / 2
    }

    /// Whether the clause has two literals, of which the blocker is the one that isn't watched here.
    #[inline(always)]
    pub fn is_pair(self) -> bool {
        self.name & 1 == 1
    }
}

/// Where the watches of a literal stand, how many there are, and for how many there is room.
#[derive(Clone, Copy)]
pub struct Part {
    start: usize,
    pub count: u32,
    room: u32,
}

const NO_PART: Part = Part {
    start: 0,
    count: 0,
    room: 0,
};

/// So many watches of a literal have room at first.
const FIRST: u32 = 4;

/// For each literal, the clauses that watch it: all in one list, of which each literal has a part.
#[derive(Drop)]
pub struct Watches {
    parts: Vec<Part>,
    watches: Vec<Watch>,
}

impl Watches {
    /// No clause watches a literal of these variables.
    pub fn new(alloc: Global, variables: u32) -> Result<Watches, OutOfMemory> {
        Ok(Watches {
            parts: filled(alloc, 2 * (variables as usize + 1), NO_PART)?,
            watches: Vec::new(alloc),
        })
    }

    // copies a part to the end of the list, where it has room for twice as many
    fn widen(&mut self, part: Part) -> Result<Part, OutOfMemory> {
        if part.room >= 1 << 31 {
            return Err(OutOfMemory);
        }
        let start = self.watches.len();
        let room = (part.room * 2).max(FIRST);
        for place in 0..room {
            let watch = if place < part.count {
                self.get(part, place)
            } else {
                NO_WATCH
            };
            self.watches.push(watch)?;
        }
        Ok(Part {
            start,
            count: part.count,
            room,
        })
    }

    /// Has a clause watch a literal.
    pub fn add(&mut self, literal: Lit, watch: Watch) -> Result<(), OutOfMemory> {
        let mut part = self.part(literal.index());
        if part.count >= part.room {
            part = self.widen(part)?;
        }
        self.set(part, part.count, watch);
        part.count = part.count.wrapping_add(1);
        put(&mut self.parts, literal.index(), part);
        Ok(())
    }

    /// How many literals there are.
    pub fn count(&self) -> usize {
        self.parts.len()
    }

    /// The part of a literal.
    #[inline(always)]
    pub fn part(&self, literal: usize) -> Part {
        at(&self.parts, literal, NO_PART)
    }

    /// The watch at a place of a part.
    #[inline(always)]
    pub fn get(&self, part: Part, place: u32) -> Watch {
        at(
            &self.watches,
            part.start.wrapping_add(place as usize),
            NO_WATCH,
        )
    }

    /// Writes a watch to a place of a part.
    #[inline(always)]
    pub fn set(&mut self, part: Part, place: u32, watch: Watch) {
        put(
            &mut self.watches,
            part.start.wrapping_add(place as usize),
            watch,
        );
    }

    /// Leaves the first watches of a literal.
    #[inline(always)]
    pub fn truncate(&mut self, literal: usize, count: u32) {
        let mut part = self.part(literal);
        part.count = count;
        put(&mut self.parts, literal, part);
    }
}
