// The segments of a violation sequence in the program that is run, and what an event does to a way that waits for one
// of them.
use crate::passing::{is_at, passes};
use crate::placed::Placed;
use c_core::Program;
use c_meaning::{Event, Memory};
use std::alloc::Global;
use way_match::{Bound, BoundSegment, Point};
use way_places::Index;
use wv_base::OutOfMemory;

/// What was seen of a segment while all before it were passed.
#[derive(Clone, Copy)]
pub struct Waiting {
    /// Whether a way came so far.
    pub is_reached: bool,
    /// Whether a way that came so far is still open: no waypoint to avoid was passed since.
    pub is_open: bool,
    /// How often the place of its waypoint to follow was come by.
    pub visits: u64,
    /// How often a waypoint to avoid ended the way.
    pub avoided: u64,
}

/// How a way comes to a segment by an event: not, or by a waypoint to follow that is an assumption or another.
#[derive(Clone, Copy)]
pub enum Coming {
    Not,
    ByAssumption,
    ByOther,
}

fn is_assumption(point: &Point) -> bool {
    matches!(point, Point::Assume(_, _))
}

/// The segments, found by the places of their waypoints, and the program.
#[derive(Drop)]
pub struct Route<'a> {
    alloc: Global,
    index: &'a Index<'a>,
    bound: &'a Bound,
    placed: Placed,
}

impl<'a> Route<'a> {
    pub fn new(
        alloc: Global,
        index: &'a Index<'a>,
        bound: &'a Bound,
    ) -> Result<Route<'a>, OutOfMemory> {
        let placed = Placed::new(alloc, bound.segments.as_slice())?;
        Ok(Route {
            alloc,
            index,
            bound,
            placed,
        })
    }

    /// The segments from this number, from 0, on.
    pub fn behind(&self, number: usize) -> &[BoundSegment] {
        let segments = self.bound.segments.as_slice();
        match segments.get(number..) {
            Some(rest) => rest,
            None => &[],
        }
    }

    /// The numbers of the segments that an event may move. They rise, and one may come more than once.
    pub fn numbers(&self, event: Event) -> &[usize] {
        self.placed.numbers(event)
    }

    fn is_passed(&self, point: &Point, event: Event, memory: &Memory) -> bool {
        passes(self.alloc, self.index, point, event, memory)
    }

    /// The waypoint to avoid of a segment, by its number in it from 0, that an event passes.
    pub fn avoided_at(
        &self,
        segment: &BoundSegment,
        event: Event,
        memory: &Memory,
    ) -> Option<usize> {
        for (number, point) in segment.avoids.as_slice().iter().enumerate() {
            if self.is_passed(point, event, memory) {
                return Some(number);
            }
        }
        None
    }

    /// The program, and the places of what witnesses name in it.
    pub fn index(&self) -> &Index<'a> {
        self.index
    }

    pub fn program(&self) -> &'a Program {
        self.index.program()
    }

    /// What comes of a way that waits for a segment, and whether it passes it.
    fn waited(
        &self,
        before: Waiting,
        segment: &BoundSegment,
        event: Event,
        memory: &Memory,
    ) -> (Waiting, bool) {
        let mut after = before;
        if !before.is_open {
            return (after, false);
        }
        if is_at(&segment.follow, event) {
            after.visits = after.visits.saturating_add(1);
        }
        if self.avoided_at(segment, event, memory).is_some() {
            after.is_open = false;
            after.avoided = after.avoided.saturating_add(1);
            return (after, false);
        }
        let passed = self.is_passed(&segment.follow, event, memory);
        (after, passed)
    }

    /// What comes of the ways that wait for a segment, where one more may come to it, by an event that may pass two;
    /// and how a way comes to the next segment by it.
    pub fn turn(
        &self,
        before: Waiting,
        comes: Coming,
        segment: &BoundSegment,
        event: Event,
        memory: &Memory,
    ) -> (Waiting, Coming) {
        let (waited, goes) = self.waited(before, segment, event, memory);
        let mut after = waited;
        let mut passed = goes;
        let assumes = is_assumption(&segment.follow);
        if !passed && assumes && matches!(comes, Coming::ByAssumption) {
            passed = self.is_passed(&segment.follow, event, memory);
        }
        if !matches!(comes, Coming::Not) {
            after.is_reached = true;
            after.is_open = true;
        }
        (after, coming_by(passed, assumes))
    }
}

/// How a way comes to the next segment where it passed one, whose waypoint to follow is an assumption or another.
fn coming_by(passed: bool, assumes: bool) -> Coming {
    if !passed {
        Coming::Not
    } else if assumes {
        Coming::ByAssumption
    } else {
        Coming::ByOther
    }
}
