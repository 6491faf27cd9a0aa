// Which segments an event can move, found by its place.
ghost use Rattle.std.specs.Prelude.{◌≡◌, ℕ, true, false, nat_eq, ◌||◌, [], ◌∷◌, ◌++◌, cond, Option, None, Some, IfOk, OnOk};
ghost use Rattle.c_core.specs.declared.number.Spot.{Spot};
ghost use Rattle.c_meaning.specs.Watching.{event_spot};
ghost use Rattle.way_match.specs.inside.ByPlace.{is_marked, IsClear, moved, numbers_for, numbers_in, same_place};
ghost use Rattle.way_match.specs.View.{each_segment_view, point_view, points_view};

use crate::point::{BoundSegment, Point};
use c_core::Spot;
use c_meaning::Event;
use std::alloc::Global;
use std::collections::BTreeMap;
use wv_base::OutOfMemory;

/// The numbers of the segments that have a waypoint at a place, by its line and column, and of those that have a
/// target. Lines where a waypoint stands are marked: at most events a look at the line shows that they move no segment.
#[derive(Drop)]
pub struct ByPlace {
    placed: BTreeMap<(u32, u32), Vec<usize>>,
    targets: Vec<usize>,
    lines: Vec<bool>,
}

// Marks a line, with room for it among the lines.
fn mark(lines: &mut Vec<bool>, line: u32) -> Result<(), OutOfMemory>
    ensures { OnOk result ((k : ℕ) → is_marked lines.new.items k ≡ (nat_eq line k || is_marked lines.old.items k)) }
{
    let at = line as usize;
    while lines.len() <= at {
        lines.push(false)?;
    }
    lines[at] = true;
    Ok(())
}

impl ByPlace {
    fn new(alloc: Global) -> ByPlace
        ensures numbers { (at : Option Spot) → numbers_in result at ≡ [] }
        ensures clear { IsClear result }
    {
        ByPlace {
            placed: BTreeMap::new(alloc),
            targets: Vec::new(alloc),
            lines: Vec::new(alloc),
        }
    }

    fn add_at(&mut self, alloc: Global, spot: Spot, number: usize) -> Result<(), OutOfMemory>
        requires { IsClear self.old }
        ensures clear { OnOk result (IsClear self.new) }
        ensures numbers { OnOk result ((at : Option Spot) → numbers_in self.new at ≡ numbers_in self.old at ++ cond
            (same_place (Some spot) at) (number ∷ []) []) }
    {
        mark(&mut self.lines, spot.line)?;
        let place = (spot.line, spot.column);
        let mut numbers = match self.placed.remove(&place) {
            Some(numbers) => numbers,
            None => Vec::new(alloc),
        };
        numbers.push(number)?;
        self.placed.insert(place, numbers)?;
        Ok(())
    }

    fn add(&mut self, alloc: Global, point: &Point, number: usize) -> Result<(), OutOfMemory>
        requires { IsClear self.old }
        ensures clear { OnOk result (IsClear self.new) }
        ensures numbers { OnOk result ((at : Option Spot) → numbers_in self.new at
            ≡ numbers_in self.old at ++ numbers_for at number (point_view point.now ∷ [])) }
    {
        match point {
            Point::Assume(spot, _) => self.add_at(alloc, *spot, number),
            Point::Target(_) => {
                self.targets.push(number)?;
                Ok(())
            }
            Point::Enter(close) => self.add_at(alloc, *close, number),
            Point::Return(close, _) => self.add_at(alloc, *close, number),
            Point::Branch(spot, _) => self.add_at(alloc, *spot, number),
        }
    }

    fn add_each(
        &mut self,
        alloc: Global,
        points: &[Point],
        number: usize,
    ) -> Result<(), OutOfMemory>
        requires { IsClear self.old }
        ensures clear { OnOk result (IsClear self.new) }
        ensures numbers { OnOk result ((at : Option Spot) → numbers_in self.new at
            ≡ numbers_in self.old at ++ numbers_for at number (points_view points.now)) }
    {
        for point in points {
            self.add(alloc, point, number)?;
        }
        Ok(())
    }

    /// The segments by the places of their waypoints.
    pub fn of(alloc: Global, segments: &[BoundSegment]) -> Result<ByPlace, OutOfMemory>
        ensures numbers { IfOk result (λ found. (at : Option Spot) → numbers_in found at
            ≡ moved at 0 (each_segment_view segments.now)) }
        ensures clear { IfOk result IsClear }
    {
        let mut found = ByPlace::new(alloc);
        for (number, segment) in segments.iter().enumerate() {
            found.add_each(alloc, segment.avoids.as_slice(), number)?;
            found.add(alloc, &segment.follow, number)?;
        }
        Ok(found)
    }

    /// Whether an event at this place may move a segment, by its line alone.
    #[inline(always)]
    pub fn is_watched(&self, spot: Spot) -> bool
        requires { IsClear self.now }
        ensures { result ≡ false → numbers_in self.now (Some spot) ≡ [] }
    {
        match self.lines.get(spot.line as usize) {
            Some(marked) => *marked,
            None => false,
        }
    }

    fn at(&self, spot: Spot) -> &[usize]
        ensures { result.now ≡ numbers_in self.now (Some spot) }
    {
        match self.placed.get(&(spot.line, spot.column)) {
            Some(numbers) => numbers.as_slice(),
            None => &[],
        }
    }

    /// The numbers of the segments that an event can move, ascending; one may come more than once.
    pub fn numbers(&self, event: Event) -> &[usize]
        ensures { result.now ≡ numbers_in self.now (event_spot event) }
    {
        match event {
            Event::At(spot) => self.at(spot),
            Event::Enter(close) => self.at(close),
            Event::Return(close, _) => self.at(close),
            Event::Branch(spot, _) => self.at(spot),
            Event::Fail { .. } => self.targets.as_slice(),
        }
    }
}
