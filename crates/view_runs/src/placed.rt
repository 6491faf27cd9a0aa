// Which segments of a violation sequence have a waypoint at the place of an event.
use c_core::Spot;
use c_meaning::Event;
use std::alloc::Global;
use std::collections::BTreeMap;
use way_match::{BoundSegment, Point};
use wv_base::OutOfMemory;

/// The numbers, from 0, of the segments that have a waypoint at a place, by its line and column, and of those that have
/// a target. They rise, and one may come more than once.
#[derive(Drop)]
pub struct Placed {
    spots: BTreeMap<(u32, u32), Vec<usize>>,
    targets: Vec<usize>,
}

impl Placed {
    /// The segments by the places of their waypoints.
    pub fn new(alloc: Global, segments: &[BoundSegment]) -> Result<Placed, OutOfMemory> {
        let mut placed = Placed {
            spots: BTreeMap::new(alloc),
            targets: Vec::new(alloc),
        };
        for (number, segment) in segments.iter().enumerate() {
            placed.add_each(alloc, segment.avoids.as_slice(), number)?;
            placed.add(alloc, &segment.follow, number)?;
        }
        Ok(placed)
    }

    fn add_at(&mut self, alloc: Global, spot: Spot, number: usize) -> Result<(), OutOfMemory> {
        let place = (spot.line, spot.column);
        let mut numbers = match self.spots.remove(&place) {
            Some(numbers) => numbers,
            None => Vec::new(alloc),
        };
        numbers.push(number)?;
        self.spots.insert(place, numbers)?;
        Ok(())
    }

    fn add(&mut self, alloc: Global, point: &Point, number: usize) -> Result<(), OutOfMemory> {
        match point {
            Point::Assume(spot, _) => self.add_at(alloc, *spot, number),
            Point::Target(_) => {
                self.targets.push(number)?;
                Ok(())
            }
            Point::Enter(close) => self.add_at(alloc, *close, number),
            Point::Return(close, _) => self.add_at(alloc, *close, number),
            Point::Branch(spot, _) => self.add_at(alloc, *spot, number),
        }
    }

    fn add_each(
        &mut self,
        alloc: Global,
        points: &[Point],
        number: usize,
    ) -> Result<(), OutOfMemory> {
        for point in points {
            self.add(alloc, point, number)?;
        }
        Ok(())
    }

    fn at(&self, spot: Spot) -> &[usize] {
        match self.spots.get(&(spot.line, spot.column)) {
            Some(numbers) => numbers.as_slice(),
            None => &[],
        }
    }

    /// The numbers of the segments that an event may move.
    pub fn numbers(&self, event: Event) -> &[usize] {
        match event {
            Event::At(spot) => self.at(spot),
            Event::Enter(close) => self.at(close),
            Event::Return(close, _) => self.at(close),
            Event::Branch(spot, _) => self.at(spot),
            Event::Fail { .. } => self.targets.as_slice(),
        }
    }
}
