// The distinct waypoints to avoid at each place: equal ones are held against an event once.
ghost use Rattle.std.specs.Prelude.{◌≡◌, ℕ, ◌<◌, true, [], ◌∷◌, ◌++◌, cond, length, slice_get, Some, IfOk, OnOk};
ghost use Rattle.std.specs.Option.{option_copied};
ghost use Rattle.c_core.specs.declared.number.Spot.{Spot};
ghost use Rattle.c_core.specs.Parts.{same_spot};
ghost use Rattle.way_match.specs.Points as pure;
ghost use Rattle.way_match.specs.inside.ByPlace.{point_spot};
ghost use Rattle.way_match.specs.inside.Avoided.{avoid_at, avoids_in, point_view_if, Covers, Longer, Stands, StandsThere};
ghost use Rattle.way_match.specs.View.{each_segment_view, point_view, points_view};

use crate::point::{BoundSegment, Point};
use crate::same::{number_of, same_point};
use c_core::Spot;
use std::alloc::Global;
use std::collections::BTreeMap;
use wv_base::OutOfMemory;

/// Where one of equal waypoints to avoid stands: the first of them.
#[derive(Clone, Copy, Debug, PartialEq, Eq)]
pub struct Avoided {
    pub segment: usize,
    pub at: usize,
}

/// For each place one of those that are equal, in witness order. A target has no place.
#[derive(Drop)]
pub struct Avoids {
    placed: BTreeMap<(u32, u32), Vec<Avoided>>,
}

// Where to look for an equal one: by place and key its number among those of the place.
type Known = BTreeMap<(u32, u32, u64), usize>;

fn point_at(points: &[Point], at: usize) -> Option<&Point>
    ensures { point_view_if (option_copied result) ≡ slice_get (points_view points.now) at }
{
    match points.get(at) {
        None => None,
        Some(point) => Some(point),
    }
}

/// The waypoint that stands there.
pub fn avoid_in<'a>(segments: &'a [BoundSegment], avoided: Avoided) -> Option<&'a Point>
    ensures { point_view_if (option_copied result) ≡ avoid_at (each_segment_view segments.now) avoided.segment
        avoided.at }
{
    match segments.get(avoided.segment) {
        None => None,
        Some(segment) => point_at(segment.avoids.as_slice(), avoided.at),
    }
}

fn is_that(segments: &[BoundSegment], avoided: Avoided, point: &Point) -> bool
    ensures { result ≡ true → avoid_at (each_segment_view segments.now) avoided.segment avoided.at
        ≡ Some (point_view point.now) }
{
    match avoid_in(segments, avoided) {
        None => false,
        Some(other) => same_point(other, point),
    }
}

// Whether one with that number is the waypoint.
fn stands(
    segments: &[BoundSegment],
    there: &[Avoided],
    at: usize,
    number: usize,
    point: &Point,
) -> bool
    ensures { result ≡ true → Stands (each_segment_view segments.now) there.now number (point_view point.now) }
{
    match there.get(at) {
        None => false,
        Some(avoided) => avoided.segment <= number && is_that(segments, *avoided, point),
    }
}

fn place_of(point: &Point) -> Option<Spot>
    ensures { result ≡ point_spot (point_view point.now) }
{
    match point {
        Point::Assume(spot, _) => Some(*spot),
        Point::Target(_) => None,
        Point::Enter(close) => Some(*close),
        Point::Return(close, _) => Some(*close),
        Point::Branch(spot, _) => Some(*spot),
    }
}

impl Avoids {
    fn new(alloc: Global) -> Avoids {
        Avoids {
            placed: BTreeMap::new(alloc),
        }
    }

    /// Those of a place.
    pub fn at(&self, spot: Spot) -> &[Avoided]
        ensures { result.now ≡ avoids_in self.now spot }
    {
        match self.placed.get(&(spot.line, spot.column)) {
            Some(there) => there.as_slice(),
            None => &[],
        }
    }

    fn push(&mut self, alloc: Global, spot: Spot, avoided: Avoided) -> Result<(), OutOfMemory>
        ensures { OnOk result ((q : Spot) → avoids_in self.new q
            ≡ avoids_in self.old q ++ cond (same_spot spot q) (avoided ∷ []) []) }
    {
        let place = (spot.line, spot.column);
        let mut there = match self.placed.remove(&place) {
            Some(there) => there,
            None => Vec::new(alloc),
        };
        there.push(avoided)?;
        self.placed.insert(place, there)?;
        Ok(())
    }

    fn add_at(
        &mut self,
        alloc: Global,
        known: &mut Known,
        segments: &[BoundSegment],
        spot: Spot,
        avoided: Avoided,
        point: &Point,
    ) -> Result<(), OutOfMemory>
        requires { avoid_at (each_segment_view segments.now) avoided.segment avoided.at ≡ Some (point_view point.now) }
        ensures longer { OnOk result ((q : Spot) → Longer (avoids_in self.old q) (avoids_in self.new q)) }
        ensures there { OnOk result (Stands (each_segment_view segments.now) (avoids_in self.new spot) avoided.segment
            (point_view point.now)) }
    {
        let key = (spot.line, spot.column, number_of(point));
        let there = self.at(spot);
        let last = there.len();
        if let Some(at) = known.get(&key) {
            if stands(segments, there, *at, avoided.segment, point) {
                return Ok(());
            }
        }
        known.insert(key, last)?;
        self.push(alloc, spot, avoided)
    }

    fn add(
        &mut self,
        alloc: Global,
        known: &mut Known,
        segments: &[BoundSegment],
        avoided: Avoided,
        point: &Point,
    ) -> Result<(), OutOfMemory>
        requires { avoid_at (each_segment_view segments.now) avoided.segment avoided.at ≡ Some (point_view point.now) }
        ensures longer { OnOk result ((q : Spot) → Longer (avoids_in self.old q) (avoids_in self.new q)) }
        ensures there { OnOk result (StandsThere (each_segment_view segments.now) self.new avoided.segment
            (point_view point.now)) }
    {
        match place_of(point) {
            None => Ok(()),
            Some(spot) => self.add_at(alloc, known, segments, spot, avoided, point),
        }
    }

    fn add_each(
        &mut self,
        alloc: Global,
        known: &mut Known,
        segments: &[BoundSegment],
        number: usize,
    ) -> Result<(), OutOfMemory>
        requires { number < length segments.now }
        ensures longer { OnOk result ((q : Spot) → Longer (avoids_in self.old q) (avoids_in self.new q)) }
        ensures there { OnOk result ((i : ℕ) (x : pure.Point)
            → avoid_at (each_segment_view segments.now) number i ≡ Some x
            → StandsThere (each_segment_view segments.now) self.new number x) }
    {
        let segment = &segments[number];
        let points = segment.avoids.as_slice();
        for (at, point) in points.iter().enumerate() {
            let avoided = Avoided {
                segment: number,
                at,
            };
            self.add(alloc, known, segments, avoided, point)?;
        }
        Ok(())
    }

    /// Those of all segments.
    pub fn of(alloc: Global, segments: &[BoundSegment]) -> Result<Avoids, OutOfMemory>
        ensures { IfOk result (λ found. Covers (each_segment_view segments.now) found) }
    {
        let mut found = Avoids::new(alloc);
        let mut known = BTreeMap::new(alloc);
        for number in 0..segments.len() {
            found.add_each(alloc, &mut known, segments, number)?;
        }
        Ok(found)
    }
}
