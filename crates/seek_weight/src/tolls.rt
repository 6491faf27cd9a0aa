// What the waypoints of a witness weigh wherever an event may pass them.
ghost use Rattle.std.specs.Prelude.{◌≡◌, ◌+◌, ◌∷◌, [], cond, length, IfOk, OnOk};
ghost use Rattle.c_core.specs.Parts.{same_spot};
ghost use Rattle.c_core.specs.Places.{call_at as call_there};
ghost use Rattle.c_core.specs.View.{program_view};
ghost use Rattle.c_core.specs.declared.number.Spot.{Spot};
ghost use Rattle.seek_weight.specs.Tolls as tolls;
ghost use Rattle.seek_weight.specs.inside.Weighing.{Adds, AreTolls};
ghost use Rattle.sym_weight.specs.Tally.{capped, weight_at};
ghost use Rattle.way_match.specs.Passing as passing;
ghost use Rattle.way_match.specs.Points as points;
ghost use Rattle.way_match.specs.View.{each_segment_view, point_view, points_view, segment_view, test_view, test_view_if};

use c_core::{IntType, Program, Spot};
use c_meaning::type_of;
use std::alloc::Global;
use std::collections::BTreeMap;
use sym_weight::{Weights, add_weight, operation, weight_of};
use way_match::{BoundSegment, Point, ReturnTest};
use way_places::Index;
use wv_base::OutOfMemory;

/// What waypoints weigh by the places of the statements, tests and calls whose events may pass them, and what each of
/// these weighs besides, for all waypoints.
#[derive(Drop)]
pub struct Tolls {
    pub statements: Weights,
    pub tests: Weights,
    pub calls: Weights,
    pub passage: u64,
}

fn type_of_call(index: &Index, close: Spot) -> IntType
    ensures { result ≡ passing.type_of_call (call_there (program_view index.now) close) }
{
    match index.call_at(close) {
        Some(call) => type_of(call),
        None => IntType::Int,
    }
}

fn return_weight(
    alloc: Global,
    program: &Program,
    ty: IntType,
    test: &ReturnTest,
) -> Result<u64, OutOfMemory>
    ensures { IfOk result (λ w. w ≡ capped (tolls.return_weight (program_view program.now) (test_view test.now) ty)) }
{
    let constant = weight_of(alloc, program, &test.constant)?;
    let compared = operation(program.model, test.op, ty, type_of(&test.constant));
    Ok((32 + compared).saturating_add(constant))
}

fn return_weight_if(
    alloc: Global,
    index: &Index,
    close: Spot,
    test: &Option<ReturnTest>,
) -> Result<u64, OutOfMemory>
    ensures { IfOk result (λ w. w ≡ capped (tolls.constraint_weight (program_view index.now)
        (points.Return close (test_view_if test.now)))) }
{
    match test {
        Some(test) => {
            let ty = type_of_call(index, close);
            return_weight(alloc, index.program(), ty, test)
        }
        None => Ok(0),
    }
}

// A waypoint at a place weighs 64 and its constraint.
fn add_waypoint(weights: &mut Weights, spot: Spot, constraint: u64) -> Result<(), OutOfMemory>
    ensures { OnOk result ((q : Spot) → capped (weight_at weights.new q)
        ≡ capped (weight_at weights.old q + cond (same_spot spot q) (64 + constraint) 0)) }
{
    add_weight(weights, spot, constraint.saturating_add(64))?;
    Ok(())
}

// Before all waypoints.
fn no_tolls(alloc: Global, passage: u64) -> Tolls
    ensures passage { result.passage ≡ passage }
    ensures empty { (q : Spot) → weight_at result.statements q ≡ 0 }
    ensures no_test { (q : Spot) → weight_at result.tests q ≡ 0 }
    ensures no_call { (q : Spot) → weight_at result.calls q ≡ 0 }
{
    Tolls {
        statements: BTreeMap::new(alloc),
        tests: BTreeMap::new(alloc),
        calls: BTreeMap::new(alloc),
        passage,
    }
}

impl Tolls {
    fn add(&mut self, alloc: Global, index: &Index, point: &Point) -> Result<(), OutOfMemory>
        ensures passage { self.new.passage ≡ self.old.passage }
        ensures adds { OnOk result (Adds (program_view index.now) (point_view point.now ∷ []) self.old self.new) }
    {
        match point {
            Point::Assume(spot, test) => {
                let constraint = weight_of(alloc, index.program(), test)?;
                add_waypoint(&mut self.statements, *spot, constraint)
            }
            Point::Target(_) => Ok(()),
            Point::Enter(close) => add_waypoint(&mut self.calls, *close, 0),
            Point::Return(close, test) => {
                let constraint = return_weight_if(alloc, index, *close, test)?;
                add_waypoint(&mut self.calls, *close, constraint)
            }
            Point::Branch(spot, _) => add_waypoint(&mut self.tests, *spot, 0),
        }
    }

    fn add_each(
        &mut self,
        alloc: Global,
        index: &Index,
        points: &[Point],
    ) -> Result<(), OutOfMemory>
        ensures passage { self.new.passage ≡ self.old.passage }
        ensures adds { OnOk result (Adds (program_view index.now) (points_view points.now) self.old self.new) }
    {
        for point in points {
            self.add(alloc, index, point)?;
        }
        Ok(())
    }

    fn add_segment(
        &mut self,
        alloc: Global,
        index: &Index,
        segment: &BoundSegment,
    ) -> Result<(), OutOfMemory>
        ensures passage { self.new.passage ≡ self.old.passage }
        ensures adds { OnOk result (Adds (program_view index.now)
            (tolls.points_of (segment_view segment.now ∷ [])) self.old self.new) }
    {
        self.add_each(alloc, index, segment.avoids.as_slice())?;
        self.add(alloc, index, &segment.follow)
    }
}

fn passage(segments: &[BoundSegment]) -> u64
    ensures { result ≡ capped (tolls.passage (each_segment_view segments.now)) }
{
    let mut waypoints = 0u64;
    for segment in segments {
        waypoints = waypoints.saturating_add(segment.avoids.len() as u64);
        waypoints = waypoints.saturating_add(1);
    }
    waypoints.saturating_mul(64).saturating_add(128)
}

/// The tolls of these segments.
pub fn tolls_of(
    alloc: Global,
    index: &Index,
    segments: &[BoundSegment],
) -> Result<Tolls, OutOfMemory>
    ensures { IfOk result (AreTolls (program_view index.now) (each_segment_view segments.now)) }
{
    let mut found = no_tolls(alloc, passage(segments));
    for segment in segments {
        found.add_segment(alloc, index, segment)?;
    }
    Ok(found)
}
