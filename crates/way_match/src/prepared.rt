// What waypoints need of a program that is the same at each event.
ghost use Rattle.std.specs.Prelude.{◌≡◌, IfOk};
ghost use Rattle.c_core.specs.Places.{call_at as call_there};
ghost use Rattle.c_core.specs.View.{program_view, expr_view};
ghost use Rattle.c_meaning.specs.Objects as objects;
ghost use Rattle.way_match.specs.Passing as passing;
ghost use Rattle.way_match.specs.Points.{Return};
ghost use Rattle.way_match.specs.inside.Prepared.{all_prepared, all_ready, comparison_of, ready_of, steps_of};
ghost use Rattle.way_match.specs.View.{each_segment_view, point_view, points_view, test_view_if};

use crate::point::{BoundSegment, Point, ReturnTest};
use c_core::{Expr, IntType, Program, Spot};
use c_meaning::{Memory, value_in};
use std::alloc::Global;
use way_places::Index;
use way_tests::{Step, compiled};
use wv_base::{OutOfMemory, Seq};

/// Of `\result op constant`: the type of the call that returns, and the constant's value, if it is defined.
#[derive(Clone, Copy, Debug, PartialEq, Eq)]
pub struct Comparison {
    pub ty: IntType,
    pub constant: Option<i128>,
}

/// What a waypoint needs of the program: its comparison, and the steps of its constraint; none of what it hasn't.
#[derive(Drop)]
pub struct Ready {
    pub comparison: Option<Comparison>,
    pub steps: Option<Seq<Step>>,
}

/// What a segment's waypoints need.
#[derive(Drop)]
pub struct Prepared {
    pub avoids: Seq<Ready>,
    pub follow: Ready,
}

/// The type of an expression; that of a void one isn't asked for.
pub fn type_of(e: &Expr) -> IntType
    ensures { result ≡ objects.type_of (expr_view e.now) }
{
    match e.ty {
        Some(ty) => ty,
        None => IntType::Int,
    }
}

fn type_of_call(index: &Index, close: Spot) -> IntType
    ensures { result ≡ passing.type_of_call (call_there (program_view index.now) close) }
{
    match index.call_at(close) {
        Some(call) => type_of(call),
        None => IntType::Int,
    }
}

fn constant(alloc: Global, program: &Program, e: &Expr) -> Option<i128>
    ensures { result ≡ passing.constant_of (program_view program.now) (expr_view e.now) }
{
    let memory = Memory::new(alloc);
    value_in(program, e, &memory)
}

fn constant_in(alloc: Global, index: &Index, e: &Expr) -> Option<i128>
    ensures { result ≡ passing.constant_of (program_view index.now) (expr_view e.now) }
{
    constant(alloc, index.program(), e)
}

fn comparison_at(
    alloc: Global,
    index: &Index,
    close: Spot,
    test: &Option<ReturnTest>,
) -> Option<Comparison>
    ensures { result ≡ comparison_of (program_view index.now) (Return close (test_view_if test.now)) }
{
    match test {
        Some(test) => Some(Comparison {
            ty: type_of_call(index, close),
            constant: constant_in(alloc, index, &test.constant),
        }),
        None => None,
    }
}

fn comparison_for(alloc: Global, index: &Index, point: &Point) -> Option<Comparison>
    ensures { result ≡ comparison_of (program_view index.now) (point_view point.now) }
{
    match point {
        Point::Return(close, test) => comparison_at(alloc, index, *close, test),
        _ => None,
    }
}

fn steps_for(
    alloc: Global,
    program: &Program,
    point: &Point,
) -> Result<Option<Seq<Step>>, OutOfMemory>
    ensures { IfOk result (λ steps. steps ≡ steps_of (program_view program.now) (point_view point.now)) }
{
    match point {
        Point::Assume(_, test) => compiled(alloc, program, test),
        _ => Ok(None),
    }
}

fn ready_point(alloc: Global, index: &Index, point: &Point) -> Result<Ready, OutOfMemory>
    ensures { IfOk result (λ found. found ≡ ready_of (program_view index.now) (point_view point.now)) }
{
    let steps = steps_for(alloc, index.program(), point)?;
    Ok(Ready {
        comparison: comparison_for(alloc, index, point),
        steps,
    })
}

fn each_ready(alloc: Global, index: &Index, points: &[Point]) -> Result<Seq<Ready>, OutOfMemory>
    ensures { IfOk result (λ found. found ≡ all_ready (program_view index.now) (points_view points.now)) }
{
    let mut found = Seq::new(alloc);
    for point in points {
        found.push(ready_point(alloc, index, point)?)?;
    }
    Ok(found)
}

/// What the waypoints of all segments need.
pub fn prepare(
    alloc: Global,
    index: &Index,
    segments: &[BoundSegment],
) -> Result<Seq<Prepared>, OutOfMemory>
    ensures { IfOk result (λ prepared. prepared ≡ all_prepared (program_view index.now)
        (each_segment_view segments.now)) }
{
    let mut prepared = Seq::new(alloc);
    for segment in segments {
        let avoids = each_ready(alloc, index, segment.avoids.as_slice())?;
        let follow = ready_point(alloc, index, &segment.follow)?;
        prepared.push(Prepared { avoids, follow })?;
    }
    Ok(prepared)
}
