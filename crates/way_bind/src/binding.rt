// The waypoints of a witness, bound in document order.
ghost use Rattle.std.specs.Prelude.{◌≡◌, ◌+◌, ◌<◌, ◌^◌, length};
ghost use Rattle.c_core.specs.View.{program_view};
ghost use Rattle.way_bind.specs.Binding.{Binds, segments_of, waypoints_in, waypoints_of};
ghost use Rattle.way_bind.specs.InOrder.{told};
ghost use Rattle.way_bind.specs.Steps.{BindsAll, BindsSegment, BindsSegments};

use crate::fault::{BindFault, Unbound};
use crate::lookup::Lookup;
use crate::waypoint::bind_point;
use c_core::Program;
use std::alloc::Global;
use way_match::{Bound, BoundSegment, Point};
use wv_base::Seq;
use wv_schema::{Content, Segment, Waypoint, Witness};

/// A test that the waypoint or invariant of this number fails first, as it is reported.
pub fn told(number: u32, lack: Unbound) -> BindFault
    ensures { result ≡ told number lack }
{
    match lack {
        Unbound::NoPlace => BindFault::NoPlace(number),
        Unbound::Expression => BindFault::Expression(number),
        Unbound::Scope => BindFault::Scope(number),
        Unbound::OutOfMemory => BindFault::OutOfMemory,
    }
}

/// The points of waypoints to avoid, numbered from `first` on.
fn bind_avoids(
    alloc: Global,
    lookup: &Lookup,
    first: usize,
    waypoints: &[Waypoint],
) -> Result<Seq<Point>, BindFault>
    requires { first + length waypoints.now < 2 ^ 32 }
    ensures { BindsAll (program_view lookup.now.index) first waypoints.now result }
{
    let mut points = Seq::new(alloc);
    for (nth, waypoint) in waypoints.iter().enumerate() {
        match bind_point(alloc, lookup, waypoint) {
            Ok(point) => points.push(point)?,
            Err(lack) => return Err(told((first + nth) as u32, lack)),
        }
    }
    Ok(points)
}

/// A segment bound, its waypoints numbered from `first` on.
fn bind_segment(
    alloc: Global,
    lookup: &Lookup,
    first: usize,
    segment: &Segment,
) -> Result<BoundSegment, BindFault>
    requires { first + length (waypoints_of segment.now) < 2 ^ 32 }
    ensures { BindsSegment (program_view lookup.now.index) first segment.now result }
{
    let waypoints = segment.avoids.as_slice();
    let avoids = bind_avoids(alloc, lookup, first, waypoints)?;
    match bind_point(alloc, lookup, &segment.follow) {
        Ok(follow) => Ok(BoundSegment { avoids, follow }),
        Err(lack) => Err(told((first + waypoints.len()) as u32, lack)),
    }
}

/// All segments bound, their waypoints numbered from 1.
fn bind_segments(
    alloc: Global,
    lookup: &Lookup,
    segments: &[Segment],
) -> Result<Seq<BoundSegment>, BindFault>
    requires { length (waypoints_in segments.now) < 2 ^ 30 }
    ensures { BindsSegments (program_view lookup.now.index) 1 segments.now result }
{
    let mut bound = Seq::new(alloc);
    let mut first: usize = 1;
    for segment in segments {
        bound.push(bind_segment(alloc, lookup, first, segment)?)?;
        first += segment.avoids.len() + 1;
    }
    Ok(bound)
}

/// The segments of a violation sequence, the only entry of its witness.
fn segments_of(witness: &Witness) -> &[Segment]
    ensures { result.now ≡ segments_of witness.now }
{
    match witness.entries.as_slice() {
        [entry] => match &entry.content {
            Content::Violation(segments) => segments.as_slice(),
            Content::Invariants(_) => &[],
        },
        _ => &[],
    }
}

/// The waypoints of a violation sequence, bound to the places and typed expressions of a program. It is meant for
/// witnesses that meet the schema and hold a violation sequence; without one nothing is bound.
pub fn bind_violation(
    alloc: Global,
    witness: &Witness,
    program: &Program,
) -> Result<Bound, BindFault>
    requires { length (waypoints_in (segments_of witness.now)) < 2 ^ 30 }
    ensures { Binds (program_view program.now) witness.now result }
{
    let lookup = Lookup::new(alloc, program)?;
    bind_over(alloc, witness, &lookup)
}

/// The same over a program that is indexed, with its names.
pub fn bind_over(alloc: Global, witness: &Witness, lookup: &Lookup) -> Result<Bound, BindFault>
    requires { length (waypoints_in (segments_of witness.now)) < 2 ^ 30 }
    ensures { Binds (program_view lookup.now.index) witness.now result }
{
    let segments = bind_segments(alloc, lookup, segments_of(witness))?;
    Ok(Bound { segments })
}
