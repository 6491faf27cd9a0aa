// Which waypoints of each segment a run passes at an event.
ghost use Rattle.std.specs.Prelude.{◌≡◌, IfOk};
ghost use Rattle.std.specs.List.{All};
ghost use Rattle.c_core.specs.View.{program_view};
ghost use Rattle.way_match.specs.Passing as passing;
ghost use Rattle.way_match.specs.View.{each_segment_view, point_view, segment_view};
ghost use Rattle.seek_passes.specs.Charges.{segment_weight, segments_weight};
ghost use Rattle.seek_passes.specs.Passing.{IsSegment, CanTell, PassesSegment, PassesSegments};

use crate::event::SymEvent;
use crate::points::{passes_any, passes_point};
use c_core::Program;
use seek_events::Passing;
use std::alloc::Global;
use sym_state::Sym;
use way_match::{BoundSegment, Point};
use wv_base::OutOfMemory;

fn is_assumption(point: &Point) -> bool
    ensures { result ≡ passing.is_assumption (point_view point.now) }
{
    matches!(point, Point::Assume(_, _))
}

// What runs pass of a segment.
fn passes_segment(
    alloc: Global,
    program: &Program,
    sym: &mut Sym,
    segment: &BoundSegment,
    event: &SymEvent,
) -> Result<Passing, OutOfMemory>
    requires segment { IsSegment (program_view program.now) (segment_view segment.now) }
    requires ready { CanTell (program_view program.now) event.now sym.old
        (segment_weight (program_view program.now) event.now (segment_view segment.now)) }
    ensures { IfOk result (PassesSegment (program_view program.now) event.now (segment_view segment.now) sym.old
        sym.new) }
{
    let avoided = passes_any(alloc, program, sym, segment.avoids.as_slice(), event)?;
    let followed = passes_point(alloc, program, sym, &segment.follow, event)?;
    Ok(Passing {
        avoided,
        followed,
        assumes: is_assumption(&segment.follow),
    })
}

/// What runs pass of each segment.
pub fn passes_segments(
    alloc: Global,
    program: &Program,
    sym: &mut Sym,
    segments: &[BoundSegment],
    event: &SymEvent,
) -> Result<Vec<Passing>, OutOfMemory>
    requires segments { All (IsSegment (program_view program.now)) (each_segment_view segments.now) }
    requires ready { CanTell (program_view program.now) event.now sym.old
        (segments_weight (program_view program.now) event.now (each_segment_view segments.now)) }
    ensures { IfOk result (λ r. PassesSegments (program_view program.now) event.now (each_segment_view segments.now)
        sym.old sym.new r.items) }
{
    let mut all = Vec::new(alloc);
    for segment in segments {
        let one = passes_segment(alloc, program, sym, segment, event)?;
        all.push(one)?;
    }
    Ok(all)
}
