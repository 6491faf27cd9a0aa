// Witnesses of few waypoints, which can be bound; what is bound can be followed.
ghost use Rattle.std.specs.Prelude.{◌≡◌, ◌<◌, ◌^◌, IfOk, length, true};
ghost use Rattle.std.specs.List.{All};
ghost use Rattle.c_core.specs.View.{program_view};
ghost use Rattle.seek_passes.specs.Passing.{IsSegment};
ghost use Rattle.way_bind.specs.Binding.{segments_of, waypoints_in};
ghost use Rattle.way_match.specs.View.{segments_view};

use c_core::Program;
use seek_binding::bound_segments_can_be_followed;
use std::alloc::Global;
use way_bind::{BindFault, bind_violation};
use way_match::Bound;
use wv_schema::{Content, Segment, Witness};

/// This many waypoints can be numbered.
const MOST_WAYPOINTS: usize = 1073741823;

fn are_few(segments: &[Segment]) -> bool
    ensures { result ≡ true → length (waypoints_in segments.now) < 2 ^ 30 }
{
    let mut room = MOST_WAYPOINTS;
    for segment in segments {
        let avoids = segment.avoids.len();
        if avoids >= room {
            return false;
        }
        room -= avoids + 1;
    }
    true
}

fn segments_of(witness: &Witness) -> &[Segment]
    ensures { result.now ≡ segments_of witness.now }
{
    match witness.entries.as_slice() {
        [entry] => match &entry.content {
            Content::Violation(segments) => segments.as_slice(),
            Content::Invariants(_) => &[],
        },
        _ => &[],
    }
}

/// What is bound; too many waypoints are answered as out of memory.
pub fn bind(alloc: Global, witness: &Witness, program: &Program) -> Result<Bound, BindFault>
    ensures { IfOk result (λ bound. All (IsSegment (program_view program.now)) (segments_view bound)) }
{
    bound_segments_can_be_followed();
    if !are_few(segments_of(witness)) {
        return Err(BindFault::OutOfMemory);
    }
    bind_violation(alloc, witness, program)
}
