// Witnesses of few waypoints, which can be bound.
ghost use Rattle.std.specs.Prelude.{◌≡◌, ◌<◌, ◌^◌, length, true};
ghost use Rattle.way_bind.specs.Binding.{segments_of, waypoints_in};

use std::alloc::Global;
use way_bind::{BindFault, Lookup, bind_over};
use way_match::Bound;
use wv_schema::{Content, Segment, Witness};

/// So many waypoints can be numbered.
const MOST_WAYPOINTS: usize = 1073741823;

fn are_few(segments: &[Segment]) -> bool
    ensures { result ≡ true → length (waypoints_in segments.now) < 2 ^ 30 }
{
    let mut room = MOST_WAYPOINTS;
    for segment in segments {
        let avoids = segment.avoids.len();
        if avoids >= room {
            return false;
        }
        room -= avoids + 1;
    }
    true
}

/// The segments of a violation sequence, the only entry of its witness.
pub fn segments_of(witness: &Witness) -> &[Segment]
    ensures { result.now ≡ segments_of witness.now }
{
    match witness.entries.as_slice() {
        [entry] => match &entry.content {
            Content::Violation(segments) => segments.as_slice(),
            Content::Invariants(_) => &[],
        },
        _ => &[],
    }
}

/// What is bound; too many waypoints are answered as want of memory.
pub fn bind(alloc: Global, witness: &Witness, lookup: &Lookup) -> Result<Bound, BindFault> {
    if !are_few(segments_of(witness)) {
        return Err(BindFault::OutOfMemory);
    }
    bind_over(alloc, witness, lookup)
}
