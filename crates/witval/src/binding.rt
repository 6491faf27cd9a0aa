// The waypoints of a violation sequence, bound to a program.
ghost use Rattle.std.specs.Prelude.{◌≡◌, ◌<◌, ◌^◌, length, true};
ghost use Rattle.c_core.specs.View.{program_view};
ghost use Rattle.way_bind.specs.Binding.{Binds, segments_of, waypoints_in};

use c_core::Program;
use std::alloc::Global;
use way_bind::{BindFault, Lookup, bind_over};
use way_match::Bound;
use wv_schema::{Content, Segment, Witness};

/// This many waypoints can be numbered.
const MOST_WAYPOINTS: usize = 1073741823;

/// Whether segments hold at most this many waypoints.
fn are_few(segments: &[Segment]) -> bool
    ensures { result ≡ true → length (waypoints_in segments.now) < 2 ^ 30 }
{
    let mut room = MOST_WAYPOINTS;
    for segment in segments {
        let avoids = segment.avoids.len();
        if avoids >= room {
            return false;
        }
        room -= avoids + 1;
    }
    true
}

/// The segments of a violation sequence, the only entry of its witness.
fn segments_of(witness: &Witness) -> &[Segment]
    ensures { result.now ≡ segments_of witness.now }
{
    match witness.entries.as_slice() {
        [entry] => match &entry.content {
            Content::Violation(segments) => segments.as_slice(),
            Content::Invariants(_) => &[],
        },
        _ => &[],
    }
}

/// The segments bound to the program, or the least waypoint that isn't. A file of allowed length holds far fewer
/// waypoints than can be numbered; more are answered as out of memory.
pub fn bind(alloc: Global, witness: &Witness, lookup: &Lookup) -> Result<Bound, BindFault>
    ensures { Binds (program_view lookup.now.index) witness.now result }
{
    if !are_few(segments_of(witness)) {
        return Err(BindFault::OutOfMemory);
    }
    bind_over(alloc, witness, lookup)
}

/// The same for a program that isn't indexed yet.
pub fn bind_alone(alloc: Global, witness: &Witness, program: &Program) -> Result<Bound, BindFault>
    ensures { Binds (program_view program.now) witness.now result }
{
    let lookup = Lookup::new(alloc, program)?;
    bind(alloc, witness, &lookup)
}
