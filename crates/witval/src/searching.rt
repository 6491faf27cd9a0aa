// The output for a violation sequence where values for its open inputs are wanted.
ghost use Rattle.std.specs.Prelude.{◌≤◌, IfOk};
ghost use Rattle.std.specs.List.{All};
ghost use Rattle.c_core.specs.View.{program_view};
ghost use Rattle.seek_passes.specs.Passing.{IsSegment};
ghost use Rattle.way_match.specs.View.{segments_view};
ghost use Rattle.witval.specs.Searching.{SeeksOnSegments, SeeksValues, TellsSought};

use crate::binding::bind_alone;
use crate::output::{Output, Searched};
use crate::refusal::{refuse_bind, refuse_search};
use c_core::Program;
use seek_binding::bound_segments_can_be_followed;
use std::alloc::Global;
use way_match::Bound;
use wv_base::OutOfMemory;
use wv_schema::Witness;
use wv_seek::{Sought, seek};

/// The output for a program and a violation sequence about it: values with which a run violates the property and
/// matches the segments, or why there are none.
pub fn seek_values(
    alloc: Global,
    program: &Program,
    witness: &Witness,
    turns: u32,
    conflicts: u64,
) -> Result<Output, OutOfMemory>
    requires turns { turns ≤ 64 }
    requires some { 1 ≤ conflicts }
    requires bounded { conflicts ≤ 1000000 }
    ensures { IfOk result (SeeksValues turns conflicts witness.now program.now) }
{
    bound_segments_can_be_followed();
    match bind_alone(alloc, witness, program) {
        Ok(bound) => seek_bound(alloc, program, &bound, turns, conflicts),
        Err(fault) => Ok(Output::Report(refuse_bind(alloc, fault)?)),
    }
}

/// The same for segments bound to the program.
fn seek_bound(
    alloc: Global,
    program: &Program,
    bound: &Bound,
    turns: u32,
    conflicts: u64,
) -> Result<Output, OutOfMemory>
    requires turns { turns ≤ 64 }
    requires some { 1 ≤ conflicts }
    requires bounded { conflicts ≤ 1000000 }
    requires segments { All (IsSegment (program_view program.now)) (segments_view bound.now) }
    ensures { IfOk result (SeeksOnSegments turns conflicts (program_view program.now) (segments_view bound.now)) }
{
    match seek(alloc, program, bound, turns, conflicts) {
        Ok(found) => Ok(tell_sought(found, turns, conflicts)),
        Err(fault) => Ok(Output::Report(refuse_search(alloc, fault)?)),
    }
}

/// The same for what the search came to: the log that shows a spent budget is not reported.
fn tell_sought(found: Sought, turns: u32, conflicts: u64) -> Output
    ensures { TellsSought turns conflicts found result }
{
    match found {
        Sought::Found { draws, positions } => {
            Output::Searched(Searched::Found { draws, positions })
        }
        Sought::Nothing => Output::Searched(Searched::NoneWithin(turns)),
        Sought::Spent(_) => Output::Searched(Searched::Spent(conflicts)),
    }
}
