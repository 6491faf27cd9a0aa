// The search for values.
ghost use Rattle.std.specs.Prelude.{◌≤◌};
ghost use Rattle.std.specs.List.{All};
ghost use Rattle.c_core.specs.View.{program_view};
ghost use Rattle.seek_passes.specs.Passing.{IsSegment};
ghost use Rattle.way_match.specs.View.{segments_view};
ghost use Rattle.wv_seek.specs.Seeking.{SearchAnswers};

use crate::fault::SeekFault;
use crate::unrolling::unroll;
use c_core::Program;
use seek_answer::{Sought, answer};
use seek_weight::steps_are_light;
use std::alloc::Global;
use way_match::Bound;

/// Values with which a run of a program violates its property and matches the segments of a witness, with at most this
/// many turns of a loop on each arrival and this many calls active besides main, by a budget of conflicts. What is
/// found is run and matched, in 2,000,000 steps at most.
pub fn seek(
    alloc: Global,
    program: &Program,
    bound: &Bound,
    turns: u32,
    conflicts: u64,
) -> Result<Sought, SeekFault>
    requires turns { turns ≤ 64 }
    requires segments { All (IsSegment (program_view program.now)) (segments_view bound.now) }
    requires some { 1 ≤ conflicts }
    requires bounded { conflicts ≤ 1000000 }
    ensures { SearchAnswers conflicts (program_view program.now) (segments_view bound.now) turns result }
{
    steps_are_light();
    let reach = unroll(alloc, program, bound, turns)?;
    let found = answer(alloc, program, bound, turns, &reach, conflicts)?;
    Ok(found)
}
