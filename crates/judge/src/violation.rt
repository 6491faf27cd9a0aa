ghost use Rattle.std.specs.Prelude.{◌≡◌, IfOk};
ghost use Rattle.c_core.specs.View.{program_view};
ghost use Rattle.judge.specs.Judging.{verdict_by};
ghost use Rattle.way_match.specs.Verdicts.{IsRightVerdict};
ghost use Rattle.way_match.specs.View.{segments_view};

use crate::watched::watched_over;
use c_meaning::{Cause, End, Reason, Run, Verdict};
use std::alloc::Global;
use way_match::{Bound, given_over};
use way_places::Index;
use wv_base::{OutOfMemory, Seq};

/// The verdict on the run of an indexed program that draws the values of a violation sequence, with a budget of steps.
///
/// Example: `judge_bound` in `crates/witval/src/sequence.rt`.
pub fn judge_violation(
    alloc: Global,
    index: &Index,
    bound: &Bound,
    steps: u64,
) -> Result<Verdict, OutOfMemory>
    ensures { IfOk result (IsRightVerdict steps (program_view index.now) (segments_view bound.now)) }
{
    let choices = given_over(alloc, bound, index)?;
    let watched = watched_over(alloc, index, bound, &choices, steps)?;
    Ok(verdict(watched.run, watched.found, steps))
}

fn verdict(run: Run, found: Option<Seq<u64>>, steps: u64) -> Verdict
    ensures { result ≡ verdict_by steps run found }
{
    let unfixed = run.unfixed;
    match run.end {
        End::Violated(_) => match found {
            Some(positions) => Verdict::ViolationConfirmed {
                draws: run.draws,
                positions,
            },
            None => Verdict::ViolationNot {
                reason: Reason::Unmatched,
                unfixed,
            },
        },
        End::Ended => Verdict::ViolationNot {
            reason: Reason::Ended,
            unfixed,
        },
        End::Undefined(spot) => Verdict::ViolationNot {
            reason: Reason::Undefined(spot),
            unfixed,
        },
        End::Spent => Verdict::Undecided(Cause::Steps(steps)),
        End::Deep => Verdict::Undecided(Cause::Cells),
    }
}
