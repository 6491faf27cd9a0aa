// The reply to invariant sets: the invariants are bound, and the obligations decide.
ghost use Rattle.std.specs.Prelude.{◌≡◌, ◌≤◌, IfOk};
ghost use Rattle.std.specs.List.{All};
ghost use Rattle.c_core.specs.View.{program_view};
ghost use Rattle.c_meaning.specs.Placing.{IsInvariant, placed_view};
ghost use Rattle.witval.specs.Tasks.{RightOnPlaced, RightOnSets};

use crate::refusal::{refuse_bind, refuse_obligations};
use c_core::Program;
use c_meaning::{PlacedInvariant, Verdict};
use judge_correctness::judge_correctness;
use judge_obligations::Judged;
use std::alloc::Global;
use way_invariants::bind_correctness;
use wv_base::{OutOfMemory, Seq};
use wv_report::Reply;
use wv_schema::Witness;

/// The reply to a program, and invariant sets about it.
pub fn judge_sets(
    alloc: Global,
    program: &Program,
    witness: &Witness,
    conflicts: u64,
) -> Result<Reply, OutOfMemory>
    requires some { 1 ≤ conflicts }
    requires bounded { conflicts ≤ 1000000 }
    ensures { IfOk result (RightOnSets conflicts witness.now program.now) }
{
    match bind_correctness(alloc, witness, program) {
        Ok(invariants) => judge_placed(alloc, program, &invariants, conflicts),
        Err(fault) => refuse_bind(alloc, fault),
    }
}

/// The verdict alone: the log that shows a spent budget is not reported.
pub fn verdict_of(judged: Judged) -> Verdict
    ensures { result ≡ judged.verdict }
{
    judged.verdict
}

/// The reply to a program, and invariants bound to it.
fn judge_placed(
    alloc: Global,
    program: &Program,
    invariants: &Seq<PlacedInvariant>,
    conflicts: u64,
) -> Result<Reply, OutOfMemory>
    requires invariants { All (IsInvariant (program_view program.now)) (placed_view invariants.now) }
    requires some { 1 ≤ conflicts }
    requires bounded { conflicts ≤ 1000000 }
    ensures { IfOk result (RightOnPlaced conflicts program.now (placed_view invariants.now)) }
{
    match judge_correctness(alloc, program, invariants, conflicts) {
        Ok(judged) => Ok(Reply::Verdict(verdict_of(judged))),
        Err(fault) => refuse_obligations(alloc, fault),
    }
}
