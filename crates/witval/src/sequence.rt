// The reply to a violation sequence: its segments are bound, and the given run decides.
ghost use Rattle.std.specs.Prelude.{IfOk};
ghost use Rattle.c_core.specs.View.{program_view};
ghost use Rattle.way_match.specs.View.{segments_view};
ghost use Rattle.witval.specs.Tasks.{RightOnSegments, RightOnSequence};

use crate::binding::bind;
use crate::refusal::refuse_bind;
use c_core::Program;
use judge::judge_violation;
use std::alloc::Global;
use way_bind::Lookup;
use way_match::Bound;
use way_places::Index;
use wv_base::OutOfMemory;
use wv_report::Reply;
use wv_schema::Witness;

/// The reply to a program, and a violation sequence about it.
pub fn judge_sequence(
    alloc: Global,
    program: &Program,
    witness: &Witness,
    steps: u64,
) -> Result<Reply, OutOfMemory>
    ensures { IfOk result (RightOnSequence steps witness.now program.now) }
{
    let lookup = Lookup::new(alloc, program)?;
    judge_over(alloc, &lookup, witness, steps)
}

/// The same over a program whose places and names are indexed, once for all stages.
fn judge_over(
    alloc: Global,
    lookup: &Lookup,
    witness: &Witness,
    steps: u64,
) -> Result<Reply, OutOfMemory>
    ensures { IfOk result (RightOnSequence steps witness.now lookup.now.index) }
{
    match bind(alloc, witness, lookup) {
        Ok(bound) => judge_bound(alloc, &lookup.index, &bound, steps),
        Err(fault) => refuse_bind(alloc, fault),
    }
}

/// The reply to an indexed program, and a violation sequence bound to it.
fn judge_bound(
    alloc: Global,
    index: &Index,
    bound: &Bound,
    steps: u64,
) -> Result<Reply, OutOfMemory>
    ensures { IfOk result (RightOnSegments steps (program_view index.now) (segments_view bound.now)) }
{
    let verdict = judge_violation(alloc, index, bound, steps)?;
    Ok(Reply::Verdict(verdict))
}
