// The output for invariant sets where those invariants are wanted that hold up together.
ghost use Rattle.std.specs.Prelude.{◌≤◌, IfOk};
ghost use Rattle.std.specs.List.{All};
ghost use Rattle.c_core.specs.View.{program_view};
ghost use Rattle.c_meaning.specs.Placing.{IsInvariant, placed_view};
ghost use Rattle.witval.specs.Weeding.{TellsWeeded, WeedsPlaced, WeedsSets};
ghost use Rattle.witval.specs.inside.Keys.{HasShortKeys};

use crate::keeping::keep;
use crate::output::Output;
use crate::refusal::{refuse_bind, refuse_obligations};
use crate::writing::write_witness;
use c_core::Program;
use c_meaning::{Cause, PlacedInvariant, Verdict};
use std::alloc::Global;
use way_invariants::bind_correctness;
use wv_base::{OutOfMemory, Seq};
use wv_report::Reply;
use wv_schema::Witness;
use wv_weed::{Weeded, weed};

/// The output for a program and invariant sets about it: the witness with the invariants that hold up together, and no
/// others.
pub fn weed_sets(
    alloc: Global,
    program: &Program,
    witness: &Witness,
    conflicts: u64,
) -> Result<Output, OutOfMemory>
    requires keys { HasShortKeys witness.now }
    requires some { 1 ≤ conflicts }
    requires bounded { conflicts ≤ 1000000 }
    ensures { IfOk result (WeedsSets conflicts witness.now program.now) }
{
    match bind_correctness(alloc, witness, program) {
        Ok(invariants) => weed_placed(alloc, program, witness, &invariants, conflicts),
        Err(fault) => Ok(Output::Report(refuse_bind(alloc, fault)?)),
    }
}

/// The same for invariants bound to the program.
fn weed_placed(
    alloc: Global,
    program: &Program,
    witness: &Witness,
    invariants: &Seq<PlacedInvariant>,
    conflicts: u64,
) -> Result<Output, OutOfMemory>
    requires keys { HasShortKeys witness.now }
    requires invariants { All (IsInvariant (program_view program.now)) (placed_view invariants.now) }
    requires some { 1 ≤ conflicts }
    requires bounded { conflicts ≤ 1000000 }
    ensures { IfOk result (WeedsPlaced conflicts witness.now program.now (placed_view invariants.now)) }
{
    match weed(alloc, program, invariants, conflicts) {
        Ok(weeded) => tell_weeded(alloc, witness, weeded, conflicts),
        Err(fault) => Ok(Output::Report(refuse_obligations(alloc, fault)?)),
    }
}

/// The same for what weeding came to: the log that shows a spent budget is not reported.
fn tell_weeded(
    alloc: Global,
    witness: &Witness,
    weeded: Weeded,
    conflicts: u64,
) -> Result<Output, OutOfMemory>
    requires { HasShortKeys witness.now }
    ensures { IfOk result (TellsWeeded conflicts witness.now weeded) }
{
    match weeded {
        Weeded::Kept(numbers) => {
            let kept = keep(alloc, witness, numbers.as_slice())?;
            write_witness(alloc, &kept)
        }
        Weeded::Spent { index, .. } => {
            let cause = Cause::Conflicts {
                index,
                count: conflicts,
            };
            Ok(Output::Report(Reply::Verdict(Verdict::Undecided(cause))))
        }
    }
}
