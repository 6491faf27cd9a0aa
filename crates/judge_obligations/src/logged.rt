// The verdict on all obligations with the logs that show it.
ghost use Rattle.std.specs.Prelude.{◌+◌, ◌-◌, ◌≤◌, ◌<◌, ◌^◌, IfOk};
ghost use Rattle.c_core.specs.View.{program_view};
ghost use Rattle.c_meaning.specs.Placing.{placed_view};
ghost use Rattle.circuits.specs.Net.{count_inputs};
ghost use Rattle.judge_obligations.specs.Logged.{IsLogged, IsUnspent};
ghost use Rattle.judge_obligations.specs.Verdicts.{AreObligationsOf};

use crate::judging::{Judged, Settled, settle};
use c_core::Program;
use c_meaning::PlacedInvariant;
use clauses::Refutation;
use std::alloc::Global;
use sym_duties::Obligations;
use wv_base::{OutOfMemory, Seq};

/// All obligations hold, each by its log, in their order; or another verdict.
#[derive(Drop)]
pub enum Logged {
    Proved(Seq<Refutation>),
    Other(Judged),
}

/// Decides the obligations as `decide` does, and keeps the log of each.
pub fn judge_logged(
    alloc: Global,
    program: &Program,
    invariants: &Seq<PlacedInvariant>,
    obligations: &Obligations,
    conflicts: u64,
) -> Result<Logged, OutOfMemory>
    requires promised { AreObligationsOf (program_view program.now) (placed_view invariants.now) obligations.now }
    requires some { 1 ≤ conflicts }
    requires bounded { conflicts ≤ 1000000 }
    ensures logged { IfOk result
        (IsLogged conflicts (program_view program.now) (placed_view invariants.now) obligations.now) }
    ensures decided { IfOk result (λ r. 2 ^ (count_inputs obligations.now.net + 1) - 2 < conflicts → IsUnspent r) }
{
    let mut logs = Seq::new(alloc);
    let many = obligations.failing.len();
    for at in 0..many {
        match settle(alloc, program, invariants, obligations, at, conflicts)? {
            Settled::Holds(log) => logs.push(log)?,
            Settled::Ends(judged) => return Ok(Logged::Other(judged)),
        }
    }
    Ok(Logged::Proved(logs))
}
