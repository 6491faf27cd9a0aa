// The verdict on a program with invariants.
ghost use Rattle.std.specs.Prelude.{◌≤◌, IfOk, IfErr};
ghost use Rattle.std.specs.List.{All};
ghost use Rattle.c_core.specs.View.{program_view};
ghost use Rattle.c_meaning.specs.Placing.{IsInvariant, placed_view};
ghost use Rattle.sym_duties.specs.Answers.{CanBeJudged, IsFault, names_of};
ghost use Rattle.judge_obligations.specs.Verdicts.{IsRightOnInvariants};
ghost use Rattle.judge_correctness.specs.Correctness.{IsConfirmed, IsDecidedBeyond, IsKeptOf};

use c_core::Program;
use c_lifting::runs_are_lifted;
use c_meaning::PlacedInvariant;
use judge_obligations::{Judged, decide};
use std::alloc::Global;
use sym_duties::SymFault;
use sym_eval::obligations;
use wv_base::Seq;

/// Decides the obligations of a program with invariants, each with a budget of conflicts. No verdict is given where
/// main reaches a cycle of calls, or where the obligations are too big.
///
/// Example: `judge_sets` in `crates/witval/src/sets.rt`.
pub fn judge_correctness(
    alloc: Global,
    program: &Program,
    invariants: &Seq<PlacedInvariant>,
    conflicts: u64,
) -> Result<Judged, SymFault>
    requires invariants { All (IsInvariant (program_view program.now)) (placed_view invariants.now) }
    requires some { 1 ≤ conflicts }
    requires bounded { conflicts ≤ 1000000 }
    ensures right { IfOk result (λ r. IsRightOnInvariants conflicts (program_view program.now)
        (placed_view invariants.now) r.verdict) }
    ensures confirmed { IfOk result (λ r. IsConfirmed (program_view program.now) (placed_view invariants.now)
        r.verdict) }
    ensures kept { IfOk result (λ r. IsKeptOf conflicts (program_view program.now) (placed_view invariants.now) r) }
    ensures decided { IfOk result (λ r. IsDecidedBeyond conflicts (program_view program.now) r.verdict) }
    ensures judged { IfOk result (λ r. CanBeJudged (program_view program.now) (placed_view invariants.now)) }
    ensures fault { IfErr result (λ e. IsFault (program_view program.now) (names_of program.now.functions)
        (placed_view invariants.now) e) }
{
    runs_are_lifted();
    let found = obligations(alloc, program, invariants)?;
    match decide(alloc, program, invariants, &found, conflicts) {
        Ok(judged) => Ok(judged),
        Err(_) => Err(SymFault::OutOfMemory),
    }
}
