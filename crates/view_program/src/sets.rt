// Invariant sets: an invariant that isn't bound, a program that isn't judged, what becomes of the obligations.
ghost use Rattle.std.specs.Prelude.{◌≤◌};
ghost use Rattle.std.specs.List.{All};
ghost use Rattle.c_core.specs.View.{program_view};
ghost use Rattle.c_meaning.specs.Placing.{IsInvariant, placed_view};

use c_core::Program;
use c_meaning::PlacedInvariant;
use judge_correctness::judge_correctness;
use judge_obligations::Judged;
use std::alloc::Global;
use sym_duties::SymFault;
use view_binding::explain_unbound_invariant;
use view_claims::{Size, explain_verdict};
use view_grammar::{explain_recursion, explain_weight};
use view_text::{Files, Messages};
use way_invariants::bind_correctness;
use wv_base::{OutOfMemory, Seq};
use wv_schema::Witness;

/// A program whose obligations aren't judged.
fn explain_fault(
    alloc: Global,
    files: &Files<'_>,
    program: &Program,
    fault: &SymFault,
    out: &mut Messages,
) -> Result<(), OutOfMemory> {
    match fault {
        SymFault::Recursion(name) => explain_recursion(alloc, program, name.as_str(), out),
        SymFault::TooBig => explain_weight(alloc, files, program, out),
        SymFault::OutOfMemory => Err(OutOfMemory),
    }
}

/// How big the question is on which the budget was spent.
fn size_of(judged: &Judged) -> Option<Size> {
    match &judged.spent {
        Some(spent) => Some(Size {
            variables: spent.clauses.variables,
            clauses: spent.clauses.clauses.len(),
        }),
        None => None,
    }
}

fn explain_placed(
    alloc: Global,
    files: &Files<'_>,
    program: &Program,
    witness: &Witness,
    invariants: &Seq<PlacedInvariant>,
    conflicts: u64,
    out: &mut Messages,
) -> Result<(), OutOfMemory>
    requires invariants { All (IsInvariant (program_view program.now)) (placed_view invariants.now) }
    requires some { 1 ≤ conflicts }
    requires bounded { conflicts ≤ 1000000 }
{
    match judge_correctness(alloc, program, invariants, conflicts) {
        Ok(judged) => {
            let verdict = &judged.verdict;
            let size = size_of(&judged);
            explain_verdict(
                alloc, files, program, witness, invariants, verdict, size, out,
            )
        }
        Err(fault) => explain_fault(alloc, files, program, &fault, out),
    }
}

/// What there is to say of a program and invariant sets about it.
pub fn explain_sets(
    alloc: Global,
    files: &Files<'_>,
    program: &Program,
    witness: &Witness,
    conflicts: u64,
    out: &mut Messages,
) -> Result<(), OutOfMemory>
    requires some { 1 ≤ conflicts }
    requires bounded { conflicts ≤ 1000000 }
{
    match bind_correctness(alloc, witness, program) {
        Ok(invariants) => explain_placed(
            alloc,
            files,
            program,
            witness,
            &invariants,
            conflicts,
            out,
        ),
        Err(fault) => explain_unbound_invariant(alloc, files, program, witness, fault, out),
    }
}
