// What becomes of the obligations of invariant sets: one fails, the budget is spent on one, or all hold.
use crate::obligations::{explain_failed, obligation_text};
use crate::undecided::{Size, Spent, explain_spent};
use c_core::Program;
use c_duties::duties;
use c_meaning::{Cause, Duty, DutyKind, PlacedInvariant, Verdict};
use std::alloc::Global;
use view_text::{File, Files, Messages};
use wv_base::{OutOfMemory, Seq};
use wv_schema::Witness;

/// What it means that an obligation of a kind holds.
fn meaning_of(kind: DutyKind) -> &'static str {
    match kind {
        DutyKind::Location => "it holds whenever a havoc run reaches this statement",
        DutyKind::Entry => "it holds whenever a havoc run comes to this loop",
        DutyKind::Kept => "each turn of this loop keeps it",
        DutyKind::Property => "no havoc run violates the property here",
    }
}

/// Obligations that hold, as a confirmation; of each how many chains its log has, where that is known.
pub fn show_obligations(
    alloc: Global,
    witness: &Witness,
    duties: &[Duty],
    chains: &[u64],
    out: &mut Messages,
) -> Result<(), OutOfMemory> {
    let mut index = 0u32;
    for (at, duty) in duties.iter().enumerate() {
        index = index.saturating_add(1);
        let mut told = obligation_text(alloc, witness, index, *duty, meaning_of(duty.kind))?;
        if let Some(count) = chains.get(at) {
            write!(told, " (chains of its log: {count})")?;
        }
        out.note(File::Program, Some(duty.spot), told)?;
    }
    out.confirm();
    Ok(())
}

/// What there is to say of a verdict on invariant sets, and of the question on which the budget was spent.
pub fn explain_verdict(
    alloc: Global,
    files: &Files<'_>,
    program: &Program,
    witness: &Witness,
    invariants: &Seq<PlacedInvariant>,
    verdict: &Verdict,
    size: Option<Size>,
    out: &mut Messages,
) -> Result<(), OutOfMemory> {
    match verdict {
        Verdict::CorrectnessNot { index, duty, draws } => {
            let draws = draws.as_slice();
            explain_failed(alloc, files, program, witness, *index, *duty, draws, out)
        }
        Verdict::Undecided(Cause::Conflicts { index, count }) => {
            let spent = Spent {
                index: *index,
                conflicts: *count,
                size,
            };
            explain_spent(alloc, files, program, witness, invariants, spent, out)
        }
        Verdict::CorrectnessConfirmed { .. } => {
            let list = duties(alloc, program, invariants)?;
            show_obligations(alloc, witness, list.as_slice(), &[], out)
        }
        _ => Ok(()),
    }
}
