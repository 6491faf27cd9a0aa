// The obligations that a certificate is about.
ghost use Rattle.std.specs.List.{All};
ghost use Rattle.c_core.specs.View.{program_view};
ghost use Rattle.c_meaning.specs.Placing.{IsInvariant, placed_view};

use crate::task::{Task, task_of};
use c_core::Program;
use c_meaning::PlacedInvariant;
use std::alloc::Global;
use sym_duties::{Obligations, SymFault};
use sym_eval::obligations;
use view_text::Files;
use way_bind::BindFault;
use way_invariants::bind_correctness;
use wv_base::{OutOfMemory, Seq};
use wv_schema::Witness;

/// Invariant sets, and the obligations of a program with them.
#[derive(Drop)]
pub struct Obliged {
    pub witness: Witness,
    pub obligations: Obligations,
}

fn obligations_of(
    alloc: Global,
    program: &Program,
    invariants: &Seq<PlacedInvariant>,
) -> Result<Option<Obligations>, OutOfMemory>
    requires { All (IsInvariant (program_view program.now)) (placed_view invariants.now) }
{
    match obligations(alloc, program, invariants) {
        Ok(found) => Ok(Some(found)),
        Err(SymFault::OutOfMemory) => Err(OutOfMemory),
        Err(_) => Ok(None),
    }
}

fn obligations_in(alloc: Global, task: &Task) -> Result<Option<Obligations>, OutOfMemory> {
    match bind_correctness(alloc, &task.witness, &task.program) {
        Ok(invariants) => obligations_of(alloc, &task.program, &invariants),
        Err(BindFault::OutOfMemory) => Err(OutOfMemory),
        Err(_) => Ok(None),
    }
}

/// The obligations of the files; none where a stage refuses them.
pub fn obliged_by(alloc: Global, files: &Files<'_>) -> Result<Option<Obliged>, OutOfMemory> {
    let Some(task) = task_of(alloc, files)? else {
        return Ok(None);
    };
    match obligations_in(alloc, &task)? {
        Some(obligations) => Ok(Some(Obliged {
            witness: task.witness,
            obligations,
        })),
        None => Ok(None),
    }
}
