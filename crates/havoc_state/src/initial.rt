// The state in which a havoc run starts.
ghost use Rattle.std.specs.Prelude.{◌≡◌, [], IfOk, reverse};
ghost use Rattle.c_core.specs.View.{program_view};
ghost use Rattle.c_meaning.specs.Havoc.{Left};
ghost use Rattle.c_meaning.specs.Run.{first_cells};
ghost use Rattle.havoc_state.specs.Havocking.{left_of, first_left};

use crate::machine::Machine;
use c_core::Program;
use c_meaning::Choices;
use std::alloc::Global;
use wv_base::{OutOfMemory, Seq};

// The values from the last to the first.
fn reversed(alloc: Global, values: &[i128]) -> Result<Vec<i128>, OutOfMemory>
    ensures { IfOk result (λ found. found.items ≡ reverse values.now) }
{
    let mut last_first = values.to_vec(alloc)?;
    last_first.reverse();
    Ok(last_first)
}

/// A havoc run before its first part: static objects have their first values. The memory is that of a run.
pub fn start(alloc: Global, program: &Program, values: &[i128]) -> Result<Machine, OutOfMemory>
    ensures { IfOk result (λ machine. left_of machine ≡ first_left (program_view program.now) values.now) }
{
    let run = run_state::start(alloc, program, &Choices::InTurn(Seq::new(alloc)), 0)?;
    let left = reversed(alloc, values)?;
    Ok(Machine {
        alloc,
        memory: run.memory,
        left,
        draws: Seq::new(alloc),
    })
}
