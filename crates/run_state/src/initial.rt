// The state in which a run starts.
ghost use Rattle.std.specs.Prelude.{◌≡◌, ◌++◌, [], cond, IfOk, OnOk};
ghost use Rattle.c_core.specs.View.{program_view};
ghost use Rattle.c_meaning.specs.Cells.{cells_from};
ghost use Rattle.c_meaning.specs.Run.{first_cells, first_state, start_values as start_values_of};
ghost use Rattle.run_state.specs.Interpreting.{state_of};

use crate::cells::add_started;
use crate::choices::all_left;
use crate::machine::Machine;
use c_core::{Object, Program};
use c_meaning::{Choices, Memory};
use std::alloc::Global;
use wv_base::{OutOfMemory, Seq};

/// A run before its first step.
pub fn start(
    alloc: Global,
    program: &Program,
    choices: &Choices,
    steps: u64,
) -> Result<Machine, OutOfMemory>
    ensures { IfOk result (λ machine. state_of machine tt
        ≡ first_state (program_view program.now) (Unit {0}) tt choices.now steps) }
{
    let memory = static_cells(alloc, program)?;
    let left = all_left(alloc, choices)?;
    Ok(Machine {
        alloc,
        steps,
        memory,
        active: 0,
        left,
        draws: Seq::new(alloc),
        unfixed: 0,
    })
}

// The cells of objects of static storage.
fn static_cells(alloc: Global, program: &Program) -> Result<Memory, OutOfMemory>
    ensures { IfOk result (λ memory. memory.cells ≡ first_cells (program_view program.now)) }
{
    let mut memory = Memory::new(alloc);
    let mut number: u32 = 0;
    for object in program.objects.as_slice() {
        add_static(&mut memory, program, number, object)?;
        number += 1;
    }
    Ok(memory)
}

// The cells of an object, where it has static storage.
fn add_static(
    memory: &mut Memory,
    program: &Program,
    number: u32,
    object: &Object,
) -> Result<(), OutOfMemory>
    ensures { OnOk result (memory.new.cells
        ≡ memory.old.cells ++ cond object.now.fixed
        (cells_from number 0 object.now.cells (start_values_of number program.now.starts)) []) }
{
    if object.fixed {
        add_started(memory, number, object.cells, start_values(program, number))?;
    }
    Ok(())
}

// The values that an object starts with.
fn start_values(program: &Program, object: u32) -> &[i128]
    ensures { result.now ≡ start_values_of object program.now.starts }
{
    for start in program.starts.as_slice() {
        if start.object == object {
            return start.values.as_slice();
        }
    }
    &[]
}
