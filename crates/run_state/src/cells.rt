// Steps and cells of declared names.
ghost use Rattle.std.specs.Prelude.{◌≡◌, ◌≤◌, ◌++◌, [], pos, slice_get, unwrap_or, length, ◌+◌, IsOk, OnOk, IsOkUnless, ℕ};
ghost use Rattle.c_core.specs.Tree.{Program, Program as Tree};
ghost use Rattle.c_core.specs.View.{program_view};
ghost use Rattle.c_meaning.specs.Cells.{cells_from};
ghost use Rattle.c_meaning.specs.Exec.{ticks as ticks_of};
ghost use Rattle.c_meaning.specs.Meaning.{Tick};
ghost use Rattle.run_state.specs.Interpreting.{Gives, same, state_of, watched, cell_drawn, cells_drawn};

use crate::draws::draw;
use crate::machine::{Halt, Machine};
use c_core::{Program, Spot};
use c_meaning::{DrawKind, End, Memory, Watcher, size_of_object, type_of_object};
use wv_base::OutOfMemory;

/// Takes this many steps, or all that are left.
pub fn ticks<W: Watcher>(machine: &mut Machine, count: u64) -> Result<(), Halt>
    ensures gives { (p : Tree) (tick : Tick) (x : W.Seen)
        → Gives same result (state_of machine.new x)
        (ticks_of p (watched p W.Seen W.after) tick count (state_of machine.old x)) }
    ensures spends { machine.new.steps ≤ machine.old.steps }
{
    if count <= machine.steps {
        machine.steps -= count;
        Ok(())
    } else {
        machine.steps = 0;
        Err(Halt::Ends(End::Spent))
    }
}

/// Appends this many cells of an object, which hold 0.
pub fn add_cells(memory: &mut Memory, object: u32, count: u32) -> Result<(), Halt>
    ensures cells { OnOk result (memory.new.cells ≡ memory.old.cells ++ cells_from object 0 count []) }
    ensures refused { IsOkUnless result Halt.NoMemory }
    ensures kept { memory.old.room ≤ memory.new.room }
    ensures within { length memory.old.cells + count ≤ memory.old.room → IsOk result }
{
    add_started(memory, object, count, &[])?;
    Ok(())
}

/// Appends this many cells of an object, which hold these values and then 0.
pub fn add_started(
    memory: &mut Memory,
    object: u32,
    count: u32,
    values: &[i128],
) -> Result<(), OutOfMemory>
    ensures cells { OnOk result (memory.new.cells ≡ memory.old.cells ++ cells_from object 0 count values.now) }
    ensures kept { memory.old.room ≤ memory.new.room }
    ensures within { length memory.old.cells + count ≤ memory.old.room → IsOk result }
{
    for index in 0..count {
        memory.add(object, index, value_at(values, index))?;
    }
    Ok(())
}

// The value at an index, or 0 beyond the end.
fn value_at(values: &[i128], index: u32) -> i128
    ensures { result ≡ unwrap_or (slice_get values.now index) (pos 0) }
{
    match values.get(index as usize) {
        Some(value) => *value,
        None => 0,
    }
}

// A cell of an object draws its value.
fn draw_cell<W: Watcher>(
    program: &Program,
    machine: &mut Machine,
    spot: Spot,
    object: u32,
    index: u32,
) -> Result<(), Halt>
    ensures gives { (x : W.Seen) → Gives same result (state_of machine.new x)
        (cell_drawn (program_view program.now) W.Seen W.after spot object index (state_of machine.old x)) }
    ensures spends { machine.new.steps ≡ machine.old.steps }
{
    let ty = type_of_object(program, object);
    let value = draw::<W>(program, machine, DrawKind::Cell, spot, ty)?;
    machine.memory.set(object, index, value);
    Ok(())
}

/// The cells of an object draw their values, one after another.
pub fn draw_cells<W: Watcher>(
    program: &Program,
    machine: &mut Machine,
    spot: Spot,
    object: u32,
) -> Result<(), Halt>
    ensures gives { (n : ℕ) (x : W.Seen)
        → Gives same result (state_of machine.new x)
        (cells_drawn (program_view program.now) W.Seen W.after n spot object (state_of machine.old x)) }
    ensures spends { machine.new.steps ≡ machine.old.steps }
{
    let size = size_of_object(program, object);
    for index in 0..size {
        draw_cell::<W>(program, machine, spot, object, index)?;
    }
    Ok(())
}
