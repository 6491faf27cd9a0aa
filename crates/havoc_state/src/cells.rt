// Cells of declared names draw their values.
ghost use Rattle.std.specs.Prelude.{ℕ, []};
ghost use Rattle.c_core.specs.View.{program_view};
ghost use Rattle.run_state.specs.Interpreting.{same};
ghost use Rattle.havoc_state.specs.Havocking.{Gives, left_of, cell_drawn, cells_drawn};

use crate::draws::draw;
use crate::machine::{Halt, Machine};
use c_core::{Program, Spot};
use c_meaning::{DrawKind, size_of_object, type_of_object};

// A cell of an object draws its value.
fn draw_cell(
    program: &Program,
    machine: &mut Machine,
    spot: Spot,
    object: u32,
    index: u32,
) -> Result<(), Halt>
    ensures { Gives same result (left_of machine.new)
        (cell_drawn (program_view program.now) [] spot object index (left_of machine.old)) }
{
    let ty = type_of_object(program, object);
    let value = draw(program, machine, DrawKind::Cell, spot, ty)?;
    machine.memory.set(object, index, value);
    Ok(())
}

/// The cells of an object draw their values, one after another.
pub fn draw_cells(
    program: &Program,
    machine: &mut Machine,
    spot: Spot,
    object: u32,
) -> Result<(), Halt>
    ensures { (n : ℕ) → Gives same result (left_of machine.new)
        (cells_drawn (program_view program.now) [] n spot object (left_of machine.old)) }
{
    let size = size_of_object(program, object);
    for index in 0..size {
        draw_cell(program, machine, spot, object, index)?;
    }
    Ok(())
}
