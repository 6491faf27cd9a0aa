// Loops: what they change is drawn, and after the one turn they are left, or the run passes.
ghost use Rattle.std.specs.Prelude.{[]};
ghost use Rattle.c_core.specs.View.{program_view};
ghost use Rattle.c_meaning.specs.Havoc as havoc;
ghost use Rattle.run_state.specs.Interpreting.{same, flow_of};
ghost use Rattle.c_meaning.specs.Placing.{placed_view};
ghost use Rattle.havoc_state.specs.Havocking.{Gives, left_of, cell_redrawn, object_redrawn};

use crate::draws::draw;
use crate::invariants::check;
use crate::machine::{Ending, Halt, Machine};
use c_core::{Program, Spot};
use c_meaning::{DrawKind, DutyKind, PlacedInvariant, size_of_object, type_of_object};
use run_state::Flow;

// A cell draws a value.
fn redraw_cell(
    program: &Program,
    machine: &mut Machine,
    spot: Spot,
    object: u32,
    index: u32,
) -> Result<(), Halt>
    ensures { Gives same result (left_of machine.new)
        (cell_redrawn (program_view program.now) [] spot object index (left_of machine.old)) }
{
    let ty = type_of_object(program, object);
    let value = draw(program, machine, DrawKind::Havoc, spot, ty)?;
    machine.memory.set(object, index, value);
    Ok(())
}

// The cells of an object draw values.
fn redraw_object(
    program: &Program,
    machine: &mut Machine,
    spot: Spot,
    object: u32,
) -> Result<(), Halt>
    ensures { Gives same result (left_of machine.new)
        (object_redrawn (program_view program.now) [] spot object (left_of machine.old)) }
{
    let size = size_of_object(program, object);
    for index in 0..size {
        redraw_cell(program, machine, spot, object, index)?;
    }
    Ok(())
}

/// The cells of these objects draw values.
pub fn redraw(
    program: &Program,
    machine: &mut Machine,
    spot: Spot,
    objects: &[u32],
) -> Result<(), Halt>
    ensures { Gives same result (left_of machine.new)
        (havoc.redraw (program_view program.now) [] spot objects.now (left_of machine.old)) }
{
    for object in objects {
        redraw_object(program, machine, spot, *object)?;
    }
    Ok(())
}

/// After the turn: back at the head the invariants have to hold once more, and the run passes there; a loop that
/// is left by `break` or by its test is done.
pub fn close(
    program: &Program,
    invariants: &[PlacedInvariant],
    machine: &Machine,
    spot: Spot,
    flow: Flow,
) -> Result<Flow, Halt>
    ensures { Gives flow_of result (left_of machine.now)
        (havoc.close (program_view program.now) (placed_view invariants.now) spot (flow_of flow)
        (left_of machine.now)) }
{
    match flow {
        Flow::Next => {
            check(program, invariants, machine, true, spot, DutyKind::Kept)?;
            Err(Halt::Ends(Ending::Passes))
        }
        Flow::Broken => Ok(Flow::Next),
        other => Ok(other),
    }
}
