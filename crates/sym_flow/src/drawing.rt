// Cells that draw their values in turn.
ghost use Rattle.std.specs.Prelude.{◌≡◌, ◌+◌, ◌*◌, ◌<◌, ◌^◌, IfOk, List, length};
ghost use Rattle.c_core.specs.Types.{width_of};
ghost use Rattle.c_core.specs.View.{program_view};
ghost use Rattle.c_meaning.specs.declared.run.Duty.{Duty};
ghost use Rattle.c_meaning.specs.Duties.{Placed};
ghost use Rattle.sym_meaning.specs.Obliging.{redraw as redraw_of};
ghost use Rattle.c_meaning.specs.Objects as objects;
ghost use Rattle.sym_state.specs.Standing.{IsState};
ghost use Rattle.sym_state.specs.Following.{Follows};
ghost use Rattle.sym_flow.specs.Drawing.{cell_drawn, cells_drawn, bits_of_cells, bits_of_objects};

use c_core::{Program, Spot};
use c_meaning::{DrawKind, size_of_object, type_of_object};
use std::alloc::Global;
use sym_state::{Sym, draw, write};
use wv_base::OutOfMemory;

fn draw_cell(
    alloc: Global,
    program: &Program,
    sym: &mut Sym,
    from: DrawKind,
    spot: Spot,
    object: u32,
    index: u32,
) -> Result<(), OutOfMemory>
    requires fits { IsState (program_view program.now) sym.old }
    requires room { length sym.old.net < 2 ^ 27 }
    ensures { IfOk result (λ r. (ds : List Duty)
        → Follows ds (program_view program.now)
        (4 * width_of program.now.model (objects.type_of_object (program_view program.now) object))
        (width_of program.now.model (objects.type_of_object (program_view program.now) object)) sym.old sym.new
        (λ v u. Unit {0}) (λ v. cell_drawn (program_view program.now) from spot object index)) }
{
    let ty = type_of_object(program, object);
    let value = draw(alloc, program, sym, from, spot, ty)?;
    let here = sym.live;
    write(alloc, program, sym, here, object, index, &value)?;
    Ok(())
}

/// All cells of an object draw their values in turn.
pub fn draw_cells(
    alloc: Global,
    program: &Program,
    sym: &mut Sym,
    from: DrawKind,
    spot: Spot,
    object: u32,
) -> Result<(), OutOfMemory>
    requires fits { IsState (program_view program.now) sym.old }
    requires room { length sym.old.net + 5 * bits_of_cells (program_view program.now) object
        (objects.size_of_object (program_view program.now) object) < 2 ^ 27 }
    ensures { IfOk result (λ r. (ds : List Duty)
        → Follows ds (program_view program.now)
        (4 * bits_of_cells (program_view program.now) object (objects.size_of_object (program_view program.now) object))
        (bits_of_cells (program_view program.now) object (objects.size_of_object (program_view program.now) object))
        sym.old sym.new (λ v u. Unit {0})
        (λ v. cells_drawn (program_view program.now) from spot object 0
        (objects.size_of_object (program_view program.now) object))) }
{
    let count = size_of_object(program, object);
    for index in 0..count {
        draw_cell(alloc, program, sym, from, spot, object, index)?;
    }
    Ok(())
}

/// All cells of the objects that a loop changes draw their values in turn, at the loop's head.
pub fn redraw(
    alloc: Global,
    program: &Program,
    sym: &mut Sym,
    spot: Spot,
    objects: &[u32],
) -> Result<(), OutOfMemory>
    requires fits { IsState (program_view program.now) sym.old }
    requires room { length sym.old.net + 5 * bits_of_objects (program_view program.now) objects.now < 2 ^ 27 }
    ensures { IfOk result (λ r. (ds : List Duty) (I : List Placed)
        → Follows ds (program_view program.now) (4 * bits_of_objects (program_view program.now) objects.now)
        (bits_of_objects (program_view program.now) objects.now) sym.old sym.new (λ v u. Unit {0})
        (λ v. redraw_of (program_view program.now) I spot objects.now)) }
{
    for object in objects {
        draw_cells(alloc, program, sym, DrawKind::Havoc, spot, *object)?;
    }
    Ok(())
}
