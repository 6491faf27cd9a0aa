// Where each run is in an array: a run that is outside ends.
ghost use Rattle.std.specs.Prelude.{◌+◌, ◌<◌, ◌^◌, IfOk, List, length, map};
ghost use Rattle.c_core.specs.View.{program_view};
ghost use Rattle.sym_meaning.specs.Mode.{Mode};
ghost use Rattle.circuits.specs.Net.{holds};
ghost use Rattle.circuits.specs.Numbers.{AreIn, AreTyped};
ghost use Rattle.sym_state.specs.Standing.{IsState, Turned, stopped};
ghost use Rattle.sym_elements.specs.Elements.{Finds, index_in, row_in, found_cost, found_row_cost};
ghost use Rattle.sym_elements.specs.Marks.{none_true};

use crate::marks::none_of;
use crate::placing::{Places, place_index, place_row};
use c_core::{IntType, Program};
use c_meaning::size_of_object;
use circuits::{Bit, Bits};
use std::alloc::Global;
use sym_state::{Sym, stop};
use wv_base::OutOfMemory;

// A run of which no place is true ends, and fails nothing (ISO C11 6.5.6p8).
fn end_outside(program: &Program, sym: &mut Sym, places: &[Bit]) -> Result<(), OutOfMemory>
    requires fits { IsState (program_view program.now) sym.old }
    requires inside { AreIn sym.old.net places.now }
    requires room { length sym.old.net + length places.now < 2 ^ 28 }
    ensures { IfOk result (λ r. Turned (program_view program.now) (length places.now + 1) 0 sym.old sym.new
        (λ v. stopped (none_true (map (holds v sym.old.net) places.now)))) }
{
    let outside = none_of(&mut sym.net, places)?;
    stop(sym, program, outside)?;
    Ok(())
}

/// The places of an index in an object. A run whose index lies outside ends. Where the tests that chose the index are
/// known by where runs are, it is the word that they chose: so reads at equal indexes are the same nodes.
pub fn find(
    alloc: Global,
    program: &Program,
    sym: &mut Sym,
    object: u32,
    ty: IntType,
    index: &Bits,
) -> Result<Places, OutOfMemory>
    requires fits { IsState (program_view program.now) sym.old }
    requires index_in { AreTyped program.now.model ty sym.old.net index.now.bits }
    requires room { length sym.old.net + found_cost (program_view program.now) ty object < 2 ^ 28 }
    ensures { IfOk result (λ r. (W : Mode)
        → Finds (program_view program.now) W object (found_cost (program_view program.now) ty object)
        (index_in (program_view program.now) object ty index.now.bits sym.old) sym.old sym.new r) }
{
    let count = size_of_object(program, object) as usize;
    let here = sym.live;
    let settled = sym.net.settled(alloc, here, index.bits.as_slice())?;
    let yes = sym.net.yes();
    let places = place_index(alloc, &mut sym.net, yes, ty, &settled, count)?;
    end_outside(program, sym, places.bits.as_slice())?;
    Ok(places)
}

/// The places of a row and a column in an object. A run of which one lies outside its own dimension ends.
pub fn find_in_row(
    alloc: Global,
    program: &Program,
    sym: &mut Sym,
    object: u32,
    row_type: IntType,
    row: &Bits,
    column_type: IntType,
    column: &Bits,
) -> Result<Places, OutOfMemory>
    requires fits { IsState (program_view program.now) sym.old }
    requires row_in { AreTyped program.now.model row_type sym.old.net row.now.bits }
    requires column_in { AreTyped program.now.model column_type sym.old.net column.now.bits }
    requires room { length sym.old.net + found_row_cost (program_view program.now) row_type column_type object < 2 ^
        28 }
    ensures { IfOk result (λ r. (W : Mode)
        → Finds (program_view program.now) W object
        (found_row_cost (program_view program.now) row_type column_type object)
        (row_in (program_view program.now) object row_type row.now.bits column_type column.now.bits sym.old) sym.old
        sym.new r) }
{
    let here = sym.live;
    let settled_row = sym.net.settled(alloc, here, row.bits.as_slice())?;
    let settled_column = sym.net.settled(alloc, here, column.bits.as_slice())?;
    let yes = sym.net.yes();
    let places = place_row(
        alloc,
        program,
        &mut sym.net,
        object,
        yes,
        row_type,
        &settled_row,
        column_type,
        &settled_column,
    )?;
    end_outside(program, sym, places.bits.as_slice())?;
    Ok(places)
}
