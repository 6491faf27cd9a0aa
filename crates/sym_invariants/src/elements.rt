// Elements of arrays: there is one where the index has a value that isn't outside, and the cell is live.
ghost use Rattle.std.specs.Prelude.{◌≡◌, ℕ, ◌+◌, ◌*◌, ◌<◌, ◌≤◌, ◌^◌, IfOk, List, Some, is_some, length};
ghost use Rattle.c_core.specs.View.{program_view};
ghost use Rattle.c_meaning.specs.Objects as objects;
ghost use Rattle.c_meaning.specs.Value as value;
ghost use Rattle.circuits.specs.declared.net.NetNode.{NetNode};
ghost use Rattle.circuits.specs.Net.{Means, IsIn};
ghost use Rattle.circuits.specs.Numbers.{AreIn, AreTyped};
ghost use Rattle.sym_state.specs.Places.{live_in};
ghost use Rattle.sym_state.specs.Standing.{stand, IsState};
ghost use Rattle.sym_values.specs.Valuing.{Decided};
ghost use Rattle.sym_elements.specs.Placing.{MaybeCell, ArePlaced};
ghost use Rattle.sym_invariants.specs.Valued.{Perhaps, IsSeen, Sees, held_in, seen_cell, cell_cost, element_cost, row_element_cost};

use crate::seen::{Seen, pick};
use c_core::{IntType, Program};
use c_meaning::{size_of_object, type_of_object};
use circuits::{Bit, not};
use std::alloc::Global;
use sym_elements::{Places, place_index, place_row, read_among};
use sym_state::{Sym, place_of};
use wv_base::OutOfMemory;

// Is there a live cell of an object at an index? All runs have the same cells.
fn is_live(sym: &Sym, object: u32, index: u32) -> Bit
    ensures { Means sym.now.net result (λ v. live_in object index sym.now.cells.items) }
{
    match place_of(&sym.cells, object, index) {
        Some(_) => sym.net.yes(),
        None => not(sym.net.yes()),
    }
}

// Is the cell of an object live whose place is true? No, where none is true.
fn live_at(
    program: &Program,
    sym: &mut Sym,
    object: u32,
    places: &[Bit],
) -> Result<Bit, OutOfMemory>
    requires fits { IsState (program_view program.now) sym.old }
    requires inside { AreIn sym.old.net places.now }
    requires room { length sym.old.net + 3 * length places.now < 2 ^ 27 }
    ensures { IfOk result (λ r. Decided (program_view program.now) (3 * length places.now) sym.old sym.new r
        (λ v. is_some (held_in (program_view program.now) object sym.old places.now (length places.now) v))) }
{
    let mut live = not(sym.net.yes());
    for i in 0..places.len() {
        let held = is_live(sym, object, i as u32);
        live = pick(program, sym, places[i], held, live)?;
    }
    Ok(live)
}

// What the cell of an object holds at its place, where a place is true and the cell is live.
fn at_places(
    alloc: Global,
    program: &Program,
    sym: &mut Sym,
    object: u32,
    places: &Places,
) -> Result<Seen, OutOfMemory>
    requires fits { IsState (program_view program.now) sym.old }
    requires inside { AreIn sym.old.net places.now.bits }
    requires digits_in { AreIn sym.old.net places.now.digits }
    requires some { 0 < places.now.columns }
    requires few { length places.now.bits ≤ objects.size_of_object (program_view program.now) object }
    requires room { length sym.old.net + cell_cost (program_view program.now) object < 2 ^ 27 }
    ensures { IfOk result (λ r. (before : List NetNode) (i m : ℕ) (cell : MaybeCell)
        → ArePlaced before sym.old.net i m cell places.now
        → Sees (program_view program.now) (cell_cost (program_view program.now) object) sym.old sym.new
        (Some (objects.type_of_object (program_view program.now) object)) r.bits.bits r.defined
        (λ v. value.and_then (cell v) (seen_cell (program_view program.now) object v sym.old))) }
{
    let ty = type_of_object(program, object);
    let bits = places.bits.as_slice();
    let digits = places.digits.as_slice();
    let (inner, columns) = (places.inner, places.columns);
    let defined = live_at(program, sym, object, bits)?;
    let count = bits.len() as u32;
    let bits = read_among(
        alloc, program, sym, object, ty, digits, inner, columns, 0, count,
    )?;
    Ok(Seen { bits, defined })
}

/// The element at an index of a type.
pub fn element_at(
    alloc: Global,
    program: &Program,
    sym: &mut Sym,
    object: u32,
    from: IntType,
    index: &Seen,
) -> Result<Seen, OutOfMemory>
    requires fits { IsState (program_view program.now) sym.old }
    requires index_in { AreTyped program.now.model from sym.old.net index.now.bits.bits }
    requires index_defined { IsIn sym.old.net index.now.defined }
    requires room { length sym.old.net + element_cost (program_view program.now) from object < 2 ^ 27 }
    ensures { IfOk result (λ r. (f : Perhaps)
        → IsSeen program.now.model (Some from) sym.old.net index.now.bits.bits index.now.defined f
        → Sees (program_view program.now) (element_cost (program_view program.now) from object) sym.old sym.new
        (Some (objects.type_of_object (program_view program.now) object)) r.bits.bits r.defined
        (λ v. value.and_then (f v)
        (λ j. value.seen_in (program_view program.now) object j (stand (program_view program.now) v sym.old).cells))) }
{
    let count = size_of_object(program, object) as usize;
    let digits = index.bits.bits.as_slice();
    let places = place_index(alloc, &mut sym.net, index.defined, from, digits, count)?;
    let r = at_places(alloc, program, sym, object, &places)?;
    Ok(r)
}

/// The element at a row and a column of two types.
pub fn element_in_row(
    alloc: Global,
    program: &Program,
    sym: &mut Sym,
    object: u32,
    row_type: IntType,
    row: &Seen,
    column_type: IntType,
    column: &Seen,
) -> Result<Seen, OutOfMemory>
    requires fits { IsState (program_view program.now) sym.old }
    requires row_in { AreTyped program.now.model row_type sym.old.net row.now.bits.bits }
    requires row_defined { IsIn sym.old.net row.now.defined }
    requires column_in { AreTyped program.now.model column_type sym.old.net column.now.bits.bits }
    requires column_defined { IsIn sym.old.net column.now.defined }
    requires room { length sym.old.net + row_element_cost (program_view program.now) row_type column_type object < 2 ^
        27 }
    ensures { IfOk result (λ r. (f g : Perhaps)
        → IsSeen program.now.model (Some row_type) sym.old.net row.now.bits.bits row.now.defined f
        → IsSeen program.now.model (Some column_type) sym.old.net column.now.bits.bits column.now.defined g
        → Sees (program_view program.now) (row_element_cost (program_view program.now) row_type column_type object)
        sym.old sym.new (Some (objects.type_of_object (program_view program.now) object)) r.bits.bits r.defined
        (λ v. value.and_then (f v)
        (λ i. value.and_then (g v)
        (λ j. value.seen_in_row (program_view program.now) object i j
        (stand (program_view program.now) v sym.old).cells)))) }
{
    let both = sym.net.and(row.defined, column.defined)?;
    let places = place_row(
        alloc,
        program,
        &mut sym.net,
        object,
        both,
        row_type,
        row.bits.bits.as_slice(),
        column_type,
        column.bits.bits.as_slice(),
    )?;
    let r = at_places(alloc, program, sym, object, &places)?;
    Ok(r)
}
