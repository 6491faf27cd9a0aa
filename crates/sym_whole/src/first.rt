// The state from which each run sets out.
ghost use Rattle.std.specs.Prelude.{◌≡◌, ◌∷◌, [], ℕ, Bool, pos, cond, map, IfOk, IsTrue, slice_get, unwrap_or};
ghost use Rattle.c_core.specs.Types.{in_range};
ghost use Rattle.c_core.specs.View.{program_view};
ghost use Rattle.c_meaning.specs.Cells.{cells_from};
ghost use Rattle.c_meaning.specs.Fitting.{FitCells};
ghost use Rattle.c_meaning.specs.Objects as objects;
ghost use Rattle.c_meaning.specs.Run.{first_cells, start_values as start_values_of};
ghost use Rattle.circuits.specs.Net.{holds};
ghost use Rattle.circuits.specs.Numbers.{AreIn};
ghost use Rattle.sym_flow.specs.Ways.{Became};
ghost use Rattle.sym_state.specs.Places.{key};
ghost use Rattle.sym_state.specs.Standing.{IsState};
ghost use Rattle.sym_whole.specs.Starting.{at_start, with_more, IsFirst};

use c_core::{IntType, Object, Program};
use c_meaning::type_of_object;
use circuits::{Bit, Net, const_bits, not};
use std::alloc::Global;
use sym_state::{Sym, SymCell};
use wv_base::OutOfMemory;

// A cell of an object, which holds a value of its type.
fn start_cell(
    alloc: Global,
    program: &Program,
    sym: &mut Sym,
    object: u32,
    index: u32,
    value: i128,
) -> Result<(), OutOfMemory>
    requires fits { IsState (program_view program.now) sym.old }
    requires fit { IsTrue (in_range program.now.model (objects.type_of_object (program_view program.now) object)
        value) }
    ensures { IfOk result (λ r. Became (program_view program.now) 0 sym.old sym.new
        (λ v. with_more (record { key = key object index; value = value } ∷ []))) }
{
    let ty = type_of_object(program, object);
    let bits = const_bits(alloc, &sym.net, program.model, ty, value)?;
    let cell = SymCell {
        object,
        index,
        bits,
    };
    sym.cells.push(cell)?;
    Ok(())
}

// The value at an index, or 0 beyond the end.
fn value_at(values: &[i128], index: u32) -> i128
    ensures { result ≡ unwrap_or (slice_get values.now index) (pos 0) }
{
    match values.get(index as usize) {
        Some(value) => *value,
        None => 0,
    }
}

// This many cells of an object, which hold these values and then 0.
fn start_cells(
    alloc: Global,
    program: &Program,
    sym: &mut Sym,
    object: u32,
    count: u32,
    values: &[i128],
) -> Result<(), OutOfMemory>
    requires fits { IsState (program_view program.now) sym.old }
    requires fit { FitCells (program_view program.now) (cells_from object 0 count values.now) }
    ensures { IfOk result (λ r. Became (program_view program.now) 0 sym.old sym.new
        (λ v. with_more (cells_from object 0 count values.now))) }
{
    for index in 0..count {
        let value = value_at(values, index);
        start_cell(alloc, program, sym, object, index, value)?;
    }
    Ok(())
}

// The values that an object starts with.
fn start_values(program: &Program, object: u32) -> &[i128]
    ensures { result.now ≡ start_values_of object program.now.starts }
{
    for start in program.starts.as_slice() {
        if start.object == object {
            return start.values.as_slice();
        }
    }
    &[]
}

// The cells of an object, where it has static storage.
fn start_object(
    alloc: Global,
    program: &Program,
    sym: &mut Sym,
    number: u32,
    object: &Object,
) -> Result<(), OutOfMemory>
    requires fits { IsState (program_view program.now) sym.old }
    requires fit { FitCells (program_view program.now)
        (cond object.now.fixed (cells_from number 0 object.now.cells (start_values_of number program.now.starts)) []) }
    ensures { IfOk result (λ r. Became (program_view program.now) 0 sym.old sym.new
        (λ v. with_more
        (cond object.now.fixed (cells_from number 0 object.now.cells (start_values_of number program.now.starts))
        []))) }
{
    if !object.fixed {
        return Ok(());
    }
    start_cells(
        alloc,
        program,
        sym,
        number,
        object.cells,
        start_values(program, number),
    )?;
    Ok(())
}

// The cells of all objects of static storage.
fn start_objects(alloc: Global, program: &Program, sym: &mut Sym) -> Result<(), OutOfMemory>
    requires fits { IsState (program_view program.now) sym.old }
    ensures { IfOk result (λ r. Became (program_view program.now) 0 sym.old sym.new
        (λ v. with_more (first_cells (program_view program.now)))) }
{
    let mut number: u32 = 0;
    for object in program.objects.as_slice() {
        start_object(alloc, program, sym, number, object)?;
        number += 1;
    }
    Ok(())
}

// Of this many segments none is completed.
fn none_completed(alloc: Global, net: &Net, segments: u32) -> Result<Vec<Bit>, OutOfMemory>
    ensures { IfOk result (λ r. AreIn net.now r.items
        × ((v : ℕ → Bool) → map (holds v net.now) r.items ≡ at_start segments)) }
{
    let here = net.yes();
    let mut completed = vec![in alloc; not(here); segments as usize]?;
    if segments == 0 {
        return Ok(completed);
    }
    completed[0] = here;
    Ok(completed)
}

/// Before a program of this many duties, with this many segments to follow: each run is there, with the cells of static
/// objects.
pub fn start(
    alloc: Global,
    program: &Program,
    duties: u32,
    segments: u32,
) -> Result<Sym, OutOfMemory>
    ensures { IfOk result (λ s. IsFirst (program_view program.now) duties segments s) }
{
    let net = Net::new(alloc)?;
    let here = net.yes();
    let never = not(here);
    let given = const_bits(alloc, &net, program.model, IntType::Int, 0)?;
    let failing = vec![in alloc; never; duties as usize]?;
    let completed = none_completed(alloc, &net, segments)?;
    let mut sym = Sym {
        net,
        live: here,
        broken: never,
        again: never,
        gave: never,
        result: IntType::Int,
        given,
        failing,
        completed,
        cells: Vec::new(alloc),
        sites: Vec::new(alloc),
    };
    start_objects(alloc, program, &mut sym)?;
    Ok(sym)
}
