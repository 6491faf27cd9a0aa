// Objects: how many cells each has, and the cells of static storage.
ghost use Rattle.std.specs.Prelude.{◌≡◌, ◌<◌, ◌++◌, [], length, pos, cond, slice_get, unwrap_or, OnOk, IfOk};
ghost use Rattle.c_core.specs.View.{program_view};
ghost use Rattle.c_meaning.specs.Cells.{cells_from};
ghost use Rattle.c_meaning.specs.Run.{first_cells as first_cells_of, start_values as start_values_of};
ghost use Rattle.flow_code.specs.Programs.{cells_of, sizes_of};
ghost use Rattle.flow_code.specs.Statics.{ArePlacesOf};

use crate::code::First;
use c_core::{Object, Program};
use std::alloc::Global;
use wv_base::{OutOfMemory, Seq};

/// The number of each object's cells.
pub fn cell_counts(alloc: Global, program: &Program) -> Result<Seq<u32>, OutOfMemory>
    ensures { IfOk result (λ found. found ≡ sizes_of program.now.objects) }
{
    let mut found = Seq::new(alloc);
    for object in program.objects.as_slice() {
        found.push(object.cells)?;
    }
    Ok(found)
}

/// The cells of objects of static storage, as a run begins.
pub fn first_cells(alloc: Global, program: &Program) -> Result<Seq<First>, OutOfMemory>
    ensures { IfOk result (λ cells. cells_of cells ≡ first_cells_of (program_view program.now)) }
{
    let places = places_of_starts(alloc, program)?;
    let mut cells = Seq::new(alloc);
    let mut number: u32 = 0;
    for object in program.objects.as_slice() {
        let values = start_values(program, places.as_slice(), number);
        add_static(&mut cells, values, number, object)?;
        number += 1;
    }
    Ok(cells)
}

// For each object the place of its start among all, or one beyond their end. No rule says that starts are in the order
// of objects, and a search for each object would make this quadratic.
fn places_of_starts(alloc: Global, program: &Program) -> Result<Vec<usize>, OutOfMemory>
    ensures { IfOk result (λ places. ArePlacesOf places.items (length program.now.objects) program.now.starts) }
{
    let starts = program.starts.as_slice();
    let mut places = vec![in alloc; starts.len(); program.objects.len()]?;
    for place in (0..starts.len()).rev() {
        let object = starts[place].object as usize;
        if object < places.len() {
            places[object] = place;
        }
    }
    Ok(places)
}

// The values that an object starts with.
fn start_values<'p>(program: &'p Program, places: &[usize], object: u32) -> &'p [i128]
    requires places { ArePlacesOf places.now (length program.now.objects) program.now.starts }
    requires within { object < length program.now.objects }
    ensures { result.now ≡ start_values_of object program.now.starts }
{
    match program.starts.get(places[object as usize]) {
        Some(start) => start.values.as_slice(),
        None => &[],
    }
}

// The cells of an object, where it has static storage.
fn add_static(
    cells: &mut Seq<First>,
    values: &[i128],
    number: u32,
    object: &Object,
) -> Result<(), OutOfMemory>
    ensures { OnOk result (cells_of cells.new
        ≡ cells_of cells.old ++ cond object.now.fixed (cells_from number 0 object.now.cells values.now) []) }
{
    if object.fixed {
        add_started(cells, number, object.cells, values)?;
    }
    Ok(())
}

// Appends so many cells of an object, which hold these values and then 0.
fn add_started(
    cells: &mut Seq<First>,
    object: u32,
    count: u32,
    values: &[i128],
) -> Result<(), OutOfMemory>
    ensures { OnOk result (cells_of cells.new ≡ cells_of cells.old ++ cells_from object 0 count values.now) }
{
    for index in 0..count {
        let value = value_at(values, index);
        cells.push(First {
            object,
            index,
            value,
        })?;
    }
    Ok(())
}

// The value at an index, or 0 beyond the end.
fn value_at(values: &[i128], index: u32) -> i128
    ensures { result ≡ unwrap_or (slice_get values.now index) (pos 0) }
{
    match values.get(index as usize) {
        Some(value) => *value,
        None => 0,
    }
}
