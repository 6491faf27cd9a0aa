// An obligation that fails: its invariant, its place, and the values of the havoc run that ends there, by the names of
// their objects.
use crate::weeding::note_weeding;
use c_calls::changed;
use c_core::{Object, Program, Spot};
use c_meaning::{Draw, DrawKind, Duty, DutyKind, size_of_object};
use std::alloc::Global;
use view_binding::{claim_of_invariant, head, invariant_at, name_of};
use view_paths::{invariant_path, place_in_value, steps_of};
use view_runs::{declared_at, is_same_spot, type_word};
use view_text::{File, Files, Messages, width_at};
use wv_base::OutOfMemory;
use wv_schema::{Invariant, Witness};

/// So many values are told.
const MOST: usize = 60;

/// What it means that an obligation of a kind fails.
fn meaning_of(kind: DutyKind) -> &'static str {
    match kind {
        DutyKind::Location =>
            "a havoc run reaches this statement with values for which the invariant doesn't hold: where they belong to no real run, the loops before it need a stronger invariant",
        DutyKind::Entry =>
            "a havoc run comes to this loop with values for which its invariant doesn't hold: a weaker invariant, or stronger ones of the loops before it",
        DutyKind::Kept =>
            "one turn of this loop, from values for which its invariant holds, leads to values for which it doesn't: it isn't inductive; conjoin what the turn needs",
        DutyKind::Property =>
            "a havoc run violates the property here: where its values belong to no real run, the last loop before it needs a stronger invariant",
    }
}

/// An invariant by its number, its type, its place and its text, in parentheses.
fn in_parentheses(
    alloc: Global,
    number: u32,
    invariant: &Invariant,
) -> Result<String, OutOfMemory> {
    let claim = claim_of_invariant(number, invariant, "");
    let told = head(alloc, &claim)?;
    let told = told.as_str();
    Ok(format!(in alloc; " ({told})")?)
}

/// The invariant of an obligation; empty for one about the property.
fn invariant_text(alloc: Global, witness: &Witness, duty: Duty) -> Result<String, OutOfMemory> {
    let Some(number) = duty.invariant else {
        return Ok(String::new(alloc));
    };
    match invariant_at(witness, number) {
        Some(invariant) => in_parentheses(alloc, number.saturating_add(1), invariant),
        None => Ok(String::new(alloc)),
    }
}

/// An obligation by its number and what it says, and why it is told.
pub fn obligation_text(
    alloc: Global,
    witness: &Witness,
    index: u32,
    duty: Duty,
    why: &str,
) -> Result<String, OutOfMemory> {
    let invariant = invariant_text(alloc, witness, duty)?;
    let invariant = invariant.as_str();
    Ok(format!(in alloc; "obligation {index}{invariant}: {why}")?)
}

/// Where the invariant of an obligation stands in the witness.
pub fn note_invariant(
    alloc: Global,
    files: &Files<'_>,
    witness: &Witness,
    duty: Duty,
    out: &mut Messages,
) -> Result<(), OutOfMemory> {
    let Some(number) = duty.invariant else {
        return Ok(());
    };
    let Some(path) = invariant_path(alloc, witness, number.saturating_add(1))? else {
        return Ok(());
    };
    let Some(invariant) = invariant_at(witness, number) else {
        return Ok(());
    };
    let path = path.as_str();
    let whole = format!(in alloc; "{path}.value")?;
    let steps = steps_of(alloc, whole.as_str())?;
    let text = files.text(File::Witness);
    let stated = invariant.value.as_str();
    let spot = place_in_value(alloc, text, steps.as_slice(), stated, 0)?;
    out.remark(File::Witness, Some(spot), "the invariant stands here")?;
    out.mark(width_at(text, spot, stated));
    Ok(())
}

/// An obligation that belongs to the message before, with why it is told.
pub fn note_obligation(
    alloc: Global,
    files: &Files<'_>,
    witness: &Witness,
    index: u32,
    duty: Duty,
    why: &str,
    out: &mut Messages,
) -> Result<(), OutOfMemory> {
    let told = obligation_text(alloc, witness, index, duty, why)?;
    out.note(File::Program, Some(duty.spot), told)?;
    note_invariant(alloc, files, witness, duty, out)
}

/// A cell of an object.
#[derive(Clone, Copy)]
struct Cell {
    object: u32,
    index: u32,
}

fn push_cells(program: &Program, object: u32, cells: &mut Vec<Cell>) -> Result<(), OutOfMemory> {
    for index in 0..size_of_object(program, object) {
        cells.push(Cell { object, index })?;
    }
    Ok(())
}

/// The cells that draw at the head of a loop, in their order.
fn cells_at(alloc: Global, program: &Program, spot: Spot) -> Result<Vec<Cell>, OutOfMemory> {
    let objects = changed(alloc, program, spot)?;
    let mut cells = Vec::new(alloc);
    for object in objects.as_slice() {
        push_cells(program, *object, &mut cells)?;
    }
    Ok(cells)
}

/// The indexes of a cell, each in brackets.
fn indexes_text(alloc: Global, object: &Object, index: u32) -> Result<String, OutOfMemory> {
    match object.dims {
        0 => Ok(String::new(alloc)),
        1 => Ok(format!(in alloc; "[{index}]")?),
        _ => {
            let columns = object.columns;
            let row = index.checked_div(columns).unwrap_or(0);
            let column = index.checked_rem(columns).unwrap_or(0);
            Ok(format!(in alloc; "[{row}][{column}]")?)
        }
    }
}

fn cell_name(alloc: Global, program: &Program, cell: Cell) -> Result<String, OutOfMemory> {
    let name = name_of(program, cell.object);
    let indexes = match program.objects.get(cell.object as usize) {
        Some(object) => indexes_text(alloc, object, cell.index)?,
        None => String::new(alloc),
    };
    let indexes = indexes.as_str();
    Ok(format!(in alloc; "`{name}{indexes}`")?)
}

/// Draws that follow one another at one place.
#[derive(Drop)]
struct Series {
    spot: Spot,
    /// The cells that draw there, where it is the head of a loop.
    cells: Vec<Cell>,
    /// How many have drawn.
    drawn: usize,
}

fn nowhere(alloc: Global) -> Series {
    Series {
        spot: Spot { line: 0, column: 0 },
        cells: Vec::new(alloc),
        drawn: 0,
    }
}

/// Whether a draw belongs to a series; the cells of a loop are drawn all before they are drawn again.
fn goes_on(series: &Series, draw: &Draw) -> bool {
    let is_over = draw.from == DrawKind::Havoc && series.drawn >= series.cells.len();
    is_same_spot(series.spot, draw.spot) && !is_over
}

/// The series that a draw begins.
fn begun_by(alloc: Global, program: &Program, draw: &Draw) -> Result<Series, OutOfMemory> {
    let cells = match draw.from {
        DrawKind::Havoc => cells_at(alloc, program, draw.spot)?,
        _ => Vec::new(alloc),
    };
    Ok(Series {
        spot: draw.spot,
        cells,
        drawn: 0,
    })
}

fn input_name(alloc: Global, draw: &Draw) -> Result<String, OutOfMemory> {
    let ty = type_word(draw.ty);
    Ok(format!(in alloc; "this input call gives the {ty}")?)
}

fn declared_name(alloc: Global, program: &Program, draw: &Draw) -> Result<String, OutOfMemory> {
    match declared_at(program, draw.spot) {
        Some(object) => {
            let name = object.name.as_str();
            Ok(format!(in alloc; "`{name}`, declared without a value, is")?)
        }
        None => Ok(String::from_str(alloc, "a cell without a value is")?),
    }
}

fn havoc_name(alloc: Global, program: &Program, series: &Series) -> Result<String, OutOfMemory> {
    match series.cells.get(series.drawn) {
        Some(cell) => {
            let name = cell_name(alloc, program, *cell)?;
            let name = name.as_str();
            Ok(format!(in alloc; "at the head of this loop {name} is")?)
        }
        None => Ok(String::from_str(alloc, "at the head of this loop a cell is")?),
    }
}

fn draw_name(
    alloc: Global,
    program: &Program,
    series: &Series,
    draw: &Draw,
) -> Result<String, OutOfMemory> {
    match draw.from {
        DrawKind::Input => input_name(alloc, draw),
        DrawKind::Cell => declared_name(alloc, program, draw),
        DrawKind::Havoc => havoc_name(alloc, program, series),
    }
}

/// A note for the next value of a series.
fn note_draw(
    alloc: Global,
    program: &Program,
    series: &Series,
    draw: &Draw,
    out: &mut Messages,
) -> Result<(), OutOfMemory> {
    let name = draw_name(alloc, program, series, draw)?;
    let name = name.as_str();
    let value = draw.value;
    let told = format!(in alloc; "{name} {value}")?;
    out.note(File::Program, Some(draw.spot), told)
}

/// A note for each value that the havoc run draws.
fn note_draws(
    alloc: Global,
    program: &Program,
    draws: &[Draw],
    out: &mut Messages,
) -> Result<(), OutOfMemory> {
    let mut series = nowhere(alloc);
    for draw in draws.get(..MOST).unwrap_or(draws) {
        if !goes_on(&series, draw) {
            series = begun_by(alloc, program, draw)?;
        }
        note_draw(alloc, program, &series, draw, out)?;
        series.drawn = series.drawn.saturating_add(1);
    }
    Ok(())
}

/// An obligation that doesn't hold.
pub fn explain_failed(
    alloc: Global,
    files: &Files<'_>,
    program: &Program,
    witness: &Witness,
    index: u32,
    duty: Duty,
    draws: &[Draw],
    out: &mut Messages,
) -> Result<(), OutOfMemory> {
    let told = obligation_text(alloc, witness, index, duty, meaning_of(duty.kind))?;
    out.warning("obligation", File::Program, Some(duty.spot), told)?;
    note_draws(alloc, program, draws, out)?;
    if duty.invariant.is_none() {
        return Ok(());
    }
    note_invariant(alloc, files, witness, duty, out)?;
    note_weeding(alloc, files, out)
}
