// The draws of a run: what the witness gave, and for what it gave no value.
use crate::stored::stored_inputs;
use c_core::{IntType, Program, Spot};
use c_meaning::{Choices, Draw, DrawKind};
use std::alloc::Global;
use std::collections::BTreeMap;
use view_runs::{declared_at, is_same_spot, type_word};
use view_text::{File, Messages};
use wv_base::OutOfMemory;

/// Draws are told of so many places.
const MOST: usize = 20;

/// So many values of a place are told, and the last.
const MOST_VALUES: usize = 5;

/// The draws at one place, with the first values and the last.
#[derive(Drop)]
struct Tally {
    spot: Spot,
    kind: DrawKind,
    ty: IntType,
    count: u64,
    first: Vec<i128>,
    last: i128,
}

/// How many values are given to the input call at a place.
fn given_at(choices: &Choices, spot: Spot) -> u64 {
    let Choices::Given(calls) = choices else {
        return 0;
    };
    for call in calls.as_slice() {
        if is_same_spot(call.spot, spot) {
            return call.values.len() as u64;
        }
    }
    0
}

/// Counts a draw of a tally's place.
fn count_draw(tally: &mut Tally, draw: &Draw) -> Result<(), OutOfMemory> {
    tally.count = tally.count.saturating_add(1);
    tally.last = draw.value;
    if tally.first.len() < MOST_VALUES {
        tally.first.push(draw.value)?;
    }
    Ok(())
}

/// Counts a draw at its line and column.
fn place_draw(
    alloc: Global,
    tallies: &mut BTreeMap<(u32, u32), Tally>,
    draw: &Draw,
) -> Result<(), OutOfMemory> {
    let none = Tally {
        spot: draw.spot,
        kind: draw.from,
        ty: draw.ty,
        count: 0,
        first: Vec::new(alloc),
        last: 0,
    };
    let place = (draw.spot.line, draw.spot.column);
    let tally = tallies.entry(place)?.or_insert(none);
    count_draw(tally, draw)
}

/// The draws at each place, by line and column.
fn tallies_of(alloc: Global, draws: &[Draw]) -> Result<BTreeMap<(u32, u32), Tally>, OutOfMemory> {
    let mut tallies = BTreeMap::new(alloc);
    for draw in draws {
        place_draw(alloc, &mut tallies, draw)?;
    }
    Ok(tallies)
}

/// How a value is given to an input call.
const REMEDY: &str =
    "function_return with `\\result == VALUE` at the closing parenthesis gives one, or an assumption on the statement after it";

/// The values of a place, as `1, 2, 3, 4, 5, .., 9`.
fn values_text(alloc: Global, tally: &Tally) -> Result<String, OutOfMemory> {
    let mut text = String::new(alloc);
    let mut between = "";
    for value in tally.first.as_slice() {
        write!(text, "{between}{value}")?;
        between = ", ";
    }
    let told = tally.first.len() as u64;
    let last = tally.last;
    if tally.count > told.saturating_add(1) {
        write!(text, ", .., {last}")?;
    } else if tally.count > told {
        write!(text, ", {last}")?;
    }
    Ok(text)
}

/// What one draw is told as, by its values, the object that takes them, and how many the witness gives.
fn one_text(alloc: Global, tally: &Tally, taker: &str, given: u64) -> Result<String, OutOfMemory> {
    let ty = type_word(tally.ty);
    let value = tally.last;
    let remedy = REMEDY;
    if given > 0 {
        return Ok(format!(in alloc;
            "this input call drew {ty} {value}{taker}, given by the witness"
        )?);
    }
    Ok(format!(in alloc;
        "this input call drew one {ty}{taker}, which was 0, since no waypoint gives a value; {remedy}"
    )?)
}

fn input_text(
    alloc: Global,
    tally: &Tally,
    taker: &str,
    given: u64,
) -> Result<String, OutOfMemory> {
    let ty = type_word(tally.ty);
    let count = tally.count;
    if count == 1 {
        return one_text(alloc, tally, taker, given);
    }
    let values = values_text(alloc, tally)?;
    let values = values.as_str();
    let free = count.saturating_sub(given);
    let remedy = REMEDY;
    if free == 0 {
        return Ok(format!(in alloc;
            "this input call drew {count} values of {ty}{taker}, given by the witness: {values}"
        )?);
    }
    Ok(format!(in alloc;
        "this input call drew {count} values of {ty}{taker}: {values}, the last {free} of them 0, since no waypoint gives them; {remedy}"
    )?)
}

/// The object that takes the values of a place, in words that stand after it; empty where none does by itself.
fn taker_of(
    alloc: Global,
    program: &Program,
    stored: &BTreeMap<(u32, u32), u32>,
    spot: Spot,
) -> Result<String, OutOfMemory> {
    let Some(object) = stored.get(&(spot.line, spot.column)) else {
        return Ok(String::new(alloc));
    };
    match program.objects.get(*object as usize) {
        Some(found) => {
            let name = found.name.as_str();
            Ok(format!(in alloc; " for `{name}`")?)
        }
        None => Ok(String::new(alloc)),
    }
}

/// The name of the object that is declared at a place.
fn name_at(program: &Program, spot: Spot) -> &str {
    match declared_at(program, spot) {
        Some(object) => object.name.as_str(),
        None => "an object",
    }
}

fn cell_text(alloc: Global, program: &Program, tally: &Tally) -> Result<String, OutOfMemory> {
    let name = name_at(program, tally.spot);
    let count = tally.count;
    Ok(format!(in alloc;
        "`{name}` is declared here without a value and stood at 0 (cells: {count}), which no waypoint can change"
    )?)
}

/// What is told of the draws at a place.
fn told_of(
    alloc: Global,
    program: &Program,
    choices: &Choices,
    stored: &BTreeMap<(u32, u32), u32>,
    tally: &Tally,
) -> Result<String, OutOfMemory> {
    match tally.kind {
        DrawKind::Input => {
            let given = given_at(choices, tally.spot);
            let taker = taker_of(alloc, program, stored, tally.spot)?;
            input_text(alloc, tally, taker.as_str(), given)
        }
        _ => cell_text(alloc, program, tally),
    }
}

/// A note for each place that draws, with its values, and how one gives them where no waypoint did.
pub fn note_unfixed(
    alloc: Global,
    program: &Program,
    choices: &Choices,
    draws: &[Draw],
    out: &mut Messages,
) -> Result<(), OutOfMemory> {
    let stored = stored_inputs(alloc, program)?;
    let tallies = tallies_of(alloc, draws)?;
    let mut count = 0usize;
    for tally in tallies.values() {
        if count >= MOST {
            return Ok(());
        }
        let told = told_of(alloc, program, choices, &stored, tally)?;
        out.note(File::Program, Some(tally.spot), told)?;
        count = count.saturating_add(1);
    }
    Ok(())
}
