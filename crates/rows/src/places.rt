// Rows of places: a program's places in their order; the objects that are visible at a statement or a loop, innermost
// last; the objects that a loop changes.
use crate::check::checked_program;
use c_calls::changed;
use c_core::{PlaceKind, Program, Spot};
use row_files::{Files, NotTried, Row};
use std::alloc::{AllocError, Global};
use way_bind::place_named;
use way_names::names_at;
use way_places::{Index, places};
use wv_base::{OutOfMemory, Seq};
use wv_schema::Location;

fn word(kind: PlaceKind) -> &'static str {
    match kind {
        PlaceKind::Statement => "statement",
        PlaceKind::Loop => "loop",
        PlaceKind::Branch => "branch",
        PlaceKind::CallEnd => "call",
    }
}

fn push_named(text: &mut String, name: &str, spot: Spot) -> Result<(), AllocError> {
    if text.len() > 0 {
        text.push_str(", ")?;
    }
    write!(text, "{name} {}:{}", spot.line, spot.column)
}

/// A list, or `none`.
fn or_none(alloc: Global, list: String) -> Result<String, AllocError> {
    if list.len() == 0 {
        String::from_str(alloc, "none")
    } else {
        Ok(list)
    }
}

/// All places of a row's program.
pub fn listed(files: &Files<'_>, row: &Row) -> Result<String, NotTried> {
    let alloc = files.alloc();
    let program = checked_program(files, row)?;
    let places = places(alloc, &program)?;
    let mut text = String::new(alloc);
    for place in places.as_slice() {
        push_named(&mut text, word(place.kind), place.spot)?;
    }
    Ok(or_none(alloc, text)?)
}

/// The place that a row names, `line:column`.
fn spot_of(text: &str) -> Result<Spot, NotTried> {
    let Some((line, column)) = text.split_once(':') else {
        return Err(NotTried::Lacks("a place"));
    };
    match (line.parse::<u32>(), column.parse::<u32>()) {
        (Ok(line), Ok(column)) => Ok(Spot { line, column }),
        _ => Err(NotTried::Lacks("the numbers of a place")),
    }
}

/// Objects with the places where they are declared.
fn objects_told(alloc: Global, program: &Program, objects: &[u32]) -> Result<String, OutOfMemory> {
    let mut text = String::new(alloc);
    for number in objects {
        if let Some(object) = program.objects.get(*number as usize) {
            push_named(&mut text, object.name.as_str(), object.spot)?;
        }
    }
    Ok(or_none(alloc, text)?)
}

fn at_statement(alloc: Global, index: &Index, location: &Location) -> Result<Seq<u32>, NotTried> {
    match place_named(index, PlaceKind::Statement, location) {
        None => Err(NotTried::Lacks("a statement there")),
        Some(spot) => Ok(names_at(alloc, index.program(), PlaceKind::Statement, spot)?),
    }
}

fn at_loop(alloc: Global, index: &Index, location: &Location) -> Result<Seq<u32>, NotTried> {
    match place_named(index, PlaceKind::Loop, location) {
        None => Err(NotTried::Lacks("a loop there")),
        Some(spot) => Ok(names_at(alloc, index.program(), PlaceKind::Loop, spot)?),
    }
}

/// The objects that are visible at the place that a row names, `statement` or `loop` and its spot.
pub fn visible(files: &Files<'_>, row: &Row) -> Result<String, NotTried> {
    let alloc = files.alloc();
    let program = checked_program(files, row)?;
    let Some((kind, place)) = row.wanted_text("text")?.split_once(' ') else {
        return Err(NotTried::Lacks("a kind of places and a place"));
    };
    let spot = spot_of(place)?;
    let location = Location {
        file_name: None,
        line: spot.line,
        column: Some(spot.column),
        function: None,
    };
    let index = Index::new(alloc, &program)?;
    let objects = match kind {
        "statement" => at_statement(alloc, &index, &location)?,
        "loop" => at_loop(alloc, &index, &location)?,
        _ => return Err(NotTried::Lacks("a kind of places at which names are visible")),
    };
    Ok(objects_told(alloc, &program, objects.as_slice())?)
}

/// The objects that the loop at the place changes that a row names.
pub fn changes(files: &Files<'_>, row: &Row) -> Result<String, NotTried> {
    let alloc = files.alloc();
    let program = checked_program(files, row)?;
    let spot = spot_of(row.wanted_text("text")?)?;
    let objects = changed(alloc, &program, spot)?;
    Ok(objects_told(alloc, &program, objects.as_slice())?)
}
