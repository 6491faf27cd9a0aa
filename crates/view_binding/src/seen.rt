// From which statement on an object is visible.
use crate::names::at_statement;
use c_core::{Place, PlaceKind, Program, Spot};
use std::alloc::Global;
use view_text::{File, Messages};
use way_places::{Index, places};
use wv_base::OutOfMemory;
use wv_schema::Location;

/// So many statements behind a declaration are tried.
const MOST_TRIED: usize = 3;

/// An object by its number, and where it is declared.
#[derive(Clone, Copy)]
pub struct Declared {
    object: u32,
    spot: Spot,
}

/// The first object of this name that is declared on a line or behind it; the first of this name where none is.
pub fn object_named(program: &Program, name: &str, line: u32) -> Option<Declared> {
    let mut first = None;
    let mut number = 0u32;
    for object in program.objects.as_slice() {
        let found = Declared {
            object: number,
            spot: object.spot,
        };
        number = number.saturating_add(1);
        if object.name.as_str() != name {
            continue;
        }
        if object.spot.line >= line {
            return Some(found);
        }
        if first.is_none() {
            first = Some(found);
        }
    }
    first
}

fn is_behind(place: Place, spot: Spot) -> bool {
    let at = place.spot;
    let is_later = at.line > spot.line || (at.line == spot.line && at.column > spot.column);
    is_later && matches!(place.kind, PlaceKind::Statement)
}

/// Whether an object is visible at a statement.
fn is_visible(alloc: Global, index: &Index, object: u32, spot: Spot) -> Result<bool, OutOfMemory> {
    let location = Location {
        file_name: None,
        line: spot.line,
        column: Some(spot.column),
        function: None,
    };
    let objects = at_statement(alloc, index, &location)?;
    Ok(objects.as_slice().contains(&object))
}

/// The first statement behind a declaration at which the object is visible.
fn seen_from(
    alloc: Global,
    index: &Index,
    declared: Declared,
) -> Result<Option<Spot>, OutOfMemory> {
    let places = places(alloc, index.program())?;
    let mut tried = 0usize;
    for place in places.as_slice() {
        if tried >= MOST_TRIED {
            break;
        }
        if is_behind(*place, declared.spot) {
            tried = tried.saturating_add(1);
            if is_visible(alloc, index, declared.object, place.spot)? {
                return Ok(Some(place.spot));
            }
        }
    }
    Ok(None)
}

/// Says from which statement on an object of this name is visible, where one is near its declaration.
pub fn note_seen_from(
    alloc: Global,
    index: &Index,
    declared: Declared,
    name: &str,
    out: &mut Messages,
) -> Result<(), OutOfMemory> {
    let Some(spot) = seen_from(alloc, index, declared)? else {
        return Ok(());
    };
    let line = spot.line;
    let column = spot.column;
    let told = format!(in alloc; "an object `{name}` is visible from {line}:{column} on")?;
    out.note(File::Program, Some(spot), told)
}
