// The objects that are visible at a place.
use c_core::{PlaceKind, Program};
use std::alloc::Global;
use std::collections::BTreeSet;
use way_bind::place_named;
use way_names::names_at;
use way_places::Index;
use wv_base::{OutOfMemory, Seq};
use wv_schema::Location;

/// The objects that a statement at a location sees, where one stands there.
pub fn at_statement(
    alloc: Global,
    index: &Index,
    location: &Location,
) -> Result<Seq<u32>, OutOfMemory> {
    match place_named(index, PlaceKind::Statement, location) {
        None => Ok(Seq::new(alloc)),
        Some(spot) => names_at(alloc, index.program(), PlaceKind::Statement, spot),
    }
}

/// The objects that a loop at a location sees, where one stands there.
pub fn at_loop(alloc: Global, index: &Index, location: &Location) -> Result<Seq<u32>, OutOfMemory> {
    match place_named(index, PlaceKind::Loop, location) {
        None => Ok(Seq::new(alloc)),
        Some(spot) => names_at(alloc, index.program(), PlaceKind::Loop, spot),
    }
}

/// The name of an object.
pub fn name_of(program: &Program, object: u32) -> &str {
    match program.objects.get(object as usize) {
        Some(found) => found.name.as_str(),
        None => "",
    }
}

/// So many names are listed.
const MOST: usize = 40;

/// The names of objects, the innermost first, each once.
pub fn names_text(
    alloc: Global,
    program: &Program,
    objects: &[u32],
) -> Result<String, OutOfMemory> {
    let mut text = String::new(alloc);
    let mut listed = Vec::new(alloc);
    for object in objects.iter().rev() {
        let name = name_of(program, *object);
        if listed.len() < MOST && !is_named(program, listed.as_slice(), name) {
            let between = if listed.len() == 0 { "" } else { ", " };
            text.push_str(between)?;
            text.push_str(name)?;
            listed.push(*object)?;
        }
    }
    Ok(text)
}

/// Whether a word is the name of one of the objects.
fn is_named(program: &Program, objects: &[u32], word: &str) -> bool {
    for object in objects {
        if name_of(program, *object) == word {
            return true;
        }
    }
    false
}

/// The names of objects as a set.
pub fn names_of(
    alloc: Global,
    program: &Program,
    objects: &[u32],
) -> Result<BTreeSet<String>, OutOfMemory> {
    let mut names = BTreeSet::new(alloc);
    for object in objects {
        let name = String::from_str(alloc, name_of(program, *object))?;
        names.insert(name)?;
    }
    Ok(names)
}
