// A claim that names what isn't visible at its place.
use crate::claim::{Claim, head, note_expression};
use crate::names::{at_loop, at_statement, name_of, names_of, names_text};
use crate::nearest::Wanted;
use crate::seen::{note_seen_from, object_named};
use crate::words::offset_of_word;
use c_core::{PlaceKind, Program};
use std::alloc::Global;
use view_grammar::words_of;
use view_paths::is_near;
use view_runs::spot_of;
use view_text::{File, Files, Messages};
use way_places::Index;
use wv_base::{OutOfMemory, Seq};

/// The words of an expression that name no visible object, each once.
fn unseen(
    alloc: Global,
    program: &Program,
    objects: &[u32],
    expression: &str,
) -> Result<Vec<String>, OutOfMemory> {
    let mut known = names_of(alloc, program, objects)?;
    let mut list = Vec::new(alloc);
    let words = words_of(alloc, expression)?;
    for word in words.as_slice() {
        let word = word.as_str();
        if !known.contains(word) {
            list.push(String::from_str(alloc, word)?)?;
            known.insert(String::from_str(alloc, word)?)?;
        }
    }
    Ok(list)
}

/// Words between back quotes, with commas.
fn listed(alloc: Global, words: &[String]) -> Result<String, OutOfMemory> {
    let mut text = String::new(alloc);
    let mut between = "`";
    for word in words {
        text.push_str(between)?;
        text.push_str(word.as_str())?;
        text.push_str("`")?;
        between = ", `";
    }
    Ok(text)
}

/// The first of words; empty where there is none.
fn first_of(words: &[String]) -> &str {
    match words.first() {
        Some(word) => word.as_str(),
        None => "",
    }
}

/// The objects that a claim may name.
fn visible(alloc: Global, index: &Index, claim: &Claim<'_, '_>) -> Result<Seq<u32>, OutOfMemory> {
    match claim.wanted {
        Wanted::Place(PlaceKind::Loop) => at_loop(alloc, index, claim.location),
        Wanted::Place(PlaceKind::Statement) => at_statement(alloc, index, claim.location),
        _ => Ok(Seq::new(alloc)),
    }
}

/// The visible name, from the innermost on, that differs little from a word.
fn near_name<'p>(program: &'p Program, objects: &[u32], word: &str) -> Option<&'p str> {
    for object in objects.iter().rev() {
        let name = name_of(program, *object);
        if is_near(name, word) {
            return Some(name);
        }
    }
    None
}

fn scope_text(
    alloc: Global,
    program: &Program,
    objects: &[u32],
    words: &[String],
) -> Result<String, OutOfMemory> {
    let list = listed(alloc, words)?;
    let list = list.as_str();
    let mut text = match words {
        [_] => format!(in alloc; "no object of this name is visible there: {list}")?,
        _ => format!(in alloc; "no objects of these names are visible there: {list}")?,
    };
    if let Some(word) = words.first() {
        if let Some(near) = near_name(program, objects, word.as_str()) {
            write!(text, "; did you mean `{near}`?")?;
        }
    }
    Ok(text)
}

/// The names that a claim may name.
fn visible_text(alloc: Global, program: &Program, objects: &[u32]) -> Result<String, OutOfMemory> {
    let names = names_text(alloc, program, objects)?;
    let names = names.as_str();
    if names.is_empty() {
        Ok(String::from_str(alloc, "no object is visible there")?)
    } else {
        Ok(format!(in alloc; "visible there, just before it, are: {names}")?)
    }
}

/// A test of the value of a call that gives none.
fn explain_no_value(
    alloc: Global,
    files: &Files<'_>,
    claim: &Claim<'_, '_>,
    out: &mut Messages,
) -> Result<(), OutOfMemory> {
    let head = head(alloc, claim)?;
    let head = head.as_str();
    let told = format!(in alloc; "{head}: the call gives no value, so nothing can be said of it")?;
    out.error("scope", File::Program, Some(spot_of(claim.location)), told)?;
    note_expression(alloc, files, claim, 0, claim.expression.len(), None, out)
}

/// Names that aren't visible, where the first of them would be, and what is visible.
fn explain_names(
    alloc: Global,
    files: &Files<'_>,
    index: &Index,
    claim: &Claim<'_, '_>,
    out: &mut Messages,
) -> Result<(), OutOfMemory> {
    let program = index.program();
    let objects = visible(alloc, index, claim)?;
    let objects = objects.as_slice();
    let words = unseen(alloc, program, objects, claim.expression)?;
    let head = head(alloc, claim)?;
    let head = head.as_str();
    let lack = scope_text(alloc, program, objects, words.as_slice())?;
    let lack = lack.as_str();
    let spot = spot_of(claim.location);
    let told = format!(in alloc; "{head}: {lack}")?;
    out.error("scope", File::Program, Some(spot), told)?;
    let word = first_of(words.as_slice());
    if let Some(found) = object_named(program, word, claim.location.line) {
        note_seen_from(alloc, index, found, word, out)?;
    }
    let told = visible_text(alloc, program, objects)?;
    out.note(File::Program, Some(spot), told)?;
    let at = offset_of_word(claim.expression, word);
    let near = near_name(program, objects, word);
    note_expression(alloc, files, claim, at, word.len(), near, out)
}

/// A claim that names what isn't visible at its place.
pub fn explain_scope(
    alloc: Global,
    files: &Files<'_>,
    index: &Index,
    claim: &Claim<'_, '_>,
    out: &mut Messages,
) -> Result<(), OutOfMemory> {
    if claim.is_result {
        explain_no_value(alloc, files, claim, out)
    } else {
        explain_names(alloc, files, index, claim, out)
    }
}
