// A waypoint or an invariant, in the words of messages, and where the witness has it.
use crate::nearest::Wanted;
use c_core::{PlaceKind, Spot};
use std::alloc::Global;
use view_paths::{place_in_value, steps_of};
use view_runs::{Numbered, invariant_word, place_text, way_word};
use view_text::{File, Files, Messages, width_at};
use wv_base::OutOfMemory;
use wv_schema::{Constraint, Invariant, InvariantKind, Location, WayKind};

/// A waypoint or an invariant, as what is told of it needs it.
#[derive(Drop)]
pub struct Claim<'a, 'p> {
    pub number: u32,
    /// `waypoint` or `invariant`, and its type.
    pub noun: &'static str,
    pub kind: &'static str,
    pub wanted: Wanted,
    pub location: &'a Location,
    pub expression: &'a str,
    pub is_result: bool,
    /// Its place in the witness; empty where that isn't looked for.
    pub path: &'p str,
}

fn wanted_of(kind: WayKind) -> Wanted {
    match kind {
        WayKind::Assumption => Wanted::Place(PlaceKind::Statement),
        WayKind::Target => Wanted::Aim,
        WayKind::FunctionEnter | WayKind::FunctionReturn => Wanted::Place(PlaceKind::CallEnd),
        WayKind::Branching => Wanted::Place(PlaceKind::Branch),
    }
}

fn value_of(constraint: &Option<Constraint>) -> &str {
    match constraint {
        Some(constraint) => constraint.value.as_str(),
        None => "",
    }
}

/// What is told of a waypoint.
pub fn claim_of_waypoint<'a, 'p>(number: u32, found: Numbered<'a>, path: &'p str) -> Claim<'a, 'p> {
    let waypoint = found.waypoint;
    Claim {
        number,
        noun: if found.is_follow {
            "waypoint to follow"
        } else {
            "waypoint to avoid"
        },
        kind: way_word(waypoint.kind),
        wanted: wanted_of(waypoint.kind),
        location: &waypoint.location,
        expression: value_of(&waypoint.constraint),
        is_result: waypoint.kind == WayKind::FunctionReturn,
        path,
    }
}

/// What is told of an invariant.
pub fn claim_of_invariant<'a, 'p>(
    number: u32,
    invariant: &'a Invariant,
    path: &'p str,
) -> Claim<'a, 'p> {
    Claim {
        number,
        noun: "invariant",
        kind: invariant_word(invariant.kind),
        wanted: Wanted::Place(match invariant.kind {
            InvariantKind::Loop => PlaceKind::Loop,
            InvariantKind::Location => PlaceKind::Statement,
        }),
        location: &invariant.location,
        expression: invariant.value.as_str(),
        is_result: false,
        path,
    }
}

/// A claim by its number, its type, its place and its expression.
pub fn head(alloc: Global, claim: &Claim<'_, '_>) -> Result<String, OutOfMemory> {
    let number = claim.number;
    let noun = claim.noun;
    let kind = claim.kind;
    let place = place_text(alloc, claim.location)?;
    let mut text = format!(in alloc; "{noun} {number}, {kind} at {place}")?;
    if !claim.expression.is_empty() {
        let expression = claim.expression;
        write!(text, ", `{expression}`")?;
    }
    Ok(text)
}

/// Where the witness has a number of a claim's location, `line` or `column`, and how many bytes it is there: none where
/// it is written otherwise.
fn number_at(
    alloc: Global,
    files: &Files<'_>,
    claim: &Claim<'_, '_>,
    key: &str,
    number: u32,
) -> Result<(Spot, usize), OutOfMemory> {
    let path = claim.path;
    let whole = format!(in alloc; "{path}.location.{key}")?;
    let steps = steps_of(alloc, whole.as_str())?;
    let stated = format!(in alloc; "{number}")?;
    let text = files.text(File::Witness);
    let spot = place_in_value(alloc, text, steps.as_slice(), stated.as_str(), 0)?;
    Ok((spot, width_at(text, spot, stated.as_str())))
}

fn mend_number(
    alloc: Global,
    spot: Spot,
    width: usize,
    number: u32,
    out: &mut Messages,
) -> Result<(), OutOfMemory> {
    let stated = format!(in alloc; "{number}")?;
    out.mend(spot, width, stated.as_str())
}

/// Mends the line of a claim, which stands at a place, and its column where another one is meant.
fn mend_line(
    alloc: Global,
    files: &Files<'_>,
    claim: &Claim<'_, '_>,
    meant: Spot,
    spot: Spot,
    width: usize,
    out: &mut Messages,
) -> Result<(), OutOfMemory> {
    if let Some(column) = claim.location.column {
        if column != meant.column {
            let (at, wide) = number_at(alloc, files, claim, "column", column)?;
            if wide == 0 {
                return Ok(());
            }
            mend_number(alloc, at, wide, meant.column, out)?;
        }
    }
    mend_number(alloc, spot, width, meant.line, out)
}

/// Says where the witness has the wrong number of a claim's location, and mends it where the place is known that is
/// meant.
pub fn note_location(
    alloc: Global,
    files: &Files<'_>,
    claim: &Claim<'_, '_>,
    is_line: bool,
    meant: Option<Spot>,
    out: &mut Messages,
) -> Result<(), OutOfMemory> {
    if claim.path.is_empty() {
        return Ok(());
    }
    let key = if is_line { "line" } else { "column" };
    let number = match claim.location.column {
        Some(column) if !is_line => column,
        _ => claim.location.line,
    };
    let (spot, width) = number_at(alloc, files, claim, key, number)?;
    out.remark(File::Witness, Some(spot), "the witness says it here")?;
    out.mark(width);
    match meant {
        Some(meant) if width > 0 && is_line => {
            mend_line(alloc, files, claim, meant, spot, width, out)
        }
        Some(meant) if width > 0 => mend_number(alloc, spot, width, meant.column, out),
        _ => Ok(()),
    }
}

/// Says where the witness has a part of a claim's expression, so many bytes from `at` on, and mends it where it is known
/// what is meant.
pub fn note_expression(
    alloc: Global,
    files: &Files<'_>,
    claim: &Claim<'_, '_>,
    at: usize,
    length: usize,
    meant: Option<&str>,
    out: &mut Messages,
) -> Result<(), OutOfMemory> {
    let path = claim.path;
    if path.is_empty() {
        return Ok(());
    }
    let whole = if claim.noun == "invariant" {
        format!(in alloc; "{path}.value")?
    } else {
        format!(in alloc; "{path}.constraint.value")?
    };
    let steps = steps_of(alloc, whole.as_str())?;
    let text = files.text(File::Witness);
    let spot = place_in_value(alloc, text, steps.as_slice(), claim.expression, at)?;
    let part = claim.expression.get(at..at.saturating_add(length));
    let width = width_at(text, spot, part.unwrap_or(""));
    out.remark(File::Witness, Some(spot), "the witness says it here")?;
    out.mark(width);
    match meant {
        Some(meant) if width > 0 => out.mend(spot, width, meant),
        _ => Ok(()),
    }
}
