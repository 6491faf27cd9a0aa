// A waypoint or an invariant that isn't bound to the program.
use crate::claim::{Claim, head, note_expression, note_location};
use crate::near::{near_of, note_near};
use crate::nearest::Wanted;
use crate::scope::explain_scope;
use c_core::PlaceKind;
use std::alloc::Global;
use view_grammar::{Lack, lack_of};
use view_runs::spot_of;
use view_text::{File, Files, Messages, wanted_place};
use way_bind::BindFault;
use way_places::Index;
use wv_base::OutOfMemory;
use wv_schema::Location;

fn explain_place(
    alloc: Global,
    files: &Files<'_>,
    index: &Index,
    claim: &Claim<'_, '_>,
    out: &mut Messages,
) -> Result<(), OutOfMemory> {
    let head = head(alloc, claim)?;
    let head = head.as_str();
    let rule = wanted_place(claim.kind);
    let told = format!(in alloc;
        "{head}: nothing of this kind stands there; it has to name {rule}"
    )?;
    out.error("place", File::Program, Some(spot_of(claim.location)), told)?;
    let near = near_of(alloc, files, index, claim)?;
    note_near(alloc, claim, &near, out)?;
    let is_line = near.is_elsewhere(claim.location.line);
    let meant = near.spot(claim.location.column);
    note_location(alloc, files, claim, is_line, meant, out)
}

/// What is wrong with an expression.
fn lack_text(alloc: Global, claim: &Claim<'_, '_>, lack: &Lack) -> Result<String, OutOfMemory> {
    match lack {
        Lack::Types => Ok(String::from_str(
            alloc,
            "it is an expression, but its types don't fit: an array has fewer or more indexes than dimensions, or an object has one",
        )?),
        Lack::Grammar(front) => {
            let rest = claim.expression.get(*front..).unwrap_or("");
            let column = (*front).saturating_add(1);
            if rest.is_empty() {
                Ok(String::from_str(alloc, "it isn't finished")?)
            } else {
                Ok(format!(in alloc; "`{rest}` can't stand there (character {column})")?)
            }
        }
        Lack::Unknown => Ok(String::from_str(alloc, "it isn't in the grammar")?),
    }
}

/// How much of an expression can be read.
fn front_of(lack: &Lack) -> usize {
    match lack {
        Lack::Grammar(front) => *front,
        _ => 0,
    }
}

fn explain_expression(
    alloc: Global,
    files: &Files<'_>,
    claim: &Claim<'_, '_>,
    out: &mut Messages,
) -> Result<(), OutOfMemory> {
    let head = head(alloc, claim)?;
    let head = head.as_str();
    let lack = lack_of(alloc, claim.is_result, claim.expression)?;
    let front = front_of(&lack);
    let lack = lack_text(alloc, claim, &lack)?;
    let lack = lack.as_str();
    let rule = if claim.is_result {
        "`\\result`, a comparison and a constant expression"
    } else {
        "a C expression without calls, assignments, steps and commas"
    };
    let told = format!(in alloc; "{head}: {lack}; it has to be {rule}")?;
    out.error(
        "expression",
        File::Program,
        Some(spot_of(claim.location)),
        told,
    )?;
    let rest = claim.expression.len().saturating_sub(front);
    note_expression(alloc, files, claim, front, rest, None, out)
}

/// What a branching may state at its place.
fn ways_there(index: &Index, location: &Location) -> &'static str {
    let place = index.place_at(PlaceKind::Branch, location.line, location.column);
    let switch = match place {
        Some(spot) => index.switch_at(spot),
        None => None,
    };
    match switch {
        Some(_) => "at a `switch` the value has to be an integer or `default`",
        None => "the value has to be `true` or `false`, since no `switch` stands there",
    }
}

/// A branching that states a way that its place doesn't have.
fn explain_way(
    alloc: Global,
    files: &Files<'_>,
    index: &Index,
    claim: &Claim<'_, '_>,
    out: &mut Messages,
) -> Result<(), OutOfMemory> {
    let head = head(alloc, claim)?;
    let head = head.as_str();
    let rule = ways_there(index, claim.location);
    let told = format!(in alloc; "{head}: {rule}")?;
    out.error(
        "expression",
        File::Program,
        Some(spot_of(claim.location)),
        told,
    )?;
    note_expression(alloc, files, claim, 0, claim.expression.len(), None, out)
}

/// The number in a fault.
pub fn number_in(fault: BindFault) -> Result<u32, OutOfMemory> {
    match fault {
        BindFault::NoPlace(number) | BindFault::Expression(number) | BindFault::Scope(number) => {
            Ok(number)
        }
        BindFault::OutOfMemory => Err(OutOfMemory),
    }
}

/// A claim that isn't bound.
pub fn explain_claim(
    alloc: Global,
    files: &Files<'_>,
    index: &Index,
    fault: BindFault,
    claim: &Claim<'_, '_>,
    out: &mut Messages,
) -> Result<(), OutOfMemory> {
    match fault {
        BindFault::NoPlace(_) => explain_place(alloc, files, index, claim, out),
        BindFault::Expression(_) => {
            if matches!(claim.wanted, Wanted::Place(PlaceKind::Branch)) {
                explain_way(alloc, files, index, claim, out)
            } else {
                explain_expression(alloc, files, claim, out)
            }
        }
        BindFault::Scope(_) => explain_scope(alloc, files, index, claim, out),
        BindFault::OutOfMemory => Err(OutOfMemory),
    }
}
