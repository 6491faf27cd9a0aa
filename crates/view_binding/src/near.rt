// Where a claim may be meant to stand that names no place of its kind.
use crate::claim::Claim;
use crate::errors::nearest_error;
use crate::nearest::{Meant, Wanted, columns, columns_text, first_spot, nearest_line};
use c_core::Spot;
use std::alloc::Global;
use view_text::{File, Files, Messages};
use way_places::Index;
use wv_base::OutOfMemory;

/// The places of its kind that are nearest to a claim.
#[derive(Drop)]
pub enum Near {
    /// At these columns of a line.
    Columns(u32, Vec<u32>),
    /// At this call of `reach_error`.
    Call(Spot),
    Nowhere,
}

fn meant_by(claim: &Claim<'_, '_>) -> Meant {
    Meant {
        wanted: claim.wanted,
        line: claim.location.line,
        column: claim.location.column,
        is_result: claim.is_result,
    }
}

/// The places of the kind on the line that is named, or on the nearest; of a target, the call that it is meant for.
pub fn near_of(
    alloc: Global,
    files: &Files<'_>,
    index: &Index,
    claim: &Claim<'_, '_>,
) -> Result<Near, OutOfMemory> {
    let text = files.text(File::Program);
    let line = claim.location.line;
    let here = columns(alloc, index, text, claim.wanted, line)?;
    if here.len() > 0 {
        return Ok(Near::Columns(line, here));
    }
    if let (Wanted::Aim, Some(call)) = (claim.wanted, nearest_error(index, text, line)) {
        return Ok(Near::Call(call));
    }
    match nearest_line(alloc, index, text, meant_by(claim))? {
        Some(near) => {
            let there = columns(alloc, index, text, claim.wanted, near)?;
            Ok(Near::Columns(near, there))
        }
        None => Ok(Near::Nowhere),
    }
}

fn distance(a: u32, b: u32) -> u32 {
    a.max(b).saturating_sub(a.min(b))
}

/// The column nearest to one that is named; none of two that are as near.
fn nearest_column(columns: &[u32], named: u32) -> Option<u32> {
    let mut best = None;
    let mut least = u32::MAX;
    for column in columns {
        let far = distance(*column, named);
        if far < least {
            best = Some(*column);
            least = far;
        } else if far == least {
            best = None;
        }
    }
    best
}

impl Near {
    /// Whether the line that is named has no such place.
    pub fn is_elsewhere(&self, line: u32) -> bool {
        match self {
            Near::Columns(near, _) => *near != line,
            Near::Call(_) | Near::Nowhere => true,
        }
    }

    /// The one place that is nearest to a column, or to the front of the line where none is named.
    pub fn spot(&self, column: Option<u32>) -> Option<Spot> {
        match self {
            Near::Columns(line, found) => {
                let line = *line;
                let column = nearest_column(found.as_slice(), column.unwrap_or(1))?;
                Some(Spot { line, column })
            }
            Near::Call(spot) => Some(*spot),
            Near::Nowhere => None,
        }
    }
}

fn note_columns(
    alloc: Global,
    claim: &Claim<'_, '_>,
    line: u32,
    found: &[u32],
    out: &mut Messages,
) -> Result<(), OutOfMemory> {
    let listed = columns_text(alloc, found)?;
    let listed = listed.as_str();
    let kind = claim.kind;
    let told = format!(in alloc; "on line {line} there is a place for {kind} at {listed}")?;
    out.note(File::Program, Some(first_spot(line, found)), told)
}

/// A note about the places that are nearest.
pub fn note_near(
    alloc: Global,
    claim: &Claim<'_, '_>,
    near: &Near,
    out: &mut Messages,
) -> Result<(), OutOfMemory> {
    match near {
        Near::Columns(line, found) => note_columns(alloc, claim, *line, found.as_slice(), out),
        Near::Call(call) => {
            out.remark(File::Program, Some(*call), "`reach_error` is called here")
        }
        Near::Nowhere => out.remark(
            File::Program,
            None,
            "the program has no place for it at all",
        ),
    }
}
