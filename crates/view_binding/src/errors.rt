// The calls of `reach_error` in a program's text.
use c_core::{Property, Spot};
use std::str;
use way_places::Index;

/// The function whose call violates the property of unreach-call.
const NAME: &str = "reach_error";

/// Where a line calls the function first, where it does.
fn call_in(index: &Index, line: &[u8], number: u32) -> Option<Spot> {
    let text = str::from_utf8(line).unwrap_or("");
    let before = text.find(NAME)?;
    let column = u32::try_from(before).unwrap_or(u32::MAX).saturating_add(1);
    if !index.aim_fits(number, Some(column)) {
        return None;
    }
    Some(Spot {
        line: number,
        column,
    })
}

fn distance(spot: Spot, line: u32) -> u32 {
    spot.line.max(line).saturating_sub(spot.line.min(line))
}

/// The nearer one of two places to a line, the later one of two that are as near.
fn nearer(a: Option<Spot>, b: Option<Spot>, line: u32) -> Option<Spot> {
    match (a, b) {
        (Some(a), Some(b)) if distance(a, line) < distance(b, line) => Some(a),
        (a, None) => a,
        (_, b) => b,
    }
}

/// The call of `reach_error` that is nearest to a line, where such a call violates the property.
pub fn nearest_error(index: &Index, text: &[u8], line: u32) -> Option<Spot> {
    if index.program().property != Property::UnreachCall {
        return None;
    }
    let mut best = None;
    let mut number = 0u32;
    for source in text.split(|byte| *byte == b'\n') {
        number = number.saturating_add(1);
        best = nearer(best, call_in(index, source, number), line);
    }
    best
}
