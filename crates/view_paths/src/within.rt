// Places inside the values of a witness.
use crate::paths::{Step, place_of_path};
use c_core::Spot;
use std::alloc::Global;
use view_text::{offset_of, spot_at};
use wv_base::OutOfMemory;

/// A value is looked for so many bytes after its key: a colon, blanks, the sign of a block, a quote.
const GAP: usize = 40;

/// Where a value begins that stands there word for word, from this offset on.
fn start_of_value(text: &[u8], from: usize, value: &[u8]) -> Option<usize> {
    for gap in 0..GAP {
        let start = from.saturating_add(gap);
        let end = start.saturating_add(value.len());
        if text.get(start..end) == Some(value) {
            return Some(start);
        }
    }
    None
}

fn length_of(step: Option<&Step<'_>>) -> usize {
    match step {
        Some(Step::Key(key)) => (*key).len(),
        _ => 0,
    }
}

/// The place of a byte in the value at a path: that of the value's key where the value is empty, or where the witness
/// writes it otherwise, as with escapes.
pub fn place_in_value(
    alloc: Global,
    text: &[u8],
    steps: &[Step<'_>],
    value: &str,
    at: usize,
) -> Result<Spot, OutOfMemory> {
    let key = place_of_path(alloc, text, steps)?;
    if value.is_empty() {
        return Ok(key);
    }
    let behind = offset_of(text, key).saturating_add(length_of(steps.last()));
    match start_of_value(text, behind, value.as_bytes()) {
        Some(start) => Ok(spot_at(text, start.saturating_add(at))),
        None => Ok(key),
    }
}
