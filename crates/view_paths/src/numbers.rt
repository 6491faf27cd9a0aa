// The paths of numbered waypoints and invariants.
use std::alloc::Global;
use wv_base::OutOfMemory;
use wv_schema::{Content, Segment, Witness};

/// The segment that holds a waypoint, counted from 1 over all, and its place in it, both from 0.
fn segment_with(segments: &[Segment], number: u32) -> Option<(usize, usize)> {
    let mut before = (number as usize).saturating_sub(1);
    for (index, segment) in segments.iter().enumerate() {
        let avoids = segment.avoids.len();
        if before <= avoids {
            return Some((index, before));
        }
        before = before.saturating_sub(avoids).saturating_sub(1);
    }
    None
}

/// The path of a waypoint, from 1.
pub fn waypoint_path(
    alloc: Global,
    witness: &Witness,
    number: u32,
) -> Result<Option<String>, OutOfMemory> {
    for (entry_index, entry) in witness.entries.as_slice().iter().enumerate() {
        if let Content::Violation(segments) = &entry.content {
            if let Some((segment, point)) = segment_with(segments.as_slice(), number) {
                let path = format!(in alloc;
                    "[{entry_index}].content[{segment}].segment[{point}].waypoint"
                )?;
                return Ok(Some(path));
            }
        }
    }
    Ok(None)
}

/// The path of an invariant, from 1 over all sets.
pub fn invariant_path(
    alloc: Global,
    witness: &Witness,
    number: u32,
) -> Result<Option<String>, OutOfMemory> {
    let mut before = (number as usize).saturating_sub(1);
    for (entry_index, entry) in witness.entries.as_slice().iter().enumerate() {
        if let Content::Invariants(set) = &entry.content {
            if before < set.len() {
                let path = format!(in alloc; "[{entry_index}].content[{before}].invariant")?;
                return Ok(Some(path));
            }
            before = before.saturating_sub(set.len());
        }
    }
    Ok(None)
}
