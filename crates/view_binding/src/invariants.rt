// The invariants of a witness by their numbers.
use wv_schema::{Content, Entry, Invariant, Witness};

/// The invariants of an entry.
fn set_of(entry: &Entry) -> &[Invariant] {
    match &entry.content {
        Content::Invariants(set) => set.as_slice(),
        Content::Violation(_) => &[],
    }
}

/// The invariant of this number, from 0 over all sets.
pub fn invariant_at(witness: &Witness, number: u32) -> Option<&Invariant> {
    let mut before = number as usize;
    for entry in witness.entries.as_slice() {
        let set = set_of(entry);
        if let Some(found) = set.get(before) {
            return Some(found);
        }
        before = before.saturating_sub(set.len());
    }
    None
}

/// The invariant of this number, from 1, as it is told.
pub fn invariant_numbered(witness: &Witness, number: u32) -> Option<&Invariant> {
    invariant_at(witness, number.saturating_sub(1))
}
