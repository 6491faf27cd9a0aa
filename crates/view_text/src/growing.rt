// Where something about a growing front changes.
use std::alloc::Global;
use wv_base::OutOfMemory;

/// Fronts of a text, counted by their length, of which the short ones have something and the long ones don't.
pub trait Growing {
    /// Whether the front of this length still has it.
    fn holds(&self, alloc: Global, length: usize) -> Result<bool, OutOfMemory>;
}

/// The longest length, from `low` on and below `high`, that has it, where `low` has it and `high` doesn't.
pub fn last_holding<G: Growing>(
    alloc: Global,
    fronts: &G,
    low: usize,
    high: usize,
) -> Result<usize, OutOfMemory> {
    let mut low = low;
    let mut high = high;
    for _ in 0..64 {
        let gap = high.saturating_sub(low);
        if gap <= 1 {
            break;
        }
        let middle = low.saturating_add(gap / 2);
        if fronts.holds(alloc, middle)? {
            low = middle;
        } else {
            high = middle;
        }
    }
    Ok(low)
}
