// Tables of the search. Their reads and writes are tested against the end, so that nothing need be known of what the
// search puts into them: what it finds is checked when it is there.
use std::alloc::Global;
use wv_base::OutOfMemory;

/// The item at an index, or another one beyond the end.
#[inline(always)]
pub fn at<T: Copy>(items: &[T], index: usize, other: T) -> T {
    if index < items.len() {
        items[index]
    } else {
        other
    }
}

/// Writes an item, unless the index is beyond the end.
#[inline(always)]
pub fn put<T: Copy>(items: &mut [T], index: usize, item: T) {
    if index < items.len() {
        items[index] = item;
    }
}

/// A table of equal items.
pub fn filled<T: Copy>(alloc: Global, many: usize, item: T) -> Result<Vec<T>, OutOfMemory> {
    Ok(vec![in alloc; item; many]?)
}
