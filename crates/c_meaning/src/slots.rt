// A table that tells where the innermost cell of each name outside of a layout stands: open addressing, with searches
// from a name's home on.
ghost use Rattle.std.specs.Prelude.{◌≡◌, ◌<◌, ◌≤◌, length, None, IfOk, MatchOption, replicate};
ghost use Rattle.c_meaning.specs.Slots.{home_of, stops as stops_of, Passes, IsNext, Ends, IsTable, names_of, outside, slot_of as filled, place_in as placed, free};

use crate::layout::number;
use crate::memory::Live;
use std::alloc::Global;
use wv_base::OutOfMemory;

/// Where the innermost cell of a name stands.
#[derive(Clone, Copy, Debug, PartialEq, Eq)]
pub struct Entry {
    pub object: u32,
    pub index: u32,
    pub place: usize,
}

// Neighbours in either number get homes that lie far apart.
fn home(object: u32, index: u32, size: usize) -> usize
    requires { 0 < size }
    ensures { result ≡ home_of (record { object = object; index = index }) size }
{
    let a = (object as u64).wrapping_mul(0xC13F_A9A9_02A6_328F);
    let b = (index as u64).wrapping_mul(0x91E1_0DA5_C79E_7B1D);
    let mixed = a.wrapping_add(b);
    ((mixed as u128 * size as u128) >> 64) as usize
}

// Does a search for a name end here?
fn stops(slot: Option<Entry>, object: u32, index: u32) -> bool
    ensures { result ≡ stops_of (record { object = object; index = index }) slot }
{
    match slot {
        Some(entry) => entry.object == object && entry.index == index,
        None => true,
    }
}

// The first slot of a range that ends a search.
fn scan(slots: &[Option<Entry>], object: u32, index: u32, from: usize, to: usize) -> Option<usize>
    requires { to ≤ length slots.now }
    ensures { MatchOption result (Passes (record { object = object; index = index }) slots.now from to)
        (IsNext (record { object = object; index = index }) slots.now from to) }
{
    for at in from..to {
        if stops(slots[at], object, index) {
            return Some(at);
        }
    }
    None
}

/// The slot at which the search for a name ends.
#[inline(never)]
pub fn seek(slots: &[Option<Entry>], object: u32, index: u32) -> usize
    requires { 0 < free slots.now }
    ensures { Ends (record { object = object; index = index }) (length slots.now) slots.now result }
{
    let start = home(object, index, slots.len());
    match scan(slots, object, index, start, slots.len()) {
        Some(at) => at,
        None => scan(slots, object, index, 0, start).unwrap_or(0),
    }
}

/// What stands in a name's slot while its innermost cell stands there.
pub fn slot_of(object: u32, index: u32, place: Option<usize>) -> Option<Entry>
    ensures { result ≡ filled (record { object = object; index = index }) place }
{
    match place {
        Some(place) => Some(Entry {
            object,
            index,
            place,
        }),
        None => None,
    }
}

/// The place of the innermost cell of a slot's name, if any.
pub fn place_in(slot: Option<Entry>) -> Option<usize>
    ensures { result ≡ placed slot }
{
    match slot {
        Some(entry) => Some(entry.place),
        None => None,
    }
}

// A table of no cells.
fn empty(alloc: Global, size: usize) -> Result<Vec<Option<Entry>>, OutOfMemory>
    ensures { IfOk result (λ t. t.items ≡ replicate size None) }
{
    let mut slots = Vec::new(alloc);
    slots.resize(size, None)?;
    Ok(slots)
}

/// The table of these cells, of those whose names have no number, with this many slots.
pub fn table(
    alloc: Global,
    cells: &[Live],
    starts: &[usize],
    size: usize,
) -> Result<Vec<Option<Entry>>, OutOfMemory>
    requires { length cells.now < size }
    ensures size { IfOk result (λ t. length t.items ≡ size) }
    ensures table { IfOk result (λ t. IsTable size (outside starts.now (names_of cells.now)) t.items) }
{
    let mut slots = empty(alloc, size)?;
    let mut place = 0;
    for cell in cells {
        if number(starts, cell.object, cell.index).is_none() {
            let at = seek(slots.as_slice(), cell.object, cell.index);
            slots[at] = slot_of(cell.object, cell.index, Some(place));
        }
        place += 1;
    }
    Ok(slots)
}
