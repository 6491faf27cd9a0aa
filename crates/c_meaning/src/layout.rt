// Names of objects of known sizes, numbered: each object's names follow those of the objects before it.
ghost use Rattle.std.specs.Prelude.{◌≡◌, IfOk, []};
ghost use Rattle.c_meaning.specs.Layout.{number_of, count_of, Rising};
ghost use Rattle.c_meaning.specs.Slots.{IsPlaced};

use std::alloc::Global;
use wv_base::OutOfMemory;

/// The number of each object's first name, and after the last object how many names there are.
pub fn starts(alloc: Global, sizes: &[u32]) -> Result<Vec<usize>, OutOfMemory>
    ensures { IfOk result (λ s. Rising s.items) }
{
    let mut starts = Vec::new(alloc);
    let mut names: usize = 0;
    starts.push(names)?;
    for size in sizes {
        names = match names.checked_add(*size as usize) {
            Some(more) => more,
            None => return Err(OutOfMemory),
        };
        starts.push(names)?;
    }
    Ok(starts)
}

/// A place for each name, while no cell lives.
pub fn places(alloc: Global, starts: &[usize]) -> Result<Vec<Option<usize>>, OutOfMemory>
    requires { Rising starts.now }
    ensures { IfOk result (λ p. IsPlaced starts.now [] p.items) }
{
    let mut places = Vec::new(alloc);
    places.resize(count(starts), None)?;
    Ok(places)
}

// How many names there are.
fn count(starts: &[usize]) -> usize
    ensures { result ≡ count_of starts.now }
{
    match starts.last() {
        Some(names) => *names,
        None => 0,
    }
}

/// The number of a name, if its object is one of the layout's and its index below the object's size.
#[inline(always)]
pub fn number(starts: &[usize], object: u32, index: u32) -> Option<usize>
    ensures { result ≡ number_of starts.now (record { object = object; index = index }) }
{
    let at = object as usize;
    if at + 1 >= starts.len() {
        return None;
    }
    let first = starts[at];
    let size = starts[at + 1].saturating_sub(first);
    if (index as usize) < size {
        Some(first + index as usize)
    } else {
        None
    }
}
