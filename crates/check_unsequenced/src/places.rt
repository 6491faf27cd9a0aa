ghost use Rattle.std.specs.Prelude.{◌≡◌, length, IfOk};
ghost use Rattle.check_unsequenced.specs.Unordered.{ListsUnordered};

use crate::bodies::effects_of_functions;
use crate::walks::{walk_functions, walk_kept};
use c_core::{Function, Object, Spot};
use check_sequencing::{Declarations, Kept, Walk};
use std::alloc::Global;
use wv_base::{OutOfMemory, Seq};

// More functions than there are numbers for don't fit in memory.
fn count_of(functions: &[Function]) -> Result<u32, OutOfMemory>
    ensures { IfOk result (λ count. count ≡ length functions.now) }
{
    match u32::try_from(functions.len()) {
        Ok(count) => Ok(count),
        Err(_) => Err(OutOfMemory),
    }
}

/// The places of all operands without an order in a source, of which these are the objects, the typed functions, the
/// full expressions that are kept of each function, and those outside of functions. A place is listed once for each
/// that stands there.
pub fn unordered(
    alloc: Global,
    objects: &[Object],
    functions: &[Function],
    kept: &[Seq<Kept>],
    outside: &[Kept],
) -> Result<Vec<Spot>, OutOfMemory>
    ensures { IfOk result (λ list. ListsUnordered objects.now functions.now kept.now outside.now list.items) }
{
    let count = count_of(functions)?;
    let declared = Declarations {
        objects,
        bodies: count,
    };
    let bodies = effects_of_functions(alloc, &declared, functions, kept)?;
    let mut walk = Walk::new(alloc, declared, bodies.as_slice());
    walk_functions(&mut walk, functions, kept)?;
    walk_kept(&mut walk, outside)?;
    let Walk {
        source: _,
        unordered,
    } = walk;
    Ok(unordered)
}
