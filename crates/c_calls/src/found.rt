// Functions that a search has found.
ghost use Rattle.std.specs.Prelude.{◌≡◌, ℕ, ◌<◌, [], length, count_by, vec_len, IfOk, OnOk};
ghost use Rattle.c_meaning.specs.Parts.{is_in};
ghost use Rattle.c_calls.specs.Marks.{added, all_added, is_marked};

use crate::marks::{mark, no_marks};
use crate::uses::Use;
use std::alloc::Global;
use wv_base::OutOfMemory;

/// Functions in the order in which they were found, and the same as marks over all functions.
#[derive(Drop)]
pub struct Found {
    pub order: Vec<u32>,
    pub marks: Vec<bool>,
    pub ghost agree: { (f : ℕ) → f < length marks.items → is_marked marks.items f ≡ is_in f order.items },
    pub ghost counted: { count_by (λ b. b) marks.items ≡ length order.items },
}

/// None yet, of a program of this many functions.
pub fn nothing_found(alloc: Global, count: usize) -> Result<Found, OutOfMemory>
    ensures order { IfOk result (λ found. found.order.items ≡ []) }
    ensures count { IfOk result (λ found. length found.marks.items ≡ count) }
{
    let marks = no_marks(alloc, count)?;
    Ok(Found {
        order: Vec::new(alloc),
        marks,
    })
}

/// Appends a function of the program that wasn't found before.
pub fn add(found: &mut Found, function: u32) -> Result<(), OutOfMemory>
    ensures order { OnOk result
        (found.new.order.items ≡ added (length found.old.marks.items) found.old.order.items function) }
    ensures count { length found.new.marks.items ≡ length found.old.marks.items }
{
    let at = function as usize;
    if at < found.marks.len() && !found.marks[at] {
        found.order.push(function)?;
        found.marks[at] = true;
    }
    Ok(())
}

/// Appends the called functions among these.
pub fn add_called(found: &mut Found, uses: &[Use]) -> Result<(), OutOfMemory>
    ensures order { OnOk result
        (found.new.order.items ≡ all_added (length found.old.marks.items) found.old.order.items uses.now) }
    ensures count { length found.new.marks.items ≡ length found.old.marks.items }
{
    for used in uses {
        if let Use::Calls(function) = used {
            add(found, *function)?;
        }
    }
    Ok(())
}
