// Marked numbers.
ghost use Rattle.std.specs.Prelude.{◌≡◌, ℕ, ◌<◌, ◌||◌, nat_eq, length, IfOk, replicate, false};
ghost use Rattle.c_calls.specs.Marks.{is_marked, IsMarked};

use std::alloc::Global;
use wv_base::OutOfMemory;

/// This many numbers, none marked.
pub fn no_marks(alloc: Global, count: usize) -> Result<Vec<bool>, OutOfMemory>
    ensures { IfOk result (λ marks. marks.items ≡ replicate count false) }
{
    let marks = vec![in alloc; false; count]?;
    Ok(marks)
}

/// Whether a number is marked; one beyond the end isn't.
pub fn has_mark(marks: &[bool], number: u32) -> bool
    ensures { result ≡ is_marked marks.now number }
{
    let at = number as usize;
    at < marks.len() && marks[at]
}

/// Marks a number, unless it is beyond the end.
pub fn mark(marks: &mut [bool], number: u32)
    ensures { IsMarked (λ n. nat_eq number n) marks.old marks.new }
{
    let at = number as usize;
    if at < marks.len() {
        marks[at] = true;
    }
}
