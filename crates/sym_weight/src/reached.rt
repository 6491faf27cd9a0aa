// The functions that a chain of calls from main reaches: only their loops are looked at.
ghost use Rattle.std.specs.Prelude.{◌≡◌, ℕ, IfOk, IsTrue, slice_get};
ghost use Rattle.std.specs.List.{list_all};
ghost use Rattle.sym_weight.specs.Reached.{IsClosed, calls_in, is_wanted};
ghost use Rattle.sym_weight.specs.Tally.{tallies_view};

use crate::cost::Tally;
use std::alloc::Global;
use wv_base::OutOfMemory;

/// Whether a function is marked; a number beyond the end is.
pub fn is_wanted(marks: &[bool], function: usize) -> bool
    ensures { result ≡ is_wanted marks.now function }
{
    match marks.get(function) {
        Some(marked) => *marked,
        None => true,
    }
}

fn are_wanted(marks: &[bool], calls: &[u32]) -> bool
    ensures { result ≡ list_all (is_wanted marks.now) calls.now }
{
    for function in calls {
        if !is_wanted(marks, *function as usize) {
            return false;
        }
    }
    true
}

// Whether a function, if it is marked, calls marked ones alone.
fn keeps(marks: &[bool], number: usize, tally: &Tally) -> bool
    ensures { IsTrue result → IsTrue (is_wanted marks.now number)
        → IsTrue (list_all (is_wanted marks.now) tally.now.calls) }
{
    if is_wanted(marks, number) {
        are_wanted(marks, tally.calls.as_slice())
    } else {
        true
    }
}

// Whether each marked function calls marked ones alone.
fn keep_calls(marks: &[bool], tallies: &[Tally]) -> bool
    ensures { IsTrue result → (f : ℕ) → IsTrue (is_wanted marks.now f)
        → IsTrue (list_all (is_wanted marks.now) (calls_in (slice_get (tallies_view tallies.now) f))) }
{
    for (number, tally) in tallies.iter().enumerate() {
        if !keeps(marks, number, tally) {
            return false;
        }
    }
    true
}

fn push_new(marks: &mut [bool], stack: &mut Vec<u32>, calls: &[u32]) -> Result<(), OutOfMemory> {
    for function in calls {
        let at = *function as usize;
        if at < marks.len() && !marks[at] {
            marks[at] = true;
            stack.push(*function)?;
        }
    }
    Ok(())
}

fn push_called(
    marks: &mut [bool],
    stack: &mut Vec<u32>,
    tallies: &[Tally],
    function: u32,
) -> Result<(), OutOfMemory> {
    match tallies.get(function as usize) {
        Some(tally) => push_new(marks, stack, tally.calls.as_slice()),
        None => Ok(()),
    }
}

// Main and the functions that it reaches, each taken once. Nothing rests on it: `reached` tests what it found.
fn search(alloc: Global, tallies: &[Tally], main: u32) -> Result<Vec<bool>, OutOfMemory> {
    let mut marks = vec![in alloc; false; tallies.len()]?;
    let mut stack = Vec::new(alloc);
    push_new(marks.as_mut_slice(), &mut stack, &[main])?;
    for _ in 0..u64::MAX {
        match stack.pop() {
            None => return Ok(marks),
            Some(function) => push_called(marks.as_mut_slice(), &mut stack, tallies, function)?,
        }
    }
    Ok(marks)
}

/// Marks at least the functions that main reaches, main among them.
pub fn reached(alloc: Global, tallies: &[Tally], main: u32) -> Result<Vec<bool>, OutOfMemory>
    ensures { IfOk result (λ marks. IsClosed marks.items (tallies_view tallies.now) main) }
{
    let marks = search(alloc, tallies, main)?;
    if is_wanted(marks.as_slice(), main as usize) && keep_calls(marks.as_slice(), tallies) {
        return Ok(marks);
    }
    let all = Vec::new(alloc);
    Ok(all)
}
