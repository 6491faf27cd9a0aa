// What is left of the choices: each draw takes the next one, or none.
ghost use Rattle.std.specs.Prelude.{◌≡◌, ◌≤◌, ◌<◌, ◌+◌, ◌-◌, ◌^◌, false, pos, length, slice_index_or, IfOk, IsOk, IsOkUnless, MatchOption, reverse};
ghost use Rattle.c_core.specs.Parts.{same_spot};
ghost use Rattle.c_meaning.specs.Run as run;
ghost use Rattle.run_state.specs.Drawing.{any_at, IsFirst};
ghost use Rattle.run_state.specs.Interpreting.{choices_left, givens_left};

use crate::machine::{Halt, Left, LeftAt};
use c_core::Spot;
use c_meaning::{Choices, DrawKind, Given};
use std::alloc::Global;
use wv_base::OutOfMemory;

/// The choices, the next value last.
pub fn all_left(alloc: Global, choices: &Choices) -> Result<Left, OutOfMemory>
    ensures { IfOk result (λ left. choices_left left ≡ choices.now) }
{
    match choices {
        Choices::Given(givens) => {
            let left = left_of_givens(alloc, givens.as_slice())?;
            Ok(Left::Given(left))
        }
        Choices::InTurn(values) => {
            let values = reversed(alloc, values.as_slice())?;
            Ok(Left::InTurn(values))
        }
    }
}

fn left_of_givens(alloc: Global, givens: &[Given]) -> Result<Vec<LeftAt>, OutOfMemory>
    ensures { IfOk result (λ left. givens_left left.items ≡ givens.now) }
{
    let mut left = Vec::new(alloc);
    for given in givens {
        let values = reversed(alloc, given.values.as_slice())?;
        left.push(LeftAt {
            spot: given.spot,
            values,
        })?;
    }
    Ok(left)
}

// The values from the last to the first.
fn reversed(alloc: Global, values: &[i128]) -> Result<Vec<i128>, OutOfMemory>
    ensures { IfOk result (λ found. found.items ≡ reverse values.now) }
{
    let mut last_first = Vec::new(alloc);
    for index in 0..values.len() {
        last_first.push(from_end(values, index))?;
    }
    Ok(last_first)
}

// The value at an index from the end.
fn from_end(values: &[i128], index: usize) -> i128
    requires { index < length values.now }
    ensures { result ≡ slice_index_or values.now (length values.now - 1 - index) (pos 0) }
{
    values[values.len() - 1 - index]
}

// Is it the same place?
fn is_at(found: Spot, spot: Spot) -> bool
    ensures { result ≡ same_spot found spot }
{
    found.line == spot.line && found.column == spot.column
}

// The first entry at a place.
fn place_of(givens: &[LeftAt], spot: Spot) -> Option<usize>
    ensures { MatchOption result (any_at spot givens.now ≡ false) (IsFirst spot givens.now) }
{
    for (index, left) in givens.iter().enumerate() {
        if is_at(left.spot, spot) {
            return Some(index);
        }
    }
    None
}

// The value given next at a place, if any.
fn take_given(givens: &mut Vec<LeftAt>, spot: Spot) -> Option<i128>
    ensures value { result ≡ run.given_at spot (givens_left givens.old.items) }
    ensures left { givens_left givens.new.items ≡ run.given_after spot (givens_left givens.old.items) }
{
    match place_of(givens, spot) {
        Some(at) => givens[at].values.pop(),
        None => None,
    }
}

/// The value that the choices give to a draw, if any.
pub fn take_choice(left: &mut Left, kind: DrawKind, spot: Spot) -> Option<i128>
    ensures value { result ≡ run.chosen kind spot (choices_left left.old) }
    ensures left { choices_left left.new ≡ run.after_draw kind spot (choices_left left.old) }
{
    match left {
        Left::InTurn(values) => values.pop(),
        Left::Given(givens) => match kind {
            DrawKind::Input => take_given(givens, spot),
            _ => None,
        },
    }
}

/// One more, where none was taken.
pub fn count_unfixed(unfixed: u64, taken: Option<i128>) -> Result<u64, Halt>
    ensures count { IfOk result (λ n. n ≡ unfixed + run.one_if_none taken) }
    ensures most { IfOk result (λ n. n ≤ unfixed + 1) }
    ensures refused { IsOkUnless result Halt.NoMemory }
    ensures within { unfixed + 1 < 2 ^ 64 → IsOk result }
{
    match taken {
        Some(_) => Ok(unfixed),
        None => match unfixed.checked_add(1) {
            Some(more) => Ok(more),
            None => Err(Halt::NoMemory),
        },
    }
}
