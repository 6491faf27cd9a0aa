// Numbers of invariants, from 1.
ghost use Rattle.std.specs.Prelude.{◌≡◌, ◌≤◌, IfOk, length};
ghost use Rattle.c_meaning.specs.Parts.{numbers_from};
ghost use Rattle.wv_weed.specs.Numbers.{unflagged};

use std::alloc::Global;
use wv_base::{OutOfMemory, Seq};

/// The numbers from 1 to a count.
pub fn numbers_to(alloc: Global, count: usize) -> Result<Seq<u32>, OutOfMemory>
    ensures { IfOk result (λ ns. ns ≡ numbers_from 1 count) }
{
    let mut numbers = Seq::new(alloc);
    for before in 0..count {
        let Ok(number) = u32::try_from(before + 1) else {
            return Err(OutOfMemory);
        };
        numbers.push(number)?;
    }
    Ok(numbers)
}

/// The numbers at whose places no flag is set.
pub fn without(alloc: Global, numbers: &Seq<u32>, flags: &[bool]) -> Result<Seq<u32>, OutOfMemory>
    requires { length numbers.now ≤ length flags.now }
    ensures { IfOk result (λ ns. ns ≡ unflagged flags.now numbers.now) }
{
    let mut others = Seq::new(alloc);
    let all = numbers.as_slice();
    for at in 0..all.len() {
        if !flags[at] {
            others.push(all[at])?;
        }
    }
    Ok(others)
}
