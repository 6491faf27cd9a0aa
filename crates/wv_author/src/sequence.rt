// The sequence that gives the bounds of loops.
ghost use Rattle.std.specs.Prelude.{◌≡◌, ◌<◌, ◌≤◌, ◌^◌, IfOk, length};
ghost use Rattle.wv_author.specs.Sequence.{bound, bounds, loop_count, next};

use std::alloc::Global;
use wv_base::OutOfMemory;

/// A demo has this many loops.
const LOOPS: u32 = 40;

/// The number after this one.
fn next(number: u64) -> u64
    requires { number < 2 ^ 31 }
    ensures value { result ≡ next number }
    ensures small { result < 2 ^ 31 }
{
    (1103515245 * number + 12345) % 2147483648
}

/// The bound that a number gives, from 1 to 100.
fn bound(number: u64) -> u32
    ensures { result ≡ bound number }
{
    1 + ((number / 65536) % 100) as u32
}

/// The bounds of the loops of a number's demo.
#[tactic(auto, using(crate::proofs::Steps::sequence_none, crate::proofs::Steps::sequence_more, crate::proofs::Steps::bounds_none, crate::proofs::Steps::bounds_more, crate::proofs::Bounds::bounds_count))]
pub fn bounds(alloc: Global, number: u32) -> Result<Vec<u32>, OutOfMemory>
    requires { number ≤ 999999 }
    ensures bounds { IfOk result (λ all. all.items ≡ bounds number loop_count) }
    ensures count { IfOk result (λ all. length all.items ≡ loop_count) }
{
    let mut all = Vec::new(alloc);
    let mut last = u64::from(number);
    for _ in 0..LOOPS {
        last = next(last);
        all.push(bound(last))?;
    }
    Ok(all)
}
