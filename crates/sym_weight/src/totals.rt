// What functions weigh with their calls unfolded, round by round.
ghost use Rattle.std.specs.Prelude.{◌≡◌, max, map, IfOk};
ghost use Rattle.sym_weight.specs.Tally.{capped, tallies_view, tally_view};
ghost use Rattle.sym_weight.specs.Totals as totals;
ghost use Rattle.sym_weight.specs.Totals.{totals_after};

use crate::cost::Tally;
use std::alloc::Global;
use wv_base::OutOfMemory;

/// Weight, drawn bits and the longest chain of calls, with calls unfolded; what is beyond the type's end counts as its
/// end.
#[derive(Clone, Copy, Debug, PartialEq, Eq)]
pub struct Total {
    pub weight: u64,
    pub bits: u64,
    pub chain: u64,
}

/// The total of a function, by its number.
pub fn total_at(all: &[Total], function: u32) -> Total
    ensures { result ≡ totals.total_at all.now function }
{
    match all.get(function as usize) {
        Some(total) => *total,
        None => Total {
            weight: 0,
            bits: 0,
            chain: 0,
        },
    }
}

fn called_weight(all: &[Total], calls: &[u32]) -> u64
    ensures { result ≡ capped (totals.called_weight all.now calls.now) }
{
    let mut sum = 0u64;
    for function in calls {
        sum = sum.saturating_add(total_at(all, *function).weight);
    }
    sum
}

fn called_bits(all: &[Total], calls: &[u32]) -> u64
    ensures { result ≡ capped (totals.called_bits all.now calls.now) }
{
    let mut sum = 0u64;
    for function in calls {
        sum = sum.saturating_add(total_at(all, *function).bits);
    }
    sum
}

fn longer(a: u64, b: u64) -> u64
    ensures { result ≡ max a b }
{
    if a < b { b } else { a }
}

fn called_chain(all: &[Total], calls: &[u32]) -> u64
    ensures { result ≡ capped (totals.called_chain all.now calls.now) }
{
    let mut longest = 0u64;
    for function in calls {
        longest = longer(longest, total_at(all, *function).chain.saturating_add(1));
    }
    longest
}

fn next_total(all: &[Total], tally: &Tally) -> Total
    ensures { result ≡ totals.next_total all.now (tally_view tally.now) }
{
    let calls = tally.calls.as_slice();
    Total {
        weight: tally.cost.weight.saturating_add(called_weight(all, calls)),
        bits: tally.cost.bits.saturating_add(called_bits(all, calls)),
        chain: called_chain(all, calls),
    }
}

fn next_totals(alloc: Global, tallies: &[Tally], all: &[Total]) -> Result<Vec<Total>, OutOfMemory>
    ensures { IfOk result (λ next. next.items ≡ map (totals.next_total all.now) (tallies_view tallies.now)) }
{
    let mut next = Vec::new(alloc);
    for tally in tallies {
        next.push(next_total(all, tally))?;
    }
    Ok(next)
}

/// The totals after this many rounds.
pub fn totals_after(
    alloc: Global,
    tallies: &[Tally],
    rounds: usize,
) -> Result<Vec<Total>, OutOfMemory>
    ensures { IfOk result (λ all. all.items ≡ totals_after (tallies_view tallies.now) rounds) }
{
    let mut all = Vec::new(alloc);
    for _round in 0..rounds {
        all = next_totals(alloc, tallies, all.as_slice())?;
    }
    Ok(all)
}
