// All runs within a bound beside runs that are made.
use crate::cases::{Case, Unrolled, unroll_case};
use crate::told::{Told, told_by_net};
use crate::{branches, calls, loops};
use c_meaning::{Choices, Draw};
use judge::{Watched, run_watched};
use std::alloc::Global;
use std::test::Fail;
use wv_base::{OutOfMemory, Seq};

// Nets have this many inputs at most.
const MOST_INPUTS: u64 = 10;

// More than enough for the runs of the cases.
const STEPS: u64 = 100000;

// How many lists of values are sought within a bound, and under how many inputs net and run differ.
#[derive(Clone, Copy)]
struct Counted {
    sought: u64,
    differing: u64,
}

// Under how many inputs net and run differ, and within how many bounds other numbers of lists are sought than are said.
#[derive(Clone, Copy)]
struct Compared {
    differing: u64,
    miscounted: u64,
}

fn digits(alloc: Global, number: u64, count: u64) -> Result<Vec<bool>, OutOfMemory> {
    let mut digits = Vec::new(alloc);
    let mut rest = number;
    for _ in 0..count {
        digits.push(rest % 2 == 1)?;
        rest /= 2;
    }
    Ok(digits)
}

// The run on the values that the net says are drawn.
fn run_on(alloc: Global, case: &Unrolled, draws: &[Draw]) -> Result<Watched, OutOfMemory> {
    let mut values = Seq::new(alloc);
    for draw in draws {
        values.push(draw.value)?;
    }
    let choices = Choices::InTurn(values);
    run_watched(alloc, &case.program, &case.bound, &choices, STEPS)
}

// A run that hits violates the property, is matched, and draws the same; so does one that is whole within the bound.
fn is_alike(told: &Told, watched: &Watched, is_whole: bool) -> bool {
    let same = told.draws.as_slice() == watched.run.draws.as_slice();
    if told.hits {
        same && watched.found.is_some()
    } else {
        !is_whole || (same && watched.found.is_none())
    }
}

// All inputs of a net are tried, where there are few; more count as a difference.
fn count(alloc: Global, case: &Unrolled, is_whole: bool) -> Result<Counted, OutOfMemory> {
    let mut count = Counted {
        sought: 0,
        differing: 0,
    };
    let inputs = case.reach.net.inputs();
    if inputs > MOST_INPUTS {
        count.differing = 1;
        return Ok(count);
    }
    for number in 0..(1u64 << inputs) {
        let input = digits(alloc, number, inputs)?;
        let told = told_by_net(alloc, case.program.model, &case.reach, &input)?;
        if told.is_plain {
            let watched = run_on(alloc, case, told.draws.as_slice())?;
            if told.hits {
                count.sought = count.sought.saturating_add(1);
            }
            if !is_alike(&told, &watched, is_whole) {
                count.differing = count.differing.saturating_add(1);
            }
        }
    }
    Ok(count)
}

// A case within one bound after the other.
fn compare(alloc: Global, case: &Case) -> Result<Compared, Fail> {
    let mut all = Compared {
        differing: 0,
        miscounted: 0,
    };
    let mut turns: u32 = 0;
    for sought in case.sought {
        turns = turns.saturating_add(1);
        let is_whole = turns as usize == case.sought.len();
        let within = unroll_case(alloc, case, turns).ok_or(case.name)?;
        let count = count(alloc, &within, is_whole)?;
        all.differing = all.differing.saturating_add(count.differing);
        if count.sought != *sought {
            all.miscounted = all.miscounted.saturating_add(1);
        }
    }
    Ok(all)
}

#[test]
fn branches_are_told_alike(rt: HostRuntime) -> Result<(), Fail> {
    for case in &branches::CASES {
        let all = compare(rt.alloc(), case)?;
        assert_eq!(rt; all.differing, 0, "{}", case.name);
        assert_eq!(rt; all.miscounted, 0, "{}", case.name);
    }
    Ok(())
}

#[test]
fn calls_are_told_alike(rt: HostRuntime) -> Result<(), Fail> {
    for case in &calls::CASES {
        let all = compare(rt.alloc(), case)?;
        assert_eq!(rt; all.differing, 0, "{}", case.name);
        assert_eq!(rt; all.miscounted, 0, "{}", case.name);
    }
    Ok(())
}

#[test]
fn loops_are_told_alike(rt: HostRuntime) -> Result<(), Fail> {
    for case in &loops::CASES {
        let all = compare(rt.alloc(), case)?;
        assert_eq!(rt; all.differing, 0, "{}", case.name);
        assert_eq!(rt; all.miscounted, 0, "{}", case.name);
    }
    Ok(())
}
