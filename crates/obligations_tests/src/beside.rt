// Nets beside runs.
use crate::cases::{Case, Judged, evaluate};
use crate::inputs::numbered_input;
use crate::told::{Told, told_by_net};
use crate::{arrays, branches, limits, loops, operators, products};
use c_core::{DataModel, Property};
use c_havoc::run_havoc;
use c_meaning::{Draw, HavocEnd};
use std::alloc::Global;
use std::test::Fail;
use wv_base::{OutOfMemory, Seq};

// This many inputs are tried of each program under each property.
const INPUTS: u64 = 100;

fn values_of(alloc: Global, draws: &[Draw]) -> Result<Seq<i128>, OutOfMemory> {
    let mut values = Seq::new(alloc);
    for draw in draws {
        values.push(draw.value)?;
    }
    Ok(values)
}

// What the run tells that draws these values.
fn told_by_run(alloc: Global, judged: &Judged, values: &Seq<i128>) -> Result<Told, OutOfMemory> {
    let run = run_havoc(alloc, &judged.program, &judged.invariants, values)?;
    let failed = match run.end {
        HavocEnd::Failed(number) => Some(number as usize),
        HavocEnd::Passed | HavocEnd::Dismissed => None,
    };
    Ok(Told {
        failed,
        draws: run.draws,
    })
}

/// Whether net and run tell the same under an input.
pub fn is_alike_at(alloc: Global, judged: &Judged, inputs: &[bool]) -> Result<bool, OutOfMemory> {
    let by_net = told_by_net(alloc, judged, inputs)?;
    let values = values_of(alloc, by_net.draws.as_slice())?;
    let by_run = told_by_run(alloc, judged, &values)?;
    Ok(by_net.failed == by_run.failed && by_net.draws.as_slice() == by_run.draws.as_slice())
}

fn is_alike(alloc: Global, judged: &Judged, number: u64) -> Result<bool, OutOfMemory> {
    let inputs = numbered_input(alloc, judged.all.sites.as_slice(), number)?;
    is_alike_at(alloc, judged, &inputs)
}

// Under this many inputs net and run differ.
fn count_differing(alloc: Global, judged: &Judged) -> Result<u64, OutOfMemory> {
    let mut count: u64 = 0;
    for number in 0..INPUTS {
        if !is_alike(alloc, judged, number)? {
            count = count.saturating_add(1);
        }
    }
    Ok(count)
}

// Under this many inputs the net of a program and its run differ, under unreach-call in LP64 and no-overflow in ILP32.
fn differing(alloc: Global, case: &Case) -> Result<u64, Fail> {
    let calls = evaluate(
        alloc,
        case.source,
        case.claims,
        Property::UnreachCall,
        DataModel::Lp64,
    )
    .ok_or(case.name)?;
    let overflows = evaluate(
        alloc,
        case.source,
        case.claims,
        Property::NoOverflow,
        DataModel::Ilp32,
    )
    .ok_or(case.name)?;
    let differing = count_differing(alloc, &calls)?;
    Ok(differing.saturating_add(count_differing(alloc, &overflows)?))
}

#[test]
fn arrays_and_branches_are_told_alike(rt: HostRuntime) -> Result<(), Fail> {
    for case in &arrays::CASES {
        assert_eq!(rt; differing(rt.alloc(), case)?, 0, "{}", case.name);
    }
    for case in &branches::CASES {
        assert_eq!(rt; differing(rt.alloc(), case)?, 0, "{}", case.name);
    }
    Ok(())
}

#[test]
fn loops_and_operators_are_told_alike(rt: HostRuntime) -> Result<(), Fail> {
    for case in &loops::CASES {
        assert_eq!(rt; differing(rt.alloc(), case)?, 0, "{}", case.name);
    }
    for case in &operators::CASES {
        assert_eq!(rt; differing(rt.alloc(), case)?, 0, "{}", case.name);
    }
    Ok(())
}

#[test]
fn products_and_quotients_are_told_alike(rt: HostRuntime) -> Result<(), Fail> {
    for case in &products::CASES {
        assert_eq!(rt; differing(rt.alloc(), case)?, 0, "{}", case.name);
    }
    for case in &products::LARGER {
        assert_eq!(rt; differing(rt.alloc(), case)?, 0, "{}", case.name);
    }
    for case in &limits::CASES {
        assert_eq!(rt; differing(rt.alloc(), case)?, 0, "{}", case.name);
    }
    Ok(())
}
