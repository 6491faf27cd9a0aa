// Havoc runs of a program on lists of values that were chosen by hand.
use crate::cases::{Judged, evaluate};
use crate::examples::COUNT_CALLS;
use c_core::{DataModel, IntType, Property, Spot};
use c_havoc::run_havoc;
use c_meaning::{Draw, DrawKind, HavocEnd, HavocRun};
use std::alloc::Global;
use std::test::Fail;
use wv_base::{OutOfMemory, Seq};
use wv_schema::InvariantKind::Loop;

fn run(alloc: Global, judged: &Judged, list: &[i128]) -> Result<HavocRun, OutOfMemory> {
    let mut values = Seq::new(alloc);
    for value in list {
        values.push(*value)?;
    }
    run_havoc(alloc, &judged.program, &judged.invariants, &values)
}

// What each of the two changed objects draws at the loop.
fn drawn(value: i128) -> Draw {
    Draw {
        value,
        spot: Spot { line: 7, column: 3 },
        ty: IntType::Int,
        from: DrawKind::Havoc,
    }
}

#[test]
fn a_run_ends_as_its_values_say(rt: HostRuntime) -> Result<(), Fail> {
    let alloc = rt.alloc();
    let claims = [(Loop, 7, "g == 0")];
    let judged = evaluate(
        alloc,
        COUNT_CALLS,
        &claims,
        Property::UnreachCall,
        DataModel::Ilp32,
    )
    .ok_or("refused")?;
    let kept = run(alloc, &judged, &[0, 0])?;
    assert_eq!(rt; kept.end, HavocEnd::Failed(2));
    assert!(rt; kept.draws.as_slice() == [drawn(0), drawn(0)].as_slice());
    let dismissed = run(alloc, &judged, &[1])?;
    assert_eq!(rt; dismissed.end, HavocEnd::Dismissed);
    assert!(rt; dismissed.draws.as_slice() == [drawn(1), drawn(0)].as_slice());
    let left = run(alloc, &judged, &[0, 3])?;
    assert_eq!(rt; left.end, HavocEnd::Passed);
    Ok(())
}
