// Logs that are accepted, and logs that are wrong in one place.
use clauses::{Chain, Clause, Cnf, Refutation, Resolve, accepts, accepts_log};
use std::alloc::Global;
use std::test::Fail;
use wv_base::{OutOfMemory, Seq};

fn list(alloc: Global, numbers: &[i32]) -> Result<Seq<i32>, OutOfMemory> {
    let mut list = Seq::new(alloc);
    for number in numbers {
        list.push(*number)?;
    }
    Ok(list)
}

fn clause(alloc: Global, numbers: &[i32]) -> Result<Clause, Fail> {
    let numbers = list(alloc, numbers)?;
    let clause = Clause::new(numbers).ok_or("no clause")?;
    Ok(clause)
}

fn cnf(alloc: Global, variables: u32, lists: &[&[i32]]) -> Result<Cnf, Fail> {
    let mut clauses = Seq::new(alloc);
    for numbers in lists {
        let given = clause(alloc, numbers)?;
        clauses.push(given)?;
    }
    let cnf = Cnf::new(variables, clauses).ok_or("another variable")?;
    Ok(cnf)
}

// a log of one chain of one step
fn one_step(
    alloc: Global,
    start: u32,
    with: u32,
    on: u32,
    gives: &[i32],
) -> Result<Refutation, Fail> {
    let mut steps = Seq::new(alloc);
    steps.push(Resolve { with, on })?;
    let gives = clause(alloc, gives)?;
    let mut chains = Seq::new(alloc);
    chains.push(Chain {
        start,
        steps,
        gives,
    })?;
    Ok(Refutation { chains })
}

#[test]
fn wrong_logs_are_refused(rt: HostRuntime) -> Result<(), Fail> {
    let given = cnf(rt.alloc(), 2, &[&[1], &[-1], &[1, 2], &[-2, -1]])?;
    let wrong = [
        (0, 2, 1),
        (5, 2, 1),
        (4294967295, 2, 1),
        (1, 0, 1),
        (1, 5, 1),
        (1, 4294967295, 1),
        (1, 2, 0),
        (1, 2, 2),
        (1, 2, 3),
        (1, 2, 4294967295),
        (1, 1, 1),
        (3, 4, 1),
        (1, 4, 1),
    ];
    for (start, with, on) in wrong {
        let log = one_step(rt.alloc(), start, with, on, &[])?;
        assert!(rt;
            !accepts_log(rt.alloc(), &given, &log)?,
            "{start} {with} {on}"
        );
        assert!(rt; !accepts(rt.alloc(), &given, &log)?);
    }
    let gives_more = one_step(rt.alloc(), 1, 2, 1, &[2])?;
    assert!(rt; !accepts_log(rt.alloc(), &given, &gives_more)?);
    let gives_less = one_step(rt.alloc(), 1, 4, 1, &[2])?;
    assert!(rt; !accepts_log(rt.alloc(), &given, &gives_less)?);
    let gives_that = one_step(rt.alloc(), 1, 4, 1, &[-2])?;
    assert!(rt; accepts_log(rt.alloc(), &given, &gives_that)?);
    Ok(())
}
