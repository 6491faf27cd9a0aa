use super::*;
use clauses::{Chain, Clause, Cnf, Refutation, Resolve};
use std::alloc::Global;
use std::test::Fail;
use wv_base::{OutOfMemory, Seq};

fn list(alloc: Global, numbers: &[i32]) -> Result<Seq<i32>, OutOfMemory> {
    let mut list = Seq::new(alloc);
    for number in numbers {
        list.push(*number)?;
    }
    Ok(list)
}

fn clause(alloc: Global, numbers: &[i32]) -> Result<Clause, Fail> {
    let numbers = list(alloc, numbers)?;
    let clause = Clause::new(numbers).ok_or("no clause")?;
    Ok(clause)
}

fn cnf(alloc: Global, variables: u32, lists: &[&[i32]]) -> Result<Cnf, Fail> {
    let mut clauses = Seq::new(alloc);
    for numbers in lists {
        let given = clause(alloc, numbers)?;
        clauses.push(given)?;
    }
    let cnf = Cnf::new(variables, clauses).ok_or("another variable")?;
    Ok(cnf)
}

// a chain of resolutions, each with a clause on a variable
fn chain(alloc: Global, start: u32, resolved: &[(u32, u32)], gives: &[i32]) -> Result<Chain, Fail> {
    let mut steps = Seq::new(alloc);
    for (with, on) in resolved {
        steps.push(Resolve {
            with: *with,
            on: *on,
        })?;
    }
    let gives = clause(alloc, gives)?;
    Ok(Chain {
        start,
        steps,
        gives,
    })
}

#[test]
fn clauses_are_lines(rt: HostRuntime) -> Result<(), Fail> {
    let none = cnf(rt.alloc(), 0, &[])?;
    assert!(rt; dimacs(rt.alloc(), &none)?.as_slice() == b"p cnf 0 0\n".as_slice());
    let some = cnf(
        rt.alloc(),
        2147483647,
        &[&[1, 2147483647], &[-2147483647], &[]],
    )?;
    let text = b"p cnf 2147483647 3\n1 2147483647 0\n-2147483647 0\n0\n";
    assert!(rt; dimacs(rt.alloc(), &some)?.as_slice() == text.as_slice());
    Ok(())
}

#[test]
fn chains_are_lines(rt: HostRuntime) -> Result<(), Fail> {
    let mut chains = Seq::new(rt.alloc());
    let none = Refutation { chains };
    assert!(rt; lrat(rt.alloc(), 3, &none)?.as_slice() == b"".as_slice());
    chains = Seq::new(rt.alloc());
    chains.push(chain(rt.alloc(), 1, &[(2, 2), (3, 4)], &[-7, 1])?)?;
    chains.push(chain(rt.alloc(), 4294967295, &[], &[])?)?;
    let two = Refutation { chains };
    let text = b"10 -7 1 0 3 2 1 0\n11 0 4294967295 0\n";
    assert!(rt; lrat(rt.alloc(), 9, &two)?.as_slice() == text.as_slice());
    Ok(())
}
