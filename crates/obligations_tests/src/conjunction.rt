// A net of two and-nodes: the clauses of a bit, and the values of both.
use circuits::{Net, not};
use clauses::{Cnf, cnf_of};
use std::alloc::Global;
use std::test::Fail;
use wv_base::OutOfMemory;

fn numbers_of(alloc: Global, cnf: &Cnf) -> Result<Vec<i32>, OutOfMemory> {
    let mut out = Vec::new(alloc);
    for clause in cnf.clauses.as_slice() {
        for number in clause.numbers() {
            out.push(*number)?;
        }
        out.push(0)?;
    }
    Ok(out)
}

#[test]
fn one_conjunction(rt: HostRuntime) -> Result<(), Fail> {
    let mut net = Net::new(rt.alloc())?;
    let a = net.input()?;
    let b = net.input()?;
    let both = net.and(a, not(b))?;
    let unused = net.and(a, b)?;
    let cnf = cnf_of(rt.alloc(), &net, not(both))?;
    let numbers = numbers_of(rt.alloc(), &cnf)?;
    assert_eq!(rt; unused.node, 4);
    assert_eq!(rt; cnf.variables, 4);
    let wanted = [3, 0, -4, 1, 0, -4, -2, 0, -1, 2, 4, 0, -4, 0];
    assert!(rt; numbers.as_slice() == wanted.as_slice());
    if net.inputs() != 2 {
        return Err(Fail::new("not two inputs"));
    }
    assert!(rt; net.value(rt.alloc(), both, &[true, false])?);
    assert!(rt; !net.value(rt.alloc(), unused, &[true, false])?);
    Ok(())
}

// In either order, and however many come after it.
#[test]
fn equal_arguments_have_one_node(rt: HostRuntime) -> Result<(), Fail> {
    let mut net = Net::new(rt.alloc())?;
    let a = net.input()?;
    let b = net.input()?;
    let both = net.and(a, not(b))?;
    for i in 0..1000u32 {
        let more = net.input()?;
        let _ = net.and(a, more)?;
    }
    let again = net.and(a, not(b))?;
    let swapped = net.and(not(b), a)?;
    let other = net.and(a, b)?;
    assert!(rt; again == both && swapped == both);
    assert!(rt; other.node != both.node);
    assert_eq!(rt; net.ands(), 1002);
    Ok(())
}
