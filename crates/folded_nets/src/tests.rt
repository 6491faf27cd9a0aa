// What no clause says: that copies are smaller for what is known.
use crate::FoldedNet;
use circuits::{Net, not};
use std::alloc::Global;
use wv_base::OutOfMemory;

// "a and b" and "not a and c" are never true together, so that the first alone is "the first and not the second"
fn is_smaller(alloc: Global) -> Result<bool, OutOfMemory> {
    let mut net = Net::new(alloc)?;
    let a = net.input()?;
    let b = net.input()?;
    let c = net.input()?;
    let first = net.and(a, b)?;
    let second = net.and(not(a), c)?;
    let both = net.and(first, second)?;
    let alone = net.and(first, not(second))?;
    let mut folded = FoldedNet::new(alloc, &net)?;
    let _ = folded.copy(&net, both)?;
    let was_plain = folded.is_plain();
    folded.note_never(&net, both)?;
    let copy = folded.copy(&net, alone)?;
    let same = folded.copy(&net, first)?;
    Ok(was_plain && !folded.is_plain() && copy == same)
}

#[test]
fn what_is_never_true_makes_copies_smaller(rt: HostRuntime) {
    assert!(rt; is_smaller(rt.alloc()).unwrap_or(false));
}
