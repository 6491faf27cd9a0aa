// What an event does to all segments of a witness.
ghost use Rattle.std.specs.Prelude.{◌≡◌, ◌+◌, ◌*◌, ◌≤◌, ◌^◌, IfOk, length};
ghost use Rattle.std.specs.List.{All, list_any};
ghost use Rattle.circuits.specs.Net.{holds, Grown, Means, IsIn};
ghost use Rattle.seek_events.specs.Events.{AreAfter, IsAll, IsHere};

use crate::segment::{Passing, completes, segment_after};
use circuits::{Bit, Net, not, or};
use std::alloc::Global;
use wv_base::OutOfMemory;

/// Whether one of these bits is true, in at most a node for each: of passing one of the avoids of a segment.
pub fn any(net: &mut Net, bits: &[Bit]) -> Result<Bit, OutOfMemory>
    requires bits_in { All (IsIn net.old) bits.now }
    requires room { length net.old + length bits.now ≤ 2 ^ 31 }
    ensures grown { IfOk result (λ r. Grown (length bits.now) net.old net.new) }
    ensures value { IfOk result (λ r. Means net.new r (λ v. list_any (holds v net.old) bits.now)) }
{
    let mut some = not(net.yes());
    for i in 0..bits.len() {
        some = or(net, some, bits[i])?;
    }
    Ok(some)
}

/// Which numbers of segments are completed after an event that passes these waypoints, where the run is here; elsewhere
/// nothing changes.
pub fn after(
    alloc: Global,
    net: &mut Net,
    here: Bit,
    passings: &[Passing],
    completed: &[Bit],
) -> Result<Vec<Bit>, OutOfMemory>
    requires here_in { IsIn net.old here }
    requires passings_in { All (IsHere net.old) passings.now }
    requires completed_in { All (IsIn net.old) completed.now }
    requires same { length completed.now ≡ length passings.now }
    requires room { length net.old + 8 * length passings.now ≤ 2 ^ 31 }
    ensures { IfOk result (λ r. AreAfter net.old net.new here passings.now completed.now r.items) }
{
    let mut all = Vec::new(alloc);
    let mut came = not(net.yes());
    let mut assumes = false;
    for i in 0..passings.len() {
        let next = segment_after(net, here, came, assumes, passings[i], completed[i])?;
        all.push(next.completed)?;
        came = next.came;
        assumes = passings[i].assumes;
    }
    Ok(all)
}

/// Whether a violation that passes these waypoints completes all segments.
pub fn completes_all(
    net: &mut Net,
    passings: &[Passing],
    completed: &[Bit],
) -> Result<Bit, OutOfMemory>
    requires passings_in { All (IsHere net.old) passings.now }
    requires completed_in { All (IsIn net.old) completed.now }
    requires same { length completed.now ≡ length passings.now }
    requires room { length net.old + 3 * length passings.now ≤ 2 ^ 31 }
    ensures { IfOk result (IsAll net.old net.new passings.now completed.now) }
{
    let mut came = not(net.yes());
    let mut assumes = false;
    for i in 0..passings.len() {
        came = completes(net, came, assumes, passings[i], completed[i])?;
        assumes = passings[i].assumes;
    }
    Ok(came)
}
