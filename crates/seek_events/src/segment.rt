// What an event does to one segment.
ghost use Rattle.std.specs.Prelude.{◌≡◌, ◌+◌, ◌≤◌, ◌^◌, ◌&&◌, ◌||◌, true, cond, IfOk, length};
ghost use Rattle.circuits.specs.Net.{holds, Grown, Means, IsIn};
ghost use Rattle.seek_events.specs.Events.{IsCompletion, IsHere, IsMoved, stays_in};

use circuits::{Bit, Net, not, or, pick};
use wv_base::OutOfMemory;

/// Which waypoints of a segment an event passes: one of those to avoid, and the one to follow; and whether that one is
/// an assumption.
#[derive(Clone, Copy)]
pub struct Passing {
    pub avoided: Bit,
    pub followed: Bit,
    pub assumes: bool,
}

/// After an event: whether the segments before this one are completed, and whether it has just completed this one too.
#[derive(Clone, Copy)]
pub struct Moved {
    pub completed: Bit,
    pub came: Bit,
}

fn is_same(a: Bit, b: Bit) -> bool
    ensures { result ≡ true → a ≡ b }
{
    a.node == b.node && a.negated == b.negated
}

// `now` where the run is here, else what was before: a bit that stays costs nothing.
fn changed(net: &mut Net, here: Bit, now: Bit, before: Bit) -> Result<Bit, OutOfMemory>
    requires here_in { IsIn net.old here }
    requires now_in { IsIn net.old now }
    requires before_in { IsIn net.old before }
    requires room { length net.old + 3 ≤ 2 ^ 31 }
    ensures grown { IfOk result (λ r. Grown 3 net.old net.new) }
    ensures value { IfOk result (λ r. Means net.new r (λ v. cond (holds v net.old here) (holds v net.old now)
        (holds v net.old before))) }
{
    let same = is_same(now, before);
    if same {
        return Ok(before);
    }
    let changed = pick(net, here, now, before)?;
    Ok(changed)
}

// The segments before this one stay completed.
fn stays(net: &mut Net, passing: Passing, completed: Bit) -> Result<Bit, OutOfMemory>
    requires here { IsHere net.old passing }
    requires completed_in { IsIn net.old completed }
    requires room { length net.old + 1 ≤ 2 ^ 31 }
    ensures grown { IfOk result (λ r. Grown 1 net.old net.new) }
    ensures value { IfOk result (λ r. Means net.new r (stays_in net.old passing completed)) }
{
    let stays = net.and(completed, not(passing.avoided))?;
    Ok(stays)
}

fn both(a: bool, b: bool) -> bool
    ensures { result ≡ (a && b) }
{
    a && b
}

// They stay completed, or the event has just completed them where both follow assumptions.
fn reached(
    net: &mut Net,
    stays: Bit,
    came: Bit,
    assumes: bool,
    also: bool,
) -> Result<Bit, OutOfMemory>
    requires stays_in { IsIn net.old stays }
    requires came_in { IsIn net.old came }
    requires room { length net.old + 1 ≤ 2 ^ 31 }
    ensures grown { IfOk result (λ r. Grown 1 net.old net.new) }
    ensures value { IfOk result (λ r. Means net.new r (λ v. holds v net.old stays
        || (assumes && (also && holds v net.old came)))) }
{
    let shares = both(assumes, also);
    if shares {
        let shared = or(net, stays, came)?;
        return Ok(shared);
    }
    Ok(stays)
}

/// Whether an event completes a segment: it comes after those that it has just completed (`came`), the last of which
/// follows an assumption (`assumes`), or not.
pub fn completes(
    net: &mut Net,
    came: Bit,
    assumes: bool,
    passing: Passing,
    completed: Bit,
) -> Result<Bit, OutOfMemory>
    requires came_in { IsIn net.old came }
    requires here { IsHere net.old passing }
    requires completed_in { IsIn net.old completed }
    requires room { length net.old + 3 ≤ 2 ^ 31 }
    ensures { IfOk result (IsCompletion net.old net.new came assumes passing completed) }
{
    let stays = stays(net, passing, completed)?;
    let there = reached(net, stays, came, assumes, passing.assumes)?;
    let completes = net.and(passing.followed, there)?;
    Ok(completes)
}

/// What an event does to a segment.
pub fn segment_after(
    net: &mut Net,
    here: Bit,
    came: Bit,
    assumes: bool,
    passing: Passing,
    completed: Bit,
) -> Result<Moved, OutOfMemory>
    requires here_in { IsIn net.old here }
    requires came_in { IsIn net.old came }
    requires passing_in { IsHere net.old passing }
    requires completed_in { IsIn net.old completed }
    requires room { length net.old + 8 ≤ 2 ^ 31 }
    ensures { IfOk result (IsMoved net.old net.new here came assumes passing completed) }
{
    let next = completes(net, came, assumes, passing, completed)?;
    let stays = stays(net, passing, completed)?;
    let now = or(net, stays, came)?;
    let kept = changed(net, here, now, completed)?;
    Ok(Moved {
        completed: kept,
        came: next,
    })
}
