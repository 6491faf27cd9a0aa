// Events that leave all live states as they are: the most that happen at a waypoint's place.
ghost use Rattle.std.specs.Prelude.{◌≡◌, ℕ, ◌+◌, ◌<◌, true, false, length, Some};
ghost use Rattle.std.specs.Option.{option_copied};
ghost use Rattle.c_core.specs.Tree.{Program};
ghost use Rattle.c_core.specs.View.{program_view};
ghost use Rattle.way_match.specs.inside.Arena.{IsBlank};
ghost use Rattle.way_match.specs.inside.Avoided.{avoid_at, ready_at, CoversAt};
ghost use Rattle.c_meaning.specs.Watching.{event_spot};
ghost use Rattle.way_match.specs.inside.Resting as resting;
ghost use Rattle.way_match.specs.inside.Resting.{opens_at, AreStill, AvoidsNone, LeavesAll};
ghost use Rattle.way_match.specs.inside.Turning.{seen_by, sighted};
ghost use Rattle.way_match.specs.Passing as passing;
ghost use Rattle.way_match.specs.Points.{Point};

use crate::avoided::{Avoided, avoid_in};
use crate::passing::passes;
use crate::prepared::{Prepared, Ready};
use crate::sight::Sight;

fn ready_for<'a>(prepared: &'a [Prepared], avoided: Avoided) -> Option<&'a Ready>
    ensures { option_copied result ≡ ready_at prepared.now avoided.segment avoided.at }
{
    match prepared.get(avoided.segment) {
        None => None,
        Some(segment) => segment.avoids.as_slice().get(avoided.at),
    }
}

// Whether the event passes one of the waypoints to avoid.
fn is_passing(sight: &Sight, avoided: Avoided) -> bool
    ensures { result ≡ false → (x : Point) → avoid_at (sighted sight.now) avoided.segment avoided.at ≡ Some x
        → passing.passes (program_view sight.now.program.now) x sight.now.event sight.now.memory.now.cells ≡ false }
{
    let point = avoid_in(sight.segments, avoided);
    match (point, ready_for(sight.prepared, avoided)) {
        (Some(point), Some(ready)) => {
            passes(sight.program, point, ready, sight.event, sight.memory)
        }
        _ => false,
    }
}

// Whether the event passes no waypoint to avoid of the segments before a number, by those that stand for all there.
fn avoids_none(sight: &Sight, there: &[Avoided], reach: usize) -> bool
    requires { CoversAt (sighted sight.now) (event_spot sight.now.event) there.now }
    ensures { result ≡ true → AvoidsNone (program_view sight.now.program.now) (seen_by sight.now) (sighted sight.now)
        reach }
{
    for avoided in there {
        if avoided.segment < reach && is_passing(sight, *avoided) {
            return false;
        }
    }
    true
}

// Whether the state behind a segment is live, and isn't that behind all segments.
fn is_next_live(live: &[Option<usize>], k: usize) -> bool
    requires { k + 1 < length live.now }
    ensures { result ≡ resting.is_next_live live.now k }
{
    k + 2 < live.len() && live[k + 1].is_some()
}

// Whether no event makes the state behind a segment live.
fn is_still(live: &[Option<usize>], k: usize) -> bool
    requires { k + 1 < length live.now }
    ensures { result ≡ resting.is_still live.now k }
{
    live[k].is_none() || is_next_live(live, k)
}

/// A number from `low` on: behind the segments before it no event makes a state live, as behind those before `low`.
pub fn quiet_from(live: &[Option<usize>], low: usize, reach: usize) -> usize
    requires { 0 < length live.now }
    ensures { AreStill live.now low → AreStill live.now result }
{
    let last = live.len() - 1;
    let mut quiet = low;
    while quiet < reach && quiet < last {
        if is_still(live, quiet) {
            quiet += 1;
        } else {
            return quiet;
        }
    }
    quiet
}

// Whether the event may make the state behind a segment live.
fn opens(sight: &Sight, live: &[Option<usize>], k: usize) -> bool
    requires within { k < length sight.now.segments.now }
    requires states { length live.now ≡ length sight.now.segments.now + 1 }
    ensures { result ≡ false → opens_at (program_view sight.now.program.now) (seen_by sight.now) (sighted sight.now)
        live.now k ≡ false }
{
    if is_still(live, k) {
        return false;
    }
    passes(
        sight.program,
        &sight.segments[k].follow,
        &sight.prepared[k].follow,
        sight.event,
        sight.memory,
    )
}

// Whether the event makes no state live.
fn opens_none(sight: &Sight, live: &[Option<usize>], quiet: usize, reach: usize) -> bool
    requires states { length live.now ≡ length sight.now.segments.now + 1 }
    requires still { AreStill live.now quiet }
    requires blank { IsBlank reach live.now }
    ensures { result ≡ true → (k : ℕ) → k < length (sighted sight.now)
        → opens_at (program_view sight.now.program.now) (seen_by sight.now) (sighted sight.now) live.now k ≡ false }
{
    let mut k = quiet;
    while k < reach && k < sight.segments.len() {
        if opens(sight, live, k) {
            return false;
        }
        k += 1;
    }
    true
}

/// Whether the event leaves all states but the last as they are.
pub fn rests(
    sight: &Sight,
    there: &[Avoided],
    live: &[Option<usize>],
    quiet: usize,
    reach: usize,
) -> bool
    requires states { length live.now ≡ length sight.now.segments.now + 1 }
    requires still { AreStill live.now quiet }
    requires blank { IsBlank reach live.now }
    requires covers { CoversAt (sighted sight.now) (event_spot sight.now.event) there.now }
    ensures { result ≡ true → LeavesAll (program_view sight.now.program.now) (seen_by sight.now) (sighted sight.now)
        live.now }
{
    avoids_none(sight, there, reach) && opens_none(sight, live, quiet, reach)
}
