// For each number of completed segments whether some positions complete them, and these positions as a chain of nodes.
ghost use Rattle.std.specs.Prelude.{◌≡◌, ℕ, ◌+◌, ◌<◌, ◌≤◌, true, false, not, ◌&&◌, ◌||◌, [], ◌∷◌, length, replicate, List, None, Some, IfOk, OnErr, OnOk, vec_len, vec_capacity};
ghost use Rattle.c_core.specs.Tree as tree;
ghost use Rattle.c_core.specs.View.{program_view};
ghost use Rattle.way_match.specs.inside.Arena.{chain, Held, way_of, IsHeld, ways_of, AreHeld, AreHeld-prop, came_of, IsFrom, Grown, IsBlank};
ghost use Rattle.way_match.specs.inside.Avoided.{Covers};
ghost use Rattle.way_match.specs.inside.Resting.{AreStill, LeavesAll};
ghost use Rattle.c_meaning.specs.Watching.{event_spot};
ghost use Rattle.way_match.specs.inside.ByPlace.{moved, numbers_in};
ghost use Rattle.way_match.specs.Passing as passing;
ghost use Rattle.way_match.specs.inside.Prepared.{all_prepared, prepared_of};
ghost use Rattle.way_match.specs.inside.Steps.{is_there, only_if, way_now, step, onto};
ghost use Rattle.way_match.specs.inside.Turning.{ArePassed, IsPassed, IsSettled, assumes_at, outcome, seen_by, sighted};
ghost use Rattle.way_match.specs.Points as points;
ghost use Rattle.way_match.specs.Matching.{Seen};
ghost use Rattle.way_match.specs.View.{each_segment_view, segment_view};

use crate::avoided::{Avoided, Avoids};
use crate::by_place::ByPlace;
use crate::passing::{is_assumption, passes, passes_any};
use crate::point::BoundSegment;
use crate::prepared::Prepared;
use crate::resting::{quiet_from, rests};
use crate::sight::Sight;
use c_core::{Program, Spot};
use c_meaning::{Event, Memory};
use std::alloc::Global;
use wv_base::OutOfMemory;

// Of fewer waypoints to avoid no two that are the same need be found.
const LEAST_ASKED: usize = 4;

/// The position of a segment's follow, and the place of the node of the segment before.
#[derive(Clone, Copy, Debug, PartialEq, Eq)]
pub struct Node {
    pub event: u64,
    pub previous: usize,
}

/// A state for each number of completed segments. No state from number `reach` on was ever live; no event can move the
/// segments before number `low` any more; behind those before number `quiet` no event makes a state live. The segments
/// of the live states have `asked` waypoints to avoid.
#[derive(Drop)]
pub struct States {
    pub nodes: Vec<Node>,
    pub live: Vec<Option<usize>>,
    pub reach: usize,
    pub low: usize,
    pub quiet: usize,
    pub asked: usize,
    ghost held: { AreHeld nodes.items 0 live.items } by { AreHeld-prop nodes.items 0 live.items },
    ghost blank: { IsBlank reach live.items },
}

// A state stays live unless the event passes an avoid of the next segment.
fn stays(
    sight: &Sight,
    was: Option<usize>,
    segment: &BoundSegment,
    prepared: &Prepared,
) -> Option<usize>
    requires { prepared.now ≡ prepared_of (program_view sight.now.program.now) (segment_view segment.now) }
    ensures { result ≡ only_if (not (passing.passes_any (program_view sight.now.program.now)
        (segment_view segment.now).avoids sight.now.event sight.now.memory.now.cells)) was }
{
    if was.is_some()
        && passes_any(
            sight.program,
            segment.avoids.as_slice(),
            prepared.avoids.as_slice(),
            sight.event,
            sight.memory,
        )
    {
        None
    } else {
        was
    }
}

// A new state may be passed by its own event where it was live before, or where both follows are assumptions.
fn may_pass(kept: Option<usize>, shares: bool, segment: &BoundSegment) -> bool
    ensures { result ≡ (is_there kept || (shares && passing.is_assumption (segment_view segment.now).follow)) }
{
    kept.is_some() || shares && is_assumption(&segment.follow)
}

// The way that the event takes past the next segment.
fn goes(
    sight: &Sight,
    kept: Option<usize>,
    now: Option<usize>,
    shares: bool,
    segment: &BoundSegment,
    prepared: &Prepared,
) -> Option<usize>
    requires { prepared.now ≡ prepared_of (program_view sight.now.program.now) (segment_view segment.now) }
    ensures { result ≡ only_if (passing.passes (program_view sight.now.program.now) (segment_view segment.now).follow
        sight.now.event sight.now.memory.now.cells &&
        (is_there kept || (shares && passing.is_assumption (segment_view segment.now).follow))) now }
{
    if now.is_none() {
        return None;
    }
    if !may_pass(kept, shares, segment) {
        return None;
    }
    let follow = &segment.follow;
    if passes(
        sight.program,
        follow,
        &prepared.follow,
        sight.event,
        sight.memory,
    ) {
        now
    } else {
        None
    }
}

// The state that stays live, or else one with a new node on the way that came.
fn arrives(
    kept: Option<usize>,
    came: Option<usize>,
    event: u64,
    nodes: &mut Vec<Node>,
) -> Option<usize>
    requires room { vec_len nodes.old < vec_capacity nodes.old }
    ensures way { (k : ℕ) → IsHeld nodes.old.items k kept → IsFrom nodes.old.items k came
        → way_of nodes.new.items k result ≡ way_now event (way_of nodes.old.items k kept)
        (came_of nodes.old.items k came) }
    ensures held { (k : ℕ) → IsHeld nodes.old.items k kept → IsFrom nodes.old.items k came
        → IsHeld nodes.new.items k result }
    ensures grown { Grown nodes.old.items nodes.new.items }
    ensures len { vec_len nodes.new ≤ vec_len nodes.old + 1 }
    ensures capacity { vec_capacity nodes.old ≤ vec_capacity nodes.new }
{
    if kept.is_some() {
        return kept;
    }
    match came {
        None => None,
        Some(previous) => {
            let at = nodes.len();
            match nodes.push(Node { event, previous }) {
                Ok(()) => Some(at),
                Err(_) => None,
            }
        }
    }
}

// The number of states up to the last that was ever live.
fn reached(reach: usize, i: usize, now: Option<usize>) -> usize
    requires { i < 18446744073709551615 }
    ensures more { reach ≤ result }
    ensures this { result ≤ i → now ≡ None }
{
    if now.is_some() && i >= reach {
        i + 1
    } else {
        reach
    }
}

/// Writes the positions of a chain into the room for them, the last position last.
pub fn fill(nodes: &[Node], last: usize, room: &mut [u64])
    requires { Held nodes.now (length room.old) last }
    ensures { room.new ≡ onto [] (chain nodes.now (length room.old) last) }
{
    let mut at = last;
    let mut left = room.len();
    while left > 0 {
        left -= 1;
        let node = nodes[at];
        room[left] = node.event;
        at = node.previous;
    }
}

// The place of an event; a failure has none of its own.
fn place_of(event: &Event) -> Option<Spot>
    ensures { result ≡ event_spot event.now }
{
    match event {
        Event::At(spot) => Some(*spot),
        Event::Enter(close) => Some(*close),
        Event::Return(close, _) => Some(*close),
        Event::Branch(spot, _) => Some(*spot),
        Event::Fail { .. } => None,
    }
}

// The waypoints to avoid of the live states' segments, once a state was changed.
#[inline]
fn reweighed(
    asked: usize,
    was: Option<usize>,
    now: Option<usize>,
    segment: &BoundSegment,
) -> usize {
    match (was, now) {
        (None, Some(_)) => asked.saturating_add(segment.avoids.len()),
        (Some(_), None) => asked.saturating_sub(segment.avoids.len()),
        _ => asked,
    }
}

// Whether a state stays live past every event, so that no way to it matters.
fn is_settled(segments: &[BoundSegment], live: &[Option<usize>], i: usize) -> bool
    requires { length live.now ≡ length segments.now + 1 }
    ensures { result ≡ true → IsSettled (each_segment_view segments.now) live.now i }
{
    if i >= segments.len() {
        return false;
    }
    let segment = &segments[i];
    segment.avoids.len() == 0 && live[i].is_some()
}

// Whether no event can move a segment any more: it has no waypoint to avoid, and the state behind it stays live.
fn is_passed(segments: &[BoundSegment], live: &[Option<usize>], i: usize) -> bool
    requires { length live.now ≡ length segments.now + 1 }
    ensures within { result ≡ true → i < length segments.now }
    ensures passed { result ≡ true → IsPassed (each_segment_view segments.now) live.now i }
{
    if i >= segments.len() {
        return false;
    }
    let segment = &segments[i];
    segment.avoids.len() == 0 && is_settled(segments, live, i + 1)
}

impl States {
    /// No segment is completed yet.
    pub fn new(alloc: Global, count: usize, asked: usize) -> Result<States, OutOfMemory>
        ensures { IfOk result (λ states. (states.nodes.items ≡ []) × (states.live.items ≡ Some 0 ∷ replicate count None)
            × (states.low ≡ 0) × (states.quiet ≡ 0)) }
    {
        let mut live = Vec::new(alloc);
        live.push(Some(0))?;
        for _ in 0..count {
            live.push(None)?;
        }
        Ok(States {
            nodes: Vec::new(alloc),
            live,
            reach: 1,
            low: 0,
            quiet: 0,
            asked,
        })
    }

    /// Takes the state of segment number `i` past an event, and gives what comes to the next one, if that matters
    /// there.
    fn turn(&mut self, sight: &Sight, i: usize, came: Option<usize>, shares: bool) -> Option<usize>
        requires within { i < length sight.now.segments.now }
        requires states { length self.old.live.items ≡ length sight.now.segments.now + 1 }
        requires room { vec_len self.old.nodes < vec_capacity self.old.nodes }
        requires from { IsFrom self.old.nodes.items i came }
        ensures value { outcome sight.now self.new.nodes.items self.new.live.items (i + 1) result
            (assumes_at sight.now i) ≡ outcome sight.now self.old.nodes.items self.old.live.items i came shares }
        ensures from { IsFrom self.new.nodes.items (i + 1) result }
        ensures states { length self.new.live.items ≡ length self.old.live.items }
        ensures len { vec_len self.new.nodes ≤ vec_len self.old.nodes + 1 }
        ensures capacity { vec_capacity self.old.nodes ≤ vec_capacity self.new.nodes }
        ensures low { self.new.low ≡ self.old.low }
    {
        let segment = &sight.segments[i];
        let compared = &sight.prepared[i];
        let was = self.live[i];
        let kept = stays(sight, was, segment, compared);
        let now = arrives(kept, came, sight.count, &mut self.nodes);
        self.live[i] = now;
        self.reach = reached(self.reach, i, now);
        self.asked = reweighed(self.asked, was, now, segment);
        if is_settled(sight.segments, self.live.as_slice(), i + 1) {
            None
        } else {
            goes(sight, kept, now, shares, segment, compared)
        }
    }

    /// Takes the state of segment number `from` past an event, and then those that a way comes to. The answer has the
    /// number of the segment behind, and the way that comes behind the last.
    fn carry(&mut self, sight: &Sight, from: usize) -> (usize, Option<usize>)
        requires within { from < length sight.now.segments.now }
        requires states { length self.old.live.items ≡ length sight.now.segments.now + 1 }
        requires room { vec_len self.old.nodes + length sight.now.segments.now + 1
            ≤ vec_capacity self.old.nodes + from }
        ensures value { outcome sight.now self.new.nodes.items self.new.live.items result.0 result.1 false
            ≡ outcome sight.now self.old.nodes.items self.old.live.items from None false }
        ensures more { from < result.0 }
        ensures within { result.0 ≤ length sight.now.segments.now }
        ensures ends { result.0 < length sight.now.segments.now → result.1 ≡ None }
        ensures from { IsFrom self.new.nodes.items result.0 result.1 }
        ensures states { length self.new.live.items ≡ length self.old.live.items }
        ensures room { vec_len self.new.nodes + length sight.now.segments.now + 1
            ≤ vec_capacity self.new.nodes + result.0 }
        ensures low { self.new.low ≡ self.old.low }
    {
        let mut came = self.turn(sight, from, None, false);
        let mut i = from + 1;
        while came.is_some() {
            if i == sight.segments.len() {
                return (i, came);
            }
            let shares = is_assumption(&sight.segments[i - 1].follow);
            came = self.turn(sight, i, came, shares);
            i += 1;
        }
        (i, came)
    }

    /// The state behind all segments is live only where a way came.
    fn finish(&mut self, sight: &Sight, came: Option<usize>)
        requires states { length self.old.live.items ≡ length sight.now.segments.now + 1 }
        requires room { vec_len self.old.nodes < vec_capacity self.old.nodes }
        requires from { IsFrom self.old.nodes.items (length sight.now.segments.now) came }
        ensures ways { ways_of self.new.nodes.items 0 self.new.live.items ≡ outcome sight.now self.old.nodes.items
            self.old.live.items (length sight.now.segments.now) came false }
        ensures states { length self.new.live.items ≡ length self.old.live.items }
        ensures low { self.new.low ≡ self.old.low }
    {
        let last = sight.segments.len();
        let now = arrives(None, came, sight.count, &mut self.nodes);
        self.live[last] = now;
        self.reach = reached(self.reach, last, now);
    }

    /// Takes all states past an event, which can move the segments of these numbers alone.
    fn advance(&mut self, sight: &Sight, numbers: &[usize])
        requires states { length self.old.live.items ≡ length sight.now.segments.now + 1 }
        requires room { vec_len self.old.nodes + length sight.now.segments.now + 1 ≤ vec_capacity self.old.nodes }
        requires passed { ArePassed (sighted sight.now) self.old.live.items self.old.low }
        requires moved { numbers.now ≡ moved (event_spot sight.now.event) 0 (sighted sight.now) }
        ensures ways { ways_of self.new.nodes.items 0 self.new.live.items ≡ step (program_view sight.now.program.now)
            (seen_by sight.now) sight.now.count None false (sighted sight.now)
            (ways_of self.old.nodes.items 0 self.old.live.items) }
        ensures states { length self.new.live.items ≡ length self.old.live.items }
        ensures low { self.new.low ≡ self.old.low }
    {
        let mut next = self.low;
        let mut came: Option<usize> = None;
        for number in numbers {
            if *number >= self.reach {
                self.finish(sight, came);
                return;
            }
            if *number >= next {
                (next, came) = self.carry(sight, *number);
            }
        }
        self.finish(sight, came);
    }
    /// Goes on past segments that no event can move any more.
    fn raise(&mut self, segments: &[BoundSegment])
        requires states { length self.old.live.items ≡ length segments.now + 1 }
        requires passed { ArePassed (each_segment_view segments.now) self.old.live.items self.old.low }
        ensures passed { ArePassed (each_segment_view segments.now) self.new.live.items self.new.low }
        ensures nodes { self.new.nodes.items ≡ self.old.nodes.items }
        ensures live { self.new.live.items ≡ self.old.live.items }
    {
        while is_passed(segments, self.live.as_slice(), self.low) {
            self.low += 1;
        }
    }

    // Goes on past segments behind which no event makes a state live, where that may be asked.
    fn calm(&mut self)
        requires { 0 < length self.old.live.items }
        ensures still { (ss : List points.BoundSegment) → length self.old.live.items ≡ length ss + 1
            → ArePassed ss self.old.live.items self.old.low → AreStill self.new.live.items self.new.quiet }
        ensures nodes { self.new.nodes.items ≡ self.old.nodes.items }
        ensures live { self.new.live.items ≡ self.old.live.items }
        ensures low { self.new.low ≡ self.old.low }
    {
        let reach = if self.asked < LEAST_ASKED {
            self.low
        } else {
            self.reach
        };
        let quiet = quiet_from(self.live.as_slice(), self.low, reach);
        self.quiet = quiet;
    }

    // Whether the live states' segments have at least twice as many waypoints to avoid as the place has different ones.
    fn is_worth_asking(&self, there: &[Avoided]) -> bool {
        !there.is_empty() && there.len() < self.asked / 2
    }

    // Whether the event leaves all states but the last as they are, where that is asked.
    fn rests(&self, sight: &Sight, avoids: &Avoids) -> bool
        requires states { length self.now.live.items ≡ length sight.now.segments.now + 1 }
        requires still { AreStill self.now.live.items self.now.quiet }
        requires covers { Covers (sighted sight.now) avoids.now }
        ensures { result ≡ true → LeavesAll (program_view sight.now.program.now) (seen_by sight.now)
            (sighted sight.now) self.now.live.items }
    {
        if self.asked < LEAST_ASKED {
            return false;
        }
        match place_of(&sight.event) {
            None => false,
            Some(spot) => {
                let there = avoids.at(spot);
                self.is_worth_asking(there)
                    && rests(sight, there, self.live.as_slice(), self.quiet, self.reach)
            }
        }
    }

    /// Takes all states past an event that can move no segment: only the state behind all segments doesn't stay.
    #[inline]
    pub fn pass_by(&mut self)
        requires { 0 < length self.old.live.items }
        ensures ways { (p : tree.Program) (e : Seen) (n : ℕ) (ss : List points.BoundSegment)
            → length self.old.live.items ≡ length ss + 1 → moved (event_spot e.event) 0 ss ≡ []
            → ways_of self.new.nodes.items 0 self.new.live.items
            ≡ step p e n None false ss (ways_of self.old.nodes.items 0 self.old.live.items) }
        ensures rested { (p : tree.Program) (e : Seen) (n : ℕ) (ss : List points.BoundSegment)
            → length self.old.live.items ≡ length ss + 1 → LeavesAll p e ss self.old.live.items
            → ways_of self.new.nodes.items 0 self.new.live.items
            ≡ step p e n None false ss (ways_of self.old.nodes.items 0 self.old.live.items) }
        ensures passed { (ss : List points.BoundSegment) → length self.old.live.items ≡ length ss + 1
            → ArePassed ss self.old.live.items self.old.low → ArePassed ss self.new.live.items self.new.low }
        ensures still { AreStill self.old.live.items self.old.quiet → AreStill self.new.live.items self.new.quiet }
        ensures states { length self.new.live.items ≡ length self.old.live.items }
    {
        let last = self.live.len() - 1;
        self.live[last] = None;
    }

    /// Takes all states past an event of a number.
    // Never inlined: where it is, all of the event is read and copied before it is known to be watched.
    #[inline(never)]
    pub fn pass(
        &mut self,
        program: &Program,
        segments: &[BoundSegment],
        prepared: &[Prepared],
        by_place: &ByPlace,
        avoids: &Avoids,
        event: Event,
        memory: &Memory,
        count: u64,
    ) -> Result<(), OutOfMemory>
        requires prepares { prepared.now ≡ all_prepared (program_view program.now) (each_segment_view segments.now) }
        requires places { numbers_in by_place.now (event_spot event)
            ≡ moved (event_spot event) 0 (each_segment_view segments.now) }
        requires covers { Covers (each_segment_view segments.now) avoids.now }
        requires states { length self.old.live.items ≡ length segments.now + 1 }
        requires passed { ArePassed (each_segment_view segments.now) self.old.live.items self.old.low }
        requires still { AreStill self.old.live.items self.old.quiet }
        ensures ways { OnOk result (ways_of self.new.nodes.items 0 self.new.live.items ≡ step (program_view program.now)
            (record { event = event; cells = memory.now.cells }) count None false (each_segment_view segments.now)
            (ways_of self.old.nodes.items 0 self.old.live.items)) }
        ensures refused { OnErr result (ways_of self.new.nodes.items 0 self.new.live.items
            ≡ ways_of self.old.nodes.items 0 self.old.live.items) }
        ensures passed { ArePassed (each_segment_view segments.now) self.new.live.items self.new.low }
        ensures still { AreStill self.new.live.items self.new.quiet }
        ensures states { length self.new.live.items ≡ length self.old.live.items }
    {
        let numbers = by_place.numbers(event);
        if numbers.is_empty() {
            self.pass_by();
            return Ok(());
        }
        let sight = Sight {
            program,
            segments,
            prepared,
            event,
            memory,
            count,
        };
        if self.rests(&sight, avoids) {
            self.pass_by();
            return Ok(());
        }
        self.nodes.reserve(self.live.len())?;
        self.advance(&sight, numbers);
        self.raise(segments);
        self.calm();
        Ok(())
    }
}
