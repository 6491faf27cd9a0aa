// What a run comes by: the lines whose statements it begins, and how far it passes the segments.
use crate::comings::{Comings, Moment};
use crate::route::{Route, Waiting};
use crate::ways::Ways;
use c_core::{Callee, Node, Spot};
use c_meaning::{Event, Memory, Watcher};
use std::alloc::Global;
use view_counts::Counts;
use way_match::{Bound, BoundSegment};
use way_places::Index;
use wv_base::OutOfMemory;

/// Sees the events of a run. It claims nothing: what it keeps is shown, and no verdict rests on it.
#[derive(Drop)]
pub struct Tracker<'a> {
    route: Route<'a>,
    ways: Ways,
    /// How often each line was come to, as gcov counts it.
    pub counts: Counts,
    /// How often a statement of each line was begun; of line 1 at 0.
    pub lines: Vec<u64>,
    /// The statement that was begun last.
    pub last: Option<Spot>,
    /// The violation.
    pub violation: Option<Event>,
    pub events: u64,
    /// The numbers of events whose places are wanted, rising.
    wanted: &'a [u64],
    /// The places of those of them that came.
    pub found: Vec<Spot>,
    /// The numbers of the first events by which input calls gave a value, rising.
    pub inputs: Vec<u64>,
}

/// So many events of input calls are kept.
const MOST_INPUTS: usize = 200;

/// Whether an input call gives a value by an event.
fn gives_input(index: &Index, event: Event) -> bool {
    let Event::Return(close, _) = event else {
        return false;
    };
    match index.call_at(close) {
        Some(call) => matches!(
            &call.node,
            Node::Call {
                callee: Callee::Input(_),
                ..
            }
        ),
        None => false,
    }
}

/// The place that is shown of an event: that of a failure is its call or else its full expression.
pub fn shown_spot(event: Event) -> Spot {
    match event {
        Event::At(spot) => spot,
        Event::Branch(spot, _) => spot,
        Event::Enter(spot) => spot,
        Event::Return(spot, _) => spot,
        Event::Fail { full, call, .. } => call.unwrap_or(full),
    }
}

/// No statement of so many lines was begun yet.
fn no_counts(alloc: Global, lines: u32) -> Result<Vec<u64>, OutOfMemory> {
    let mut counts = Vec::new(alloc);
    for _ in 0..lines {
        counts.push(0)?;
    }
    Ok(counts)
}

impl<'a> Tracker<'a> {
    /// Before all events of a run of an indexed program of so many lines.
    pub fn new(
        alloc: Global,
        index: &'a Index<'a>,
        bound: &'a Bound,
        line_count: u32,
        wanted: &'a [u64],
    ) -> Result<Tracker<'a>, OutOfMemory> {
        let route = Route::new(alloc, index, bound)?;
        let ways = Ways::new(alloc, bound.segments.as_slice())?;
        let counts = Counts::new(alloc, index.program(), line_count)?;
        let lines = no_counts(alloc, line_count)?;
        Ok(Tracker {
            route,
            ways,
            counts,
            lines,
            last: None,
            violation: None,
            events: 0,
            wanted,
            found: Vec::new(alloc),
            inputs: Vec::new(alloc),
        })
    }

    /// What was seen of each segment, and behind the last.
    pub fn waiting(&self) -> &[Waiting] {
        self.ways.as_slice()
    }

    /// What was seen of the waypoints of a segment, by its number from 0.
    pub fn comings(&self, number: usize) -> Option<&Comings> {
        self.ways.comings(number)
    }

    /// A segment as it is bound, by its number from 0.
    pub fn segment(&self, number: usize) -> Option<&BoundSegment> {
        self.route.behind(number).first()
    }

    /// The segments in the program that is run.
    pub fn route(&self) -> &Route<'a> {
        &self.route
    }

    /// Keeps the place of an event that is wanted; two neighbours may be passed by one event.
    fn keep(&mut self, event: Event) -> Result<(), OutOfMemory> {
        let wanted = self.wanted;
        let spot = shown_spot(event);
        for number in wanted.get(self.found.len()..).unwrap_or(&[]) {
            if *number != self.events {
                break;
            }
            self.found.push(spot)?;
        }
        Ok(())
    }

    /// Keeps the number of the event, where an input call gives a value by it.
    fn keep_input(&mut self, event: Event) -> Result<(), OutOfMemory> {
        if self.inputs.len() < MOST_INPUTS && gives_input(self.route.index(), event) {
            self.inputs.push(self.events)?;
        }
        Ok(())
    }

    fn count_line(&mut self, spot: Spot) {
        let at = (spot.line as usize).saturating_sub(1);
        if let Some(count) = self.lines.get_mut(at) {
            *count = count.saturating_add(1);
        }
        self.last = Some(spot);
    }
}

impl<'a> Watcher for Tracker<'a> {
    ghost Seen = { Unit {0} };

    ghost seen = { λ _. tt };

    ghost after = { λ _ _ s. s };

    // it takes memory
    ghost sure = { ⊥ };

    fn see(&mut self, event: Event, memory: &Memory) -> Result<(), OutOfMemory> {
        self.keep(event)?;
        self.keep_input(event)?;
        let moment = Moment {
            number: self.events,
            event,
            memory,
        };
        self.events = self.events.saturating_add(1);
        match event {
            Event::At(spot) => self.count_line(spot),
            Event::Fail { .. } => self.violation = Some(event),
            _ => {}
        }
        self.counts.pass(self.route.index(), event)?;
        self.ways.pass(&self.route, &moment)?;
        if let Event::At(spot) = event {
            self.ways.try_at(&self.route, spot, &moment);
        }
        Ok(())
    }

    // no event is left out
    fn skips(&mut self, _spot: Spot) -> bool {
        false
    }
}
