// How far the ways of a run come along the segments of a violation sequence.
use crate::comings::{Comings, Moment, coming_of, no_comings};
use crate::route::{Coming, Route, Waiting};
use c_core::Spot;
use std::alloc::Global;
use way_match::BoundSegment;
use wv_base::OutOfMemory;

/// What was seen of each segment, and behind the last.
#[derive(Drop)]
pub struct Ways {
    alloc: Global,
    waiting: Vec<Waiting>,
    /// What was seen of the waypoints of each segment while a way waited for it.
    comings: Vec<Comings>,
    /// A way stays open for good at the segment of this number, or it is 0: what comes of the segments before is seen
    /// no more.
    low: usize,
    /// The number of the last segment that a way came to.
    high: usize,
}

/// What is seen of a segment before all events.
fn unseen(is_reached: bool) -> Waiting {
    Waiting {
        is_reached,
        is_open: is_reached,
        visits: 0,
        avoided: 0,
    }
}

impl Ways {
    /// Before all events of a run.
    pub fn new(alloc: Global, segments: &[BoundSegment]) -> Result<Ways, OutOfMemory> {
        let mut waiting = Vec::new(alloc);
        waiting.push(unseen(true))?;
        for _ in segments {
            waiting.push(unseen(false))?;
        }
        Ok(Ways {
            alloc,
            waiting,
            comings: no_comings(alloc, segments)?,
            low: 0,
            high: 0,
        })
    }

    /// One for each segment, and one behind the last. Of segments before one that is reached the counts may be those of
    /// an earlier event.
    pub fn as_slice(&self) -> &[Waiting] {
        self.waiting.as_slice()
    }

    /// What was seen of the waypoints of a segment.
    pub fn comings(&self, number: usize) -> Option<&Comings> {
        self.comings.get(number)
    }

    /// Keeps what a moment shows of a segment that was waited for.
    fn keep(
        &mut self,
        route: &Route<'_>,
        number: usize,
        segment: &BoundSegment,
        after: Waiting,
        moment: &Moment<'_>,
    ) -> Result<(), OutOfMemory> {
        let before = self.at(number);
        let alloc = self.alloc;
        let Some(comings) = self.comings.get_mut(number) else {
            return Ok(());
        };
        if after.visits != before.visits {
            comings.come(coming_of(alloc, route.program(), &segment.follow, moment)?)?;
        }
        if after.avoided != before.avoided {
            keep_avoided(alloc, route, segment, moment, comings)?;
        }
        Ok(())
    }

    fn at(&self, number: usize) -> Waiting {
        match self.waiting.get(number) {
            Some(waiting) => *waiting,
            None => unseen(false),
        }
    }

    fn set(&mut self, number: usize, now: Waiting) {
        if now.is_reached {
            self.high = self.high.max(number);
        }
        if number < self.waiting.len() {
            self.waiting[number] = now;
        }
    }

    /// A statement is begun: the constraint of the last segment that a way came to is tried there.
    pub fn try_at(&mut self, route: &Route<'_>, spot: Spot, moment: &Moment<'_>) {
        let number = self.high;
        let Some(segment) = route.behind(number).first() else {
            return;
        };
        if let Some(comings) = self.comings.get_mut(number) {
            comings.try_at(route.program(), &segment.follow, spot, moment);
        }
    }

    /// Takes the ways that wait for a segment past an event, and those that a way comes to by it, and gives the number
    /// of the segment behind.
    fn carry(
        &mut self,
        route: &Route<'_>,
        from: usize,
        moment: &Moment<'_>,
    ) -> Result<usize, OutOfMemory> {
        let mut comes = Coming::Not;
        let mut number = from;
        for segment in route.behind(from) {
            let before = self.at(number);
            let (after, next) = route.turn(before, comes, segment, moment.event, moment.memory);
            self.keep(route, number, segment, after, moment)?;
            self.set(number, after);
            if after.is_open && segment.avoids.len() == 0 {
                self.low = self.low.max(number);
            }
            comes = next;
            number = number.saturating_add(1);
            if matches!(comes, Coming::Not) {
                return Ok(number);
            }
        }
        if !matches!(comes, Coming::Not) {
            self.set(number, unseen(true));
        }
        Ok(number)
    }

    /// Takes all ways past an event.
    pub fn pass(&mut self, route: &Route<'_>, moment: &Moment<'_>) -> Result<(), OutOfMemory> {
        let mut next = self.low;
        for number in route.numbers(moment.event) {
            if !self.at(*number).is_reached {
                break;
            }
            if *number >= next {
                next = self.carry(route, *number, moment)?;
            }
        }
        Ok(())
    }
}

/// Keeps the waypoint to avoid that a moment passes.
fn keep_avoided(
    alloc: Global,
    route: &Route<'_>,
    segment: &BoundSegment,
    moment: &Moment<'_>,
    comings: &mut Comings,
) -> Result<(), OutOfMemory> {
    let Some(at) = route.avoided_at(segment, moment.event, moment.memory) else {
        return Ok(());
    };
    if let Some(point) = segment.avoids.get(at) {
        comings.avoid(at, coming_of(alloc, route.program(), point, moment)?);
    }
    Ok(())
}
