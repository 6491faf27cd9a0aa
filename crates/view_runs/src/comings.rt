// What was seen when a run came by the place of a waypoint.
use crate::passing::holds;
use crate::reads::{Sample, push_samples, reads_of, samples_of};
use c_core::{Expr, Program, Spot};
use c_meaning::{Event, Memory, Way};
use std::alloc::Global;
use way_match::{BoundSegment, Point};
use wv_base::OutOfMemory;

/// So many comings are told, and the last.
const MOST: usize = 5;

/// At so many statements it is tried whether a constraint holds there.
const MOST_TRIED: u32 = 100;

/// An event by its number, with the memory of that moment.
#[derive(Clone, Copy)]
pub struct Moment<'m> {
    pub number: u64,
    pub event: Event,
    pub memory: &'m Memory,
}

/// An event at the place of a waypoint, and the values of what the waypoint's constraint reads.
#[derive(Drop)]
pub struct Coming {
    pub number: u64,
    pub event: Event,
    samples: Vec<Sample>,
}

/// A waypoint to avoid that ended the wait for a segment, by its number in the segment from 0.
#[derive(Drop)]
pub struct Avoided {
    pub at: usize,
    pub coming: Coming,
}

/// A statement at which the constraint of an assumption holds, and the event that begins it.
#[derive(Clone, Copy)]
pub struct Held {
    pub spot: Spot,
    pub number: u64,
}

/// What was seen of the waypoints of a segment while it was waited for.
#[derive(Drop)]
pub struct Comings {
    pub first: Vec<Coming>,
    pub last: Option<Coming>,
    pub avoided: Option<Avoided>,
    /// Where the constraint held first, once the run had come by its place.
    pub held: Option<Held>,
    tried: u32,
}

/// The expression of an assumption.
fn test_of(point: &Point) -> Option<&Expr> {
    match point {
        Point::Assume(_, test) => Some(test),
        _ => None,
    }
}

/// What is seen of a waypoint at a moment.
pub fn coming_of(
    alloc: Global,
    program: &Program,
    point: &Point,
    moment: &Moment<'_>,
) -> Result<Coming, OutOfMemory> {
    let samples = match test_of(point) {
        Some(test) => samples_of(alloc, program, test, moment.memory)?,
        None => Vec::new(alloc),
    };
    Ok(Coming {
        number: moment.number,
        event: moment.event,
        samples,
    })
}

impl Comings {
    fn new(alloc: Global) -> Comings {
        Comings {
            first: Vec::new(alloc),
            last: None,
            avoided: None,
            held: None,
            tried: 0,
        }
    }

    /// A statement is begun: once the run came by the waypoint to follow, its constraint is tried there.
    pub fn try_at(&mut self, program: &Program, point: &Point, spot: Spot, moment: &Moment<'_>) {
        let Some(test) = test_of(point) else {
            return;
        };
        if self.first.len() == 0 || self.held.is_some() || self.tried >= MOST_TRIED {
            return;
        }
        self.tried = self.tried.saturating_add(1);
        if holds(program, test, moment.memory) {
            self.held = Some(Held {
                spot,
                number: moment.number,
            });
        }
    }

    /// The run comes by the waypoint to follow.
    pub fn come(&mut self, coming: Coming) -> Result<(), OutOfMemory> {
        if self.first.len() < MOST {
            self.first.push(coming)?;
        } else {
            self.last = Some(coming);
        }
        Ok(())
    }

    /// A waypoint to avoid is passed; the first one is kept.
    pub fn avoid(&mut self, at: usize, coming: Coming) {
        if self.avoided.is_none() {
            self.avoided = Some(Avoided { at, coming });
        }
    }
}

/// Nothing is seen of these segments yet.
pub fn no_comings(alloc: Global, segments: &[BoundSegment]) -> Result<Vec<Comings>, OutOfMemory> {
    let mut list = Vec::new(alloc);
    for _ in segments {
        list.push(Comings::new(alloc))?;
    }
    Ok(list)
}

fn way_text(alloc: Global, way: Way) -> Result<String, OutOfMemory> {
    match way {
        Way::Truth(true) => Ok(String::from_str(alloc, "its test was true")?),
        Way::Truth(false) => Ok(String::from_str(alloc, "its test was false")?),
        Way::Case(value) => Ok(format!(in alloc; "it chose the case {value}")?),
        Way::Default => Ok(String::from_str(alloc, "it chose no case")?),
    }
}

/// What an event itself says; empty where the values say it.
fn event_text(alloc: Global, event: Event) -> Result<String, OutOfMemory> {
    match event {
        Event::Branch(_, way) => way_text(alloc, way),
        Event::Return(_, Some(value)) => Ok(format!(in alloc; "\\result = {value}")?),
        _ => Ok(String::new(alloc)),
    }
}

/// The values at a coming, as `x = 1, y = 2`; empty where nothing is read.
pub fn values_text(
    alloc: Global,
    program: &Program,
    point: &Point,
    coming: &Coming,
) -> Result<String, OutOfMemory> {
    let mut text = event_text(alloc, coming.event)?;
    if let Some(test) = test_of(point) {
        let reads = reads_of(alloc, test)?;
        push_samples(
            &mut text,
            program,
            reads.as_slice(),
            coming.samples.as_slice(),
        )?;
    }
    Ok(text)
}

/// Appends a coming by its event and its values.
fn push_coming(
    alloc: Global,
    text: &mut String,
    program: &Program,
    point: &Point,
    coming: &Coming,
) -> Result<(), OutOfMemory> {
    let number = coming.number;
    let values = values_text(alloc, program, point, coming)?;
    let values = values.as_str();
    if values.is_empty() {
        write!(text, "event {number}")?;
    } else {
        write!(text, "{values} (event {number})")?;
    }
    Ok(())
}

/// What the values were when the run came by a waypoint: the first times, and the last.
pub fn comings_text(
    alloc: Global,
    program: &Program,
    point: &Point,
    comings: &Comings,
    count: u64,
) -> Result<String, OutOfMemory> {
    let mut text = String::new(alloc);
    let mut between = "";
    for coming in comings.first.as_slice() {
        text.push_str(between)?;
        push_coming(alloc, &mut text, program, point, coming)?;
        between = "; ";
    }
    if let Some(last) = &comings.last {
        let left = if count > 6 {
            "; ..; the last time "
        } else {
            "; "
        };
        text.push_str(left)?;
        push_coming(alloc, &mut text, program, point, last)?;
    }
    Ok(text)
}
