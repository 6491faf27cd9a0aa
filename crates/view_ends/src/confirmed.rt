// A run that is confirmed: the values that were drawn, and the event that passes each segment.
use c_core::Spot;
use c_meaning::{Draw, DrawKind};
use std::alloc::Global;
use view_runs::{Tracker, type_word, waypoint_text};
use view_text::{File, Messages};
use wv_base::OutOfMemory;
use wv_schema::Segment;

/// So many values are told.
const MOST: usize = 200;

fn draw_text(alloc: Global, draw: &Draw) -> Result<String, OutOfMemory> {
    let ty = type_word(draw.ty);
    let value = draw.value;
    match draw.from {
        DrawKind::Input => Ok(format!(in alloc; "draws {ty} {value}")?),
        _ => Ok(format!(in alloc; "has no value here: {ty} {value}")?),
    }
}

/// The draws that aren't told yet, and the numbers of the events by which input calls give theirs.
#[derive(Drop)]
struct Left<'a> {
    draws: &'a [Draw],
    inputs: &'a [u64],
    /// The event of the draw before.
    event: u64,
}

impl<'a> Left<'a> {
    /// The event of the next draw; what is drawn for an object without a value belongs to the draw before.
    fn event_of(&self, draw: &Draw) -> u64 {
        match draw.from {
            DrawKind::Input => self.inputs.first().copied().unwrap_or(self.event),
            _ => self.event,
        }
    }

    /// Passes the next draw over.
    fn pass(&mut self, draw: &Draw) {
        self.event = self.event_of(draw);
        self.draws = self.draws.get(1..).unwrap_or(&[]);
        if draw.from == DrawKind::Input {
            self.inputs = self.inputs.get(1..).unwrap_or(&[]);
        }
    }

    /// A note for each value that is drawn up to an event.
    fn note_up_to(
        &mut self,
        alloc: Global,
        event: u64,
        out: &mut Messages,
    ) -> Result<(), OutOfMemory> {
        let draws = self.draws;
        for draw in draws {
            if self.event_of(draw) > event {
                break;
            }
            let told = draw_text(alloc, draw)?;
            out.note(File::Program, Some(draw.spot), told)?;
            self.pass(draw);
        }
        Ok(())
    }
}

/// A segment that an event passes, and the number of its waypoint to follow.
fn segment_text(
    alloc: Global,
    segment: &Segment,
    number: usize,
    waypoint: u32,
    position: u64,
) -> Result<String, OutOfMemory> {
    let told = waypoint_text(alloc, &segment.follow)?;
    let told = told.as_str();
    Ok(format!(in alloc;
        "segment {number} is passed by event {position}: waypoint {waypoint}, {told}"
    )?)
}

/// How many waypoints a segment has.
fn waypoints_in(segment: &Segment) -> u32 {
    match u32::try_from(segment.avoids.len()) {
        Ok(count) => count.saturating_add(1),
        Err(_) => u32::MAX,
    }
}

/// A note for each value that the run draws and each segment whose event was found, in the order of the run.
fn note_segments(
    alloc: Global,
    left: &mut Left<'_>,
    segments: &[Segment],
    positions: &[u64],
    found: &[Spot],
    out: &mut Messages,
) -> Result<(), OutOfMemory> {
    let mut waypoint = 0u32;
    for (at, segment) in segments.iter().enumerate() {
        let Some(spot) = found.get(at) else {
            break;
        };
        waypoint = waypoint.saturating_add(waypoints_in(segment));
        let position = positions.get(at).copied().unwrap_or(0);
        left.note_up_to(alloc, position, out)?;
        let number = at.saturating_add(1);
        let told = segment_text(alloc, segment, number, waypoint, position)?;
        out.note(File::Program, Some(*spot), told)?;
    }
    Ok(())
}

/// A run that violates the property as the witness says.
pub fn show_run(
    alloc: Global,
    segments: &[Segment],
    draws: &[Draw],
    positions: &[u64],
    tracker: &Tracker<'_>,
    out: &mut Messages,
) -> Result<(), OutOfMemory> {
    let mut left = Left {
        draws: draws.get(..MOST).unwrap_or(draws),
        inputs: tracker.inputs.as_slice(),
        event: 0,
    };
    let found = tracker.found.as_slice();
    note_segments(alloc, &mut left, segments, positions, found, out)?;
    left.note_up_to(alloc, u64::MAX, out)?;
    out.confirm();
    Ok(())
}
