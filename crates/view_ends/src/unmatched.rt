// The first segment of a violation sequence that the given run doesn't pass.
use crate::unfit::note_unfit;
use c_core::Spot;
use c_meaning::Event;
use std::alloc::Global;
use view_paths::{place_of_path, steps_of, waypoint_path};
use view_runs::{
    Avoided, Tracker, Waiting, comings_text, number_in_segment, number_of_follow, place_text,
    shown_spot, spot_of, times_text, values_text, waypoint_text,
};
use view_text::{File, Files, Messages};
use way_match::Point;
use wv_base::OutOfMemory;
use wv_schema::{Segment, WayKind, Waypoint, Witness};

/// The number, from 0, of the first segment that no way passed.
fn first_unpassed(waiting: &[Waiting]) -> usize {
    let mut last = 0usize;
    for (at, segment) in waiting.iter().enumerate() {
        if segment.is_reached {
            last = at;
        }
    }
    last
}

/// How often the place of a waypoint to follow was come by.
fn visits_text(alloc: Global, kind: WayKind, visits: u64) -> Result<String, OutOfMemory> {
    if kind == WayKind::Target {
        Ok(String::from_str(alloc, "the violation isn't there")?)
    } else if visits == 0 {
        Ok(String::from_str(alloc, "the run didn't come to this place any more")?)
    } else {
        let times = times_text(alloc, visits)?;
        let times = times.as_str();
        Ok(format!(in alloc; "the run came to this place {times}, and didn't pass the waypoint")?)
    }
}

/// A waypoint to avoid that was passed, by its number.
fn avoided_before(
    alloc: Global,
    number: u32,
    avoided: &Avoided,
    count: u64,
) -> Result<String, OutOfMemory> {
    let event = avoided.coming.number;
    if count == 1 {
        return Ok(format!(in alloc;
            "waypoint {number}, which has to be avoided, was passed before it by event {event}"
        )?);
    }
    Ok(format!(in alloc;
        "waypoint {number}, which has to be avoided, was passed before it by event {event}, the first of {count} times"
    )?)
}

/// What was seen of a segment while it was waited for.
fn seen_text(
    alloc: Global,
    tracker: &Tracker<'_>,
    at: usize,
    number: u32,
    segment: &Segment,
    waiting: Waiting,
) -> Result<String, OutOfMemory> {
    let Some(avoided) = avoided_of(tracker, at) else {
        return visits_text(alloc, segment.follow.kind, waiting.visits);
    };
    let passed = number_in_segment(segment, number, avoided.at);
    let before = avoided_before(alloc, passed, avoided, waiting.avoided)?;
    if !waiting.is_open {
        return Ok(before);
    }
    let mut text = visits_text(alloc, segment.follow.kind, waiting.visits)?;
    let before = before.as_str();
    write!(text, "; {before}")?;
    Ok(text)
}

/// What is told of a segment of so many by its number, from 0, by that of its waypoint to follow, and by what was seen
/// of it.
fn segment_text(
    alloc: Global,
    at: usize,
    count: usize,
    number: u32,
    segment: &Segment,
    how: &str,
) -> Result<String, OutOfMemory> {
    let position = at.saturating_add(1);
    let follow = waypoint_text(alloc, &segment.follow)?;
    let waypoint = follow.as_str();
    let location = place_text(alloc, &segment.follow.location)?;
    let place = location.as_str();
    Ok(format!(in alloc;
        "segment {position} of {count} is the first that isn't passed: waypoint {number}, {waypoint} at {place}: {how}"
    )?)
}

/// The values that were there each time that the run came by the waypoint to follow.
fn note_comings(
    alloc: Global,
    tracker: &Tracker<'_>,
    at: usize,
    spot: Spot,
    visits: u64,
    out: &mut Messages,
) -> Result<(), OutOfMemory> {
    let (Some(bound), Some(comings)) = (tracker.segment(at), tracker.comings(at)) else {
        return Ok(());
    };
    if visits == 0 || matches!(bound.follow, Point::Target(_)) {
        return Ok(());
    }
    let program = tracker.route().program();
    let list = comings_text(alloc, program, &bound.follow, comings, visits)?;
    let list = list.as_str();
    let told = format!(in alloc; "when the run came here: {list}")?;
    out.note(File::Program, Some(spot), told)
}

/// The first statement behind a coming at which the constraint holds, where no waypoint to avoid ended the wait.
fn note_held(
    alloc: Global,
    tracker: &Tracker<'_>,
    at: usize,
    out: &mut Messages,
) -> Result<(), OutOfMemory> {
    let Some(comings) = tracker.comings(at) else {
        return Ok(());
    };
    let Some(held) = comings.held else {
        return Ok(());
    };
    if comings.avoided.is_some() {
        return Ok(());
    }
    let number = held.number;
    let told = format!(in alloc;
        "the constraint holds here, when event {number} begins this statement: the next one at which it does"
    )?;
    out.note(File::Program, Some(held.spot), told)
}

/// What is told of a waypoint to avoid by its number: the event that passed it, with its values.
fn avoided_text(
    alloc: Global,
    tracker: &Tracker<'_>,
    at: usize,
    number: u32,
    waypoint: &Waypoint,
    avoided: &Avoided,
) -> Result<String, OutOfMemory> {
    let word = waypoint_text(alloc, waypoint)?;
    let word = word.as_str();
    let event = avoided.coming.number;
    let mut told = format!(in alloc;
        "waypoint {number}, {word}, has to be avoided, and was passed here by event {event}"
    )?;
    let bound = match tracker.segment(at) {
        Some(segment) => segment.avoids.get(avoided.at),
        None => None,
    };
    if let Some(point) = bound {
        let program = tracker.route().program();
        let values = values_text(alloc, program, point, &avoided.coming)?;
        if !values.is_empty() {
            let values = values.as_str();
            write!(told, " with {values}")?;
        }
    }
    Ok(told)
}

/// The waypoint to avoid that ended the wait for a segment, whose waypoint to follow has this number.
fn note_avoided(
    alloc: Global,
    files: &Files<'_>,
    witness: &Witness,
    tracker: &Tracker<'_>,
    at: usize,
    segment: &Segment,
    follow: u32,
    out: &mut Messages,
) -> Result<(), OutOfMemory> {
    let Some(avoided) = avoided_of(tracker, at) else {
        return Ok(());
    };
    let Some(waypoint) = segment.avoids.get(avoided.at) else {
        return Ok(());
    };
    let number = number_in_segment(segment, follow, avoided.at);
    let told = avoided_text(alloc, tracker, at, number, waypoint, avoided)?;
    let spot = shown_spot(avoided.coming.event);
    out.note(File::Program, Some(spot), told)?;
    note_waypoint(
        alloc,
        files,
        witness,
        number,
        "the waypoint to avoid stands here",
        out,
    )
}

fn avoided_of<'t>(tracker: &'t Tracker<'_>, at: usize) -> Option<&'t Avoided> {
    match tracker.comings(at) {
        Some(comings) => match &comings.avoided {
            Some(avoided) => Some(avoided),
            None => None,
        },
        None => None,
    }
}

/// Where the run violated the property.
fn violation_spot(violation: Option<Event>) -> Option<Spot> {
    match violation {
        Some(event) => Some(shown_spot(event)),
        None => None,
    }
}

fn note_violation(
    alloc: Global,
    tracker: &Tracker<'_>,
    out: &mut Messages,
) -> Result<(), OutOfMemory> {
    let last = tracker.events.saturating_sub(1);
    let told = format!(in alloc; "the run violates the property here, by event {last}")?;
    out.note(File::Program, violation_spot(tracker.violation), told)
}

/// Where the witness has the waypoint of this number.
fn note_waypoint(
    alloc: Global,
    files: &Files<'_>,
    witness: &Witness,
    number: u32,
    told: &str,
    out: &mut Messages,
) -> Result<(), OutOfMemory> {
    let Some(path) = waypoint_path(alloc, witness, number)? else {
        return Ok(());
    };
    let steps = steps_of(alloc, path.as_str())?;
    let spot = place_of_path(alloc, files.text(File::Witness), steps.as_slice())?;
    out.remark(File::Witness, Some(spot), told)
}

/// A segment, by its number from 0, that the run doesn't pass.
fn explain_segment(
    alloc: Global,
    files: &Files<'_>,
    witness: &Witness,
    segments: &[Segment],
    tracker: &Tracker<'_>,
    at: usize,
    segment: &Segment,
    waiting: Waiting,
    out: &mut Messages,
) -> Result<(), OutOfMemory> {
    let number = number_of_follow(segments, at);
    let seen = seen_text(alloc, tracker, at, number, segment, waiting)?;
    let told = segment_text(alloc, at, segments.len(), number, segment, seen.as_str())?;
    let spot = spot_of(&segment.follow.location);
    out.warning("unmatched", File::Program, Some(spot), told)?;
    note_unfit(alloc, tracker, out)?;
    note_avoided(alloc, files, witness, tracker, at, segment, number, out)?;
    note_comings(alloc, tracker, at, spot, waiting.visits, out)?;
    note_held(alloc, tracker, at, out)?;
    note_violation(alloc, tracker, out)?;
    note_waypoint(
        alloc,
        files,
        witness,
        number,
        "the witness says it here",
        out,
    )
}

/// A run that violates the property otherwise than the witness says.
pub fn explain_unmatched(
    alloc: Global,
    files: &Files<'_>,
    witness: &Witness,
    segments: &[Segment],
    tracker: &Tracker<'_>,
    out: &mut Messages,
) -> Result<(), OutOfMemory> {
    let seen = tracker.waiting();
    let at = first_unpassed(seen);
    match (segments.get(at), seen.get(at)) {
        (Some(segment), Some(waiting)) => explain_segment(
            alloc, files, witness, segments, tracker, at, segment, *waiting, out,
        ),
        _ => {
            let told = String::from_str(
                alloc,
                "the run violates the property, but not as the witness says",
            )?;
            out.warning("unmatched", File::Program, None, told)
        }
    }
}
