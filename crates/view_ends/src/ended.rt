// A run that ends without a violation: the values that it drew, and the target that it didn't come to.
use crate::draws::note_unfixed;
use crate::unfit::{first_unfit, note_unfit};
use c_core::Program;
use c_meaning::{Choices, Run};
use std::alloc::Global;
use view_runs::{Tracker, spot_of, times_text};
use view_text::{File, Messages};
use wv_base::OutOfMemory;
use wv_schema::{Location, Segment};

/// Why the run may not have been the one that was meant.
fn why_text(alloc: Global, tracker: &Tracker<'_>, unfixed: u64) -> Result<String, OutOfMemory> {
    let unfit = first_unfit(alloc, tracker)?;
    if !unfit.is_empty() {
        return Ok(unfit);
    }
    match unfixed {
        0 => Ok(String::from_str(
            alloc,
            "the values that it drew, below, don't lead to the target",
        )?),
        1 => Ok(String::from_str(alloc, "1 draw took 0, since no waypoint gives a value")?),
        _ => Ok(format!(in alloc; "{unfixed} draws took 0, since no waypoint gives their values")?),
    }
}

/// How often statements of a line were begun.
fn count_at(tracker: &Tracker<'_>, line: u32) -> u64 {
    let at = (line as usize).saturating_sub(1);
    tracker.lines.get(at).copied().unwrap_or(0)
}

fn target_text(alloc: Global, tracker: &Tracker<'_>, line: u32) -> Result<String, OutOfMemory> {
    let count = count_at(tracker, line);
    if count == 0 {
        return Ok(String::from_str(
            alloc,
            "this is the target, and no statement of its line was begun",
        )?);
    }
    let times = times_text(alloc, count)?;
    let times = times.as_str();
    Ok(format!(in alloc;
        "this is the target: statements of its line were begun {times}, and the property wasn't violated there"
    )?)
}

/// Where the last segment's waypoint to follow is.
fn target_of(segments: &[Segment]) -> Option<&Location> {
    match segments.last() {
        Some(segment) => Some(&segment.follow.location),
        None => None,
    }
}

/// A note at the target.
fn note_target(
    alloc: Global,
    segments: &[Segment],
    tracker: &Tracker<'_>,
    out: &mut Messages,
) -> Result<(), OutOfMemory> {
    let Some(location) = target_of(segments) else {
        return Ok(());
    };
    let told = target_text(alloc, tracker, location.line)?;
    out.note(File::Program, Some(spot_of(location)), told)
}

/// A run that ends without a violation.
pub fn explain_ended(
    alloc: Global,
    program: &Program,
    segments: &[Segment],
    choices: &Choices,
    run: &Run,
    tracker: &Tracker<'_>,
    out: &mut Messages,
) -> Result<(), OutOfMemory> {
    let why = why_text(alloc, tracker, run.unfixed)?;
    let why = why.as_str();
    let told = format!(in alloc;
        "the run that the witness gives ends without a violation: this is the last statement that it began; {why}"
    )?;
    out.warning("ended", File::Program, tracker.last, told)?;
    note_unfit(alloc, tracker, out)?;
    note_target(alloc, segments, tracker, out)?;
    note_unfixed(alloc, program, choices, run.draws.as_slice(), out)
}
