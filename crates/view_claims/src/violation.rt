// A violation sequence: a waypoint that isn't bound, or the given run.
use crate::seeking::note_seeking;
use c_core::{Program, Spot};
use c_meaning::{Choices, End, Run};
use flow_machine::run_machine;
use std::alloc::Global;
use view_binding::{bind, explain_unbound_waypoints, line_count, segments_of};
use view_ends::{count_lines, explain_ended, explain_unmatched, note_unfixed, show_run};
use view_runs::Tracker;
use view_text::{File, Files, Messages};
use way_bind::Lookup;
use way_match::{Bound, Matcher, given_over};
use way_places::Index;
use wv_base::{OutOfMemory, Seq};
use wv_schema::Witness;

/// The line whose statements were begun most often, from 1, and how often.
fn busiest(lines: &[u64]) -> (u32, u64) {
    let mut best = 1u32;
    let mut most = 0u64;
    let mut line = 0u32;
    for count in lines {
        line = line.saturating_add(1);
        if *count > most {
            best = line;
            most = *count;
        }
    }
    (best, most)
}

fn explain_spent(
    alloc: Global,
    tracker: &Tracker<'_>,
    steps: u64,
    out: &mut Messages,
) -> Result<(), OutOfMemory> {
    let told = format!(in alloc;
        "the run that the witness gives isn't over after {steps} steps: this is the last statement that it began; a larger --steps may decide"
    )?;
    out.warning("undecided", File::Program, tracker.last, told)?;
    let (line, count) = busiest(tracker.lines.as_slice());
    let told = format!(in alloc; "statements of this line were begun most often, {count} times")?;
    out.note(File::Program, Some(Spot { line, column: 1 }), told)
}

fn explain_deep(
    alloc: Global,
    tracker: &Tracker<'_>,
    out: &mut Messages,
) -> Result<(), OutOfMemory> {
    let told = String::from_str(
        alloc,
        "over 1,000,000 cells would be live after this statement: the violation needs fewer calls or smaller arrays",
    )?;
    out.warning("undecided", File::Program, tracker.last, told)
}

fn explain_undefined(
    alloc: Global,
    program: &Program,
    judged: &Judged,
    spot: Spot,
    out: &mut Messages,
) -> Result<(), OutOfMemory> {
    let told = String::from_str(
        alloc,
        "the run comes to undefined behaviour here before it violates the property: a divisor of 0, an index outside its array, a shift by too much, or a value that a function didn't give",
    )?;
    out.warning("undefined", File::Program, Some(spot), told)?;
    note_unfixed(
        alloc,
        program,
        &judged.choices,
        judged.run.draws.as_slice(),
        out,
    )
}

/// The values that the segments give, the run that draws them, and the events that pass the segments, where some do.
#[derive(Drop)]
struct Judged {
    choices: Choices,
    run: Run,
    positions: Option<Seq<u64>>,
}

/// Where the draws of the run take their values from: the segments, or a list of values.
fn choices_of(
    alloc: Global,
    index: &Index,
    bound: &Bound,
    values: Option<&[i128]>,
) -> Result<Choices, OutOfMemory> {
    let Some(values) = values else {
        let choices = given_over(alloc, bound, index)?;
        return Ok(choices);
    };
    let mut list = Seq::new(alloc);
    for value in values {
        list.push(*value)?;
    }
    Ok(Choices::InTurn(list))
}

/// The run with these choices, as the judge asks it.
fn judged_run(
    alloc: Global,
    index: &Index,
    bound: &Bound,
    choices: Choices,
    steps: u64,
) -> Result<Judged, OutOfMemory> {
    let mut matcher = Matcher::new(alloc, bound, index)?;
    let run = run_machine(alloc, index.program(), &choices, steps, &mut matcher)?;
    let positions = matcher.done();
    Ok(Judged {
        choices,
        run,
        positions,
    })
}

/// The events that pass the segments; none where the run isn't as they say.
fn events_of(judged: &Judged) -> &[u64] {
    match &judged.positions {
        Some(positions) => positions.as_slice(),
        None => &[],
    }
}

/// What the given run comes by.
fn tracked<'a>(
    alloc: Global,
    files: &Files<'_>,
    index: &'a Index<'a>,
    bound: &'a Bound,
    judged: &'a Judged,
    steps: u64,
) -> Result<Tracker<'a>, OutOfMemory> {
    let lines = line_count(files.text(File::Program));
    let mut tracker = Tracker::new(alloc, index, bound, lines, events_of(judged))?;
    let _ = run_machine(alloc, index.program(), &judged.choices, steps, &mut tracker)?;
    Ok(tracker)
}

/// A run that violates the property.
fn explain_violated(
    alloc: Global,
    files: &Files<'_>,
    index: &Index,
    witness: &Witness,
    bound: &Bound,
    judged: &Judged,
    steps: u64,
    out: &mut Messages,
) -> Result<(), OutOfMemory> {
    let segments = segments_of(witness);
    let tracker = tracked(alloc, files, index, bound, judged, steps)?;
    count_lines(alloc, &tracker, out)?;
    if judged.positions.is_none() {
        return explain_unmatched(alloc, files, witness, segments, &tracker, out);
    }
    let draws = judged.run.draws.as_slice();
    show_run(alloc, segments, draws, events_of(judged), &tracker, out)
}

/// A run that ends otherwise.
fn explain_end(
    alloc: Global,
    files: &Files<'_>,
    index: &Index,
    witness: &Witness,
    bound: &Bound,
    judged: &Judged,
    steps: u64,
    out: &mut Messages,
) -> Result<(), OutOfMemory> {
    let tracker = tracked(alloc, files, index, bound, judged, steps)?;
    count_lines(alloc, &tracker, out)?;
    match judged.run.end {
        End::Ended => {
            explain_ended(
                alloc,
                index.program(),
                segments_of(witness),
                &judged.choices,
                &judged.run,
                &tracker,
                out,
            )?;
            note_seeking(alloc, files, judged.run.unfixed, out)
        }
        End::Undefined(spot) => explain_undefined(alloc, index.program(), judged, spot, out),
        End::Spent => explain_spent(alloc, &tracker, steps, out),
        End::Deep => explain_deep(alloc, &tracker, out),
        End::Violated(_) => Ok(()),
    }
}

/// The run that the segments give, or that draws these values, by its end.
fn explain_run(
    alloc: Global,
    files: &Files<'_>,
    index: &Index,
    witness: &Witness,
    bound: &Bound,
    steps: u64,
    values: Option<&[i128]>,
    out: &mut Messages,
) -> Result<(), OutOfMemory> {
    let choices = choices_of(alloc, index, bound, values)?;
    let judged = judged_run(alloc, index, bound, choices, steps)?;
    match judged.run.end {
        End::Violated(_) => explain_violated(
            alloc, files, index, witness, bound, &judged, steps, out,
        ),
        _ => explain_end(alloc, files, index, witness, bound, &judged, steps, out),
    }
}

/// What there is to say of a program and a violation sequence about it, whose run draws these values where there are some.
pub fn explain_sequence(
    alloc: Global,
    files: &Files<'_>,
    program: &Program,
    witness: &Witness,
    steps: u64,
    values: Option<&[i128]>,
    out: &mut Messages,
) -> Result<(), OutOfMemory> {
    let lookup = Lookup::new(alloc, program)?;
    match bind(alloc, witness, &lookup) {
        Ok(bound) => explain_run(
            alloc,
            files,
            &lookup.index,
            witness,
            &bound,
            steps,
            values,
            out,
        ),
        Err(fault) => explain_unbound_waypoints(alloc, files, &lookup, witness, fault, out),
    }
}
