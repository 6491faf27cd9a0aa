// The lines of waypoints and invariants.
ghost use Rattle.std.specs.Prelude.{◌≡◌, ◌+◌, ◌++◌, IfOk, OnOk, length, string_bytes};
ghost use Rattle.wv_show.specs.Show.{avoid_lines, constraint_text, content_lines, content_size, invariant_line, invariant_lines, place, segment_lines, segment_size, sequence_lines, sequence_size, waypoint_line};

use crate::words::{add_quoted, word_of_invariant, word_of_way};
use std::alloc::Global;
use wv_base::OutOfMemory;
use wv_schema::{Constraint, Content, Invariant, Location, Segment, Waypoint};

/// The number after this one; one that can't be kept is answered as out of memory.
fn next(number: u64) -> Result<u64, OutOfMemory>
    ensures { IfOk result (λ after. after ≡ number + 1) }
{
    number.checked_add(1).ok_or(OutOfMemory)
}

fn add_place(out: &mut String, location: &Location) -> Result<(), OutOfMemory>
    ensures { OnOk result (string_bytes out.new ≡ string_bytes out.old ++ place location.now) }
{
    let line = location.line;
    match location.column {
        Some(column) => write!(out, "{line}:{column}")?,
        None => write!(out, "{line}")?,
    }
    Ok(())
}

fn add_constraint(
    alloc: Global,
    out: &mut String,
    constraint: &Option<Constraint>,
) -> Result<(), OutOfMemory>
    ensures { OnOk result (string_bytes out.new ≡ string_bytes out.old ++ constraint_text constraint.now) }
{
    if let Some(constraint) = constraint {
        out.push_str(" ")?;
        add_quoted(alloc, out, &constraint.value)?;
    }
    Ok(())
}

fn add_waypoint(
    alloc: Global,
    out: &mut String,
    action: &str,
    number: u64,
    waypoint: &Waypoint,
) -> Result<(), OutOfMemory>
    ensures { OnOk result (string_bytes out.new
        ≡ string_bytes out.old ++ waypoint_line action.now number waypoint.now) }
{
    let kind = word_of_way(waypoint.kind);
    write!(out, "waypoint {number} {action} {kind} ")?;
    add_place(out, &waypoint.location)?;
    add_constraint(alloc, out, &waypoint.constraint)?;
    out.push_str("\n")?;
    Ok(())
}

/// A line for each avoid; the number of what comes next.
fn add_avoids(
    alloc: Global,
    out: &mut String,
    first: u64,
    avoids: &[Waypoint],
) -> Result<u64, OutOfMemory>
    ensures lines { OnOk result (string_bytes out.new ≡ string_bytes out.old ++ avoid_lines first avoids.now) }
    ensures number { IfOk result (λ after. after ≡ first + length avoids.now) }
{
    let mut number = first;
    for waypoint in avoids {
        add_waypoint(alloc, out, "avoid", number, waypoint)?;
        number = next(number)?;
    }
    Ok(number)
}

fn add_segment(
    alloc: Global,
    out: &mut String,
    first: u64,
    segment: &Segment,
) -> Result<u64, OutOfMemory>
    ensures lines { OnOk result (string_bytes out.new ≡ string_bytes out.old ++ segment_lines first segment.now) }
    ensures number { IfOk result (λ after. after ≡ first + segment_size segment.now) }
{
    let number = add_avoids(alloc, out, first, segment.avoids.as_slice())?;
    add_waypoint(alloc, out, "follow", number, &segment.follow)?;
    let after = next(number)?;
    Ok(after)
}

fn add_segments(
    alloc: Global,
    out: &mut String,
    first: u64,
    segments: &[Segment],
) -> Result<u64, OutOfMemory>
    ensures lines { OnOk result (string_bytes out.new ≡ string_bytes out.old ++ sequence_lines first segments.now) }
    ensures number { IfOk result (λ after. after ≡ first + sequence_size segments.now) }
{
    let mut number = first;
    for segment in segments {
        number = add_segment(alloc, out, number, segment)?;
    }
    Ok(number)
}

fn add_invariant(
    alloc: Global,
    out: &mut String,
    number: u64,
    invariant: &Invariant,
) -> Result<(), OutOfMemory>
    ensures { OnOk result (string_bytes out.new ≡ string_bytes out.old ++ invariant_line number invariant.now) }
{
    let kind = word_of_invariant(invariant.kind);
    write!(out, "invariant {number} {kind} ")?;
    add_place(out, &invariant.location)?;
    out.push_str(" ")?;
    add_quoted(alloc, out, &invariant.value)?;
    out.push_str("\n")?;
    Ok(())
}

fn add_invariants(
    alloc: Global,
    out: &mut String,
    first: u64,
    invariants: &[Invariant],
) -> Result<u64, OutOfMemory>
    ensures lines { OnOk result (string_bytes out.new ≡ string_bytes out.old ++ invariant_lines first invariants.now) }
    ensures number { IfOk result (λ after. after ≡ first + length invariants.now) }
{
    let mut number = first;
    for invariant in invariants {
        add_invariant(alloc, out, number, invariant)?;
        number = next(number)?;
    }
    Ok(number)
}

/// A line for each waypoint or invariant, the first having this number; the number of what comes next.
pub fn add_content(
    alloc: Global,
    out: &mut String,
    first: u64,
    content: &Content,
) -> Result<u64, OutOfMemory>
    ensures lines { OnOk result (string_bytes out.new ≡ string_bytes out.old ++ content_lines first content.now) }
    ensures number { IfOk result (λ after. after ≡ first + content_size content.now) }
{
    match content {
        Content::Violation(segments) => add_segments(alloc, out, first, segments.as_slice()),
        Content::Invariants(invariants) => add_invariants(alloc, out, first, invariants.as_slice()),
    }
}
