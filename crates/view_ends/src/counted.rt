// How often a run came to each line of the program.
use std::alloc::Global;
use view_runs::Tracker;
use view_text::{Messages, Reached};
use wv_base::OutOfMemory;

/// A line that has code has a count, if only 0.
fn mark_coded(lines: &mut Vec<Reached>, number: u32) {
    let at = (number as usize).saturating_sub(1);
    if let Some(line) = lines.get_mut(at) {
        if *line == Reached::NoStatement {
            *line = Reached::Times(0);
        }
    }
}

/// How often each line was reached, where it was.
fn begun_lines(alloc: Global, counts: &[u64]) -> Result<Vec<Reached>, OutOfMemory> {
    let mut lines = Vec::new(alloc);
    for count in counts {
        lines.push(match *count {
            0 => Reached::NoStatement,
            count => Reached::Times(count),
        })?;
    }
    Ok(lines)
}

/// Keeps how often a run came to each line of the program.
pub fn count_lines(
    alloc: Global,
    tracker: &Tracker<'_>,
    out: &mut Messages,
) -> Result<(), OutOfMemory> {
    let mut lines = begun_lines(alloc, tracker.counts.as_slice())?;
    for number in tracker.counts.coded() {
        mark_coded(&mut lines, *number);
    }
    out.count(lines);
    Ok(())
}
