// The places of a kind round a line.
use c_core::{PlaceKind, Spot};
use std::alloc::Global;
use view_text::line_of;
use way_places::{Index, input_of};
use wv_base::OutOfMemory;

/// What a waypoint or an invariant names.
#[derive(Clone, Copy, Debug)]
pub enum Wanted {
    Place(PlaceKind),
    Aim,
}

/// What a claim names, where nothing of its kind stands.
#[derive(Clone, Copy, Debug)]
pub struct Meant {
    pub wanted: Wanted,
    pub line: u32,
    pub column: Option<u32>,
    /// Whether it speaks of a value that a call gives.
    pub is_result: bool,
}

/// Columns of a line are looked at so far.
const WIDEST: usize = 4096;

/// So many columns are listed.
const MOST: usize = 12;

/// Whether something of the kind stands at a column of a line, or anywhere on it.
pub fn stands(index: &Index, wanted: Wanted, line: u32, column: Option<u32>) -> bool {
    match wanted {
        Wanted::Place(kind) => index.place_at(kind, line, column).is_some(),
        Wanted::Aim => index.aim_fits(line, column),
    }
}

/// The columns of a line at which something of the kind stands.
pub fn columns(
    alloc: Global,
    index: &Index,
    text: &[u8],
    wanted: Wanted,
    line: u32,
) -> Result<Vec<u32>, OutOfMemory> {
    let mut columns = Vec::new(alloc);
    if !stands(index, wanted, line, None) {
        return Ok(columns);
    }
    let width = line_of(text, line).len().min(WIDEST) as u32;
    for column in 1..width.saturating_add(1) {
        if columns.len() < MOST && stands(index, wanted, line, Some(column)) {
            columns.push(column)?;
        }
    }
    Ok(columns)
}

/// How many lines a text has.
pub fn line_count(text: &[u8]) -> u32 {
    let mut count = 1u32;
    for byte in text {
        if *byte == b'\n' {
            count = count.saturating_add(1);
        }
    }
    count
}

/// Whether something of the kind stands at the column that is named, on another line.
fn is_in_column(index: &Index, wanted: Wanted, line: u32, column: Option<u32>) -> bool {
    column.is_some() && stands(index, wanted, line, column)
}

/// Whether an input call ends on a line.
fn ends_input(alloc: Global, index: &Index, text: &[u8], line: u32) -> Result<bool, OutOfMemory> {
    let ends = columns(alloc, index, text, Wanted::Place(PlaceKind::CallEnd), line)?;
    for column in ends.as_slice() {
        let close = Spot {
            line,
            column: *column,
        };
        if let Some(call) = index.call_at(close) {
            if input_of(call).is_some() {
                return Ok(true);
            }
        }
    }
    Ok(false)
}

/// How likely it is that a line is meant where another one is named: its column fits, or a value is drawn there.
fn likeness(
    alloc: Global,
    index: &Index,
    text: &[u8],
    meant: Meant,
    line: u32,
) -> Result<u8, OutOfMemory> {
    let in_column = is_in_column(index, meant.wanted, line, meant.column);
    let draws = meant.is_result && ends_input(alloc, index, text, line)?;
    Ok(match (in_column, draws) {
        (true, true) => 3,
        (false, true) => 2,
        (true, false) => 1,
        (false, false) => 0,
    })
}

/// The likelier one of two lines, the later one of two that are as likely.
fn likelier(
    alloc: Global,
    index: &Index,
    text: &[u8],
    meant: Meant,
    later: u32,
    earlier: u32,
) -> Result<u32, OutOfMemory> {
    let of_later = likeness(alloc, index, text, meant, later)?;
    let of_earlier = likeness(alloc, index, text, meant, earlier)?;
    Ok(if of_earlier > of_later {
        earlier
    } else {
        later
    })
}

/// The line nearest to a line, but not that line, on which something of the kind stands; the likelier one of two.
pub fn nearest_line(
    alloc: Global,
    index: &Index,
    text: &[u8],
    meant: Meant,
) -> Result<Option<u32>, OutOfMemory> {
    let lines = line_count(text);
    let from = meant.line.min(lines.saturating_add(1));
    for distance in 1..lines.saturating_add(1) {
        let later = from.saturating_add(distance);
        let earlier = from.saturating_sub(distance);
        let is_later = stands(index, meant.wanted, later, None);
        let is_earlier = stands(index, meant.wanted, earlier, None);
        if is_later && is_earlier {
            let line = likelier(alloc, index, text, meant, later, earlier)?;
            return Ok(Some(line));
        }
        if is_later || is_earlier {
            return Ok(Some(if is_later { later } else { earlier }));
        }
    }
    Ok(None)
}

/// What stands before a column of so many in a list of them.
fn between(at: usize, count: usize) -> &'static str {
    if at == 0 {
        ""
    } else if at.saturating_add(1) == count {
        " and "
    } else {
        ", "
    }
}

/// The places of a line at these columns, as `column 3` or `columns 3, 10 and 12`.
pub fn columns_text(alloc: Global, columns: &[u32]) -> Result<String, OutOfMemory> {
    let count = columns.len();
    let noun = if count == 1 { "column " } else { "columns " };
    let mut text = String::from_str(alloc, noun)?;
    for (at, column) in columns.iter().enumerate() {
        let between = between(at, count);
        write!(text, "{between}{column}")?;
    }
    Ok(text)
}

/// The first place of a list of columns.
pub fn first_spot(line: u32, columns: &[u32]) -> Spot {
    Spot {
        line,
        column: columns.first().copied().unwrap_or(1),
    }
}
