// A confirmation in the layout of gcov: each line of the program with how often its statements were begun, and the
// notes below their lines.
use crate::files::Files;
use crate::look::{Look, Paint};
use crate::message::{File, Level, Message, Messages};
use crate::noted::{by_line, parted_at};
use crate::printed::push_printable;
use crate::reached::Reached;
use crate::report::lay_out_message;
use crate::window::{Window, push_blanks};
use c_core::Spot;
use std::alloc::Global;
use wv_base::OutOfMemory;

/// So many bytes stand before a line of the program: its count and its number.
const GUTTER: usize = 16;

/// How often a line was reached, in gcov's words.
fn push_count(out: &mut String, reached: Reached) -> Result<(), OutOfMemory> {
    match reached {
        Reached::NoStatement => out.push_str("        -:")?,
        Reached::Times(0) => out.push_str("    #####:")?,
        Reached::Times(count) => write!(out, "{count:9}:")?,
    }
    Ok(())
}

/// A note below its line, with a caret at its column.
fn push_note(
    alloc: Global,
    out: &mut String,
    look: Look,
    line: &[u8],
    spot: Spot,
    text: &str,
) -> Result<(), OutOfMemory> {
    let column = (spot.column as usize)
        .saturating_sub(1)
        .min(look.room(GUTTER));
    out.push_str("                ")?;
    push_blanks(alloc, out, line.get(..column).unwrap_or(line))?;
    look.begin(out, Paint::Level(Level::Note))?;
    out.push_str("^")?;
    look.end(out)?;
    out.push_str(" ")?;
    push_printable(alloc, out, text.as_bytes())?;
    out.push_str("\n")?;
    Ok(())
}

/// The notes about a line of the program, by their numbers.
fn push_notes(
    alloc: Global,
    out: &mut String,
    look: Look,
    line: &[u8],
    places: &[(u32, usize)],
    messages: &[Message],
) -> Result<(), OutOfMemory> {
    for place in places {
        let (_, index) = *place;
        if let Some(message) = messages.get(index) {
            if let Some(spot) = message.spot {
                push_note(alloc, out, look, line, spot, message.text.as_str())?;
            }
        }
    }
    Ok(())
}

fn push_line(
    alloc: Global,
    out: &mut String,
    look: Look,
    line: &[u8],
    number: u32,
    reached: Reached,
) -> Result<(), OutOfMemory> {
    push_count(out, reached)?;
    write!(out, "{number:5}:")?;
    Window::of(line, 0, 0, look.room(GUTTER)).push_line(alloc, out)?;
    out.push_str("\n")?;
    Ok(())
}

/// A text without the end of its last line.
fn without_last_end(text: &[u8]) -> &[u8] {
    match text {
        [front @ .., b'\n'] => front,
        _ => text,
    }
}

/// What a confirmation is warned of, as keys of the witness that aren't read.
fn push_warnings(
    alloc: Global,
    out: &mut String,
    look: Look,
    files: &Files<'_>,
    messages: &[Message],
) -> Result<(), OutOfMemory> {
    for message in messages {
        if message.level != Level::Note {
            lay_out_message(alloc, out, look, files, message)?;
        }
    }
    Ok(())
}

/// The lines of the program, each with its count and with the notes at these places below it.
fn push_lines(
    alloc: Global,
    out: &mut String,
    look: Look,
    files: &Files<'_>,
    messages: &Messages,
    places: &[(u32, usize)],
) -> Result<(), OutOfMemory> {
    let counts = messages.counts();
    let mut later = places;
    let mut number = 0u32;
    for line in without_last_end(files.text(File::Program)).split(|byte| *byte == b'\n') {
        let reached = counts.get(number as usize).copied();
        let reached = reached.unwrap_or(Reached::NoStatement);
        number = number.saturating_add(1);
        let (here, behind) = parted_at(later, number);
        later = behind;
        push_line(alloc, out, look, line, number, reached)?;
        push_notes(alloc, out, look, line, here, messages.as_slice())?;
    }
    Ok(())
}

/// Appends warnings, and after them the program line by line, with counts and notes: `#####` where statements stand and
/// none was begun, a dash where none stands.
pub fn lay_out_listing(
    alloc: Global,
    out: &mut String,
    look: Look,
    files: &Files<'_>,
    messages: &Messages,
) -> Result<(), OutOfMemory> {
    push_warnings(alloc, out, look, files, messages.as_slice())?;
    let places = by_line(alloc, messages.as_slice(), File::Program)?;
    push_lines(alloc, out, look, files, messages, places.as_slice())
}

/// Appends the program line by line, with counts alone.
pub fn lay_out_counts(
    alloc: Global,
    out: &mut String,
    look: Look,
    files: &Files<'_>,
    messages: &Messages,
) -> Result<(), OutOfMemory> {
    push_lines(alloc, out, look, files, messages, &[])
}
