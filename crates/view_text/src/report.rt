// A message in the form of compilers: `FILE:LINE:COLUMN: error: TEXT [code]`, the line of the file, a caret.
use crate::extent::extent_of;
use crate::files::Files;
use crate::lines::line_of;
use crate::look::{Look, Paint};
use crate::message::{Level, Message};
use crate::printed::push_printable;
use crate::window::Window;
use c_core::Spot;
use std::alloc::Global;
use wv_base::OutOfMemory;

/// So many bytes stand before a line of a file: its number and a bar.
const GUTTER: usize = 8;

fn push_number(out: &mut String, look: Look, number: u32) -> Result<(), OutOfMemory> {
    look.begin(out, Paint::Number)?;
    write!(out, "{number:5} |")?;
    look.end(out)?;
    out.push_str(" ")?;
    Ok(())
}

/// What stands before the mark below a line.
fn push_bar(out: &mut String, look: Look) -> Result<(), OutOfMemory> {
    look.begin(out, Paint::Number)?;
    out.push_str("      |")?;
    look.end(out)?;
    out.push_str(" ")?;
    Ok(())
}

/// How many bytes a message is about.
fn width_of(message: &Message, rest: &[u8]) -> usize {
    match message.width {
        0 => extent_of(message.file, rest),
        width => width as usize,
    }
}

/// A line of a file, and a mark below what the message is about.
fn push_source(
    alloc: Global,
    out: &mut String,
    look: Look,
    text: &[u8],
    message: &Message,
    spot: Spot,
) -> Result<(), OutOfMemory> {
    let line = line_of(text, spot.line);
    let column = (spot.column as usize).saturating_sub(1).min(line.len());
    let rest = line.get(column..).unwrap_or(&[]);
    let behind = column
        .saturating_add(width_of(message, rest))
        .min(line.len());
    let window = Window::of(line, column, behind, look.room(GUTTER));
    push_number(out, look, spot.line)?;
    window.push_line(alloc, out)?;
    out.push_str("\n")?;
    push_bar(out, look)?;
    look.begin(out, Paint::Level(message.level))?;
    window.push_mark(alloc, out, column, behind)?;
    look.end(out)?;
    out.push_str("\n")?;
    Ok(())
}

/// The name of a file, and the place in it.
fn push_place(
    alloc: Global,
    out: &mut String,
    look: Look,
    name: &str,
    spot: Option<Spot>,
) -> Result<(), OutOfMemory> {
    look.begin(out, Paint::Place)?;
    push_printable(alloc, out, name.as_bytes())?;
    if let Some(spot) = spot {
        let line = spot.line;
        let column = spot.column;
        write!(out, ":{line}:{column}")?;
    }
    out.push_str(":")?;
    look.end(out)
}

fn push_level(out: &mut String, look: Look, level: Level) -> Result<(), OutOfMemory> {
    let word = level.word();
    out.push_str(" ")?;
    look.begin(out, Paint::Level(level))?;
    write!(out, "{word}:")?;
    look.end(out)?;
    out.push_str(" ")?;
    Ok(())
}

/// Appends a message with the line that it speaks of.
pub fn lay_out_message(
    alloc: Global,
    out: &mut String,
    look: Look,
    files: &Files<'_>,
    message: &Message,
) -> Result<(), OutOfMemory> {
    push_place(alloc, out, look, files.name(message.file), message.spot)?;
    push_level(out, look, message.level)?;
    push_printable(alloc, out, message.text.as_bytes())?;
    if !message.code.is_empty() {
        let code = message.code.as_str();
        write!(out, " [{code}]")?;
    }
    out.push_str("\n")?;
    match message.spot {
        Some(spot) => push_source(alloc, out, look, files.text(message.file), message, spot),
        None => Ok(()),
    }
}
