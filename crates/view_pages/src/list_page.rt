// A page of many judgements: of each its files, its reply, and the errors and warnings.
use crate::escaped::push_html;
use crate::html::{push_reply, push_told};
use crate::page::{HEAD, LIST, TAIL};
use std::alloc::Global;
use view_text::{File, Files, Level, Message};
use wv_base::OutOfMemory;

/// So many errors and warnings of a judgement are shown.
const MOST: usize = 10;

/// What stands before the judgements.
pub fn list_head(alloc: Global) -> Result<String, OutOfMemory> {
    let mut out = String::from_str(alloc, HEAD)?;
    out.push_str(LIST)?;
    Ok(out)
}

/// What stands after them.
pub fn list_tail(alloc: Global) -> Result<String, OutOfMemory> {
    let mut out = String::from_str(alloc, "</table>\n")?;
    out.push_str(TAIL)?;
    Ok(out)
}

/// The names of the files, one under the other.
fn push_names(alloc: Global, out: &mut String, files: &Files<'_>) -> Result<(), OutOfMemory> {
    for file in [File::Program, File::Property, File::Witness] {
        push_html(alloc, out, files.name(file).as_bytes())?;
        out.push_str("\n")?;
    }
    Ok(())
}

/// A message with its file and its place, in a line.
fn push_item(
    alloc: Global,
    out: &mut String,
    files: &Files<'_>,
    message: &Message,
) -> Result<(), OutOfMemory> {
    push_html(alloc, out, files.name(message.file).as_bytes())?;
    if let Some(spot) = message.spot {
        let line = spot.line;
        let column = spot.column;
        write!(out, ":{line}:{column}")?;
    }
    out.push_str(": ")?;
    push_told(alloc, out, message)?;
    out.push_str("\n")?;
    Ok(())
}

/// The first errors and warnings.
fn push_items(
    alloc: Global,
    out: &mut String,
    files: &Files<'_>,
    messages: &[Message],
) -> Result<(), OutOfMemory> {
    let mut count = 0usize;
    for message in messages {
        if message.level != Level::Note && count < MOST {
            push_item(alloc, out, files, message)?;
            count = count.saturating_add(1);
        }
    }
    Ok(())
}

/// The row of a judgement, by the number of its line.
pub fn list_row(
    alloc: Global,
    files: &Files<'_>,
    number: usize,
    reply: &str,
    status: u8,
    messages: &[Message],
) -> Result<String, OutOfMemory> {
    let status = u32::from(status);
    let mut out = format!(in alloc;
        "<tr id=\"line-{number}\"><td>{number}</td><td>{status}</td><td>"
    )?;
    push_names(alloc, &mut out, files)?;
    out.push_str("</td><td>")?;
    push_reply(alloc, &mut out, reply)?;
    out.push_str("</td><td>")?;
    push_items(alloc, &mut out, files, messages)?;
    out.push_str("</td></tr>\n")?;
    Ok(out)
}
