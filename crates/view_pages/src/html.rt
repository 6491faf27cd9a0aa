// One page: the reply, the messages, and the program and the witness with the messages below their lines.
use crate::escaped::push_html;
use crate::page::{HEAD, REPLY, TAIL};
use c_core::Spot;
use std::alloc::Global;
use view_text::{File, Files, Message, Messages, Reached, by_line, parted_at};
use wv_base::OutOfMemory;

/// What the anchors of a file's lines begin with; the property and a certificate aren't shown.
fn anchor_word(file: File) -> Option<&'static str> {
    match file {
        File::Program => Some("program"),
        File::Witness => Some("witness"),
        File::Property | File::Certificate => None,
    }
}

/// The place of a message, with the line that it leads to.
fn push_spot(out: &mut String, file: File, spot: Spot) -> Result<(), OutOfMemory> {
    let line = spot.line;
    let column = spot.column;
    match anchor_word(file) {
        Some(word) => write!(out, ":<a href=\"#{word}-{line}\">{line}:{column}</a>")?,
        None => write!(out, ":{line}:{column}")?,
    }
    Ok(())
}

/// The lines of a reply.
pub fn push_reply(alloc: Global, out: &mut String, reply: &str) -> Result<(), OutOfMemory> {
    for line in reply.lines() {
        push_html(alloc, out, line.as_bytes())?;
        out.push_str("\n")?;
    }
    Ok(())
}

/// The level, the text and the code of a message.
pub fn push_told(alloc: Global, out: &mut String, message: &Message) -> Result<(), OutOfMemory> {
    let level = message.level.word();
    write!(out, "{level}: ")?;
    push_html(alloc, out, message.text.as_bytes())?;
    if !message.code.is_empty() {
        out.push_str(" [")?;
        push_html(alloc, out, message.code.as_bytes())?;
        out.push_str("]")?;
    }
    Ok(())
}

/// One message of the list above the files.
fn push_item(
    alloc: Global,
    out: &mut String,
    files: &Files<'_>,
    message: &Message,
) -> Result<(), OutOfMemory> {
    out.push_str("<li>")?;
    push_html(alloc, out, files.name(message.file).as_bytes())?;
    if let Some(spot) = message.spot {
        push_spot(out, message.file, spot)?;
    }
    out.push_str(": ")?;
    push_told(alloc, out, message)?;
    out.push_str("</li>\n")?;
    Ok(())
}

fn push_list(
    alloc: Global,
    out: &mut String,
    files: &Files<'_>,
    messages: &[Message],
) -> Result<(), OutOfMemory> {
    out.push_str("<ul>\n")?;
    for message in messages {
        push_item(alloc, out, files, message)?;
    }
    out.push_str("</ul>\n")?;
    Ok(())
}

/// A message below its line.
fn push_note(alloc: Global, out: &mut String, message: &Message) -> Result<(), OutOfMemory> {
    out.push_str("<tr class=\"note\"><td></td><td></td><td>")?;
    if let Some(spot) = message.spot {
        let column = spot.column;
        write!(out, "column {column}, ")?;
    }
    push_told(alloc, out, message)?;
    out.push_str("</td></tr>\n")?;
    Ok(())
}

/// The messages about a line, by their numbers.
fn push_notes(
    alloc: Global,
    out: &mut String,
    places: &[(u32, usize)],
    messages: &[Message],
) -> Result<(), OutOfMemory> {
    for place in places {
        let (_, index) = *place;
        if let Some(message) = messages.get(index) {
            push_note(alloc, out, message)?;
        }
    }
    Ok(())
}

/// How often a line was reached, in gcov's words.
fn push_count(out: &mut String, reached: Reached) -> Result<(), OutOfMemory> {
    match reached {
        Reached::NoStatement => out.push_str("-")?,
        Reached::Times(0) => out.push_str("#####")?,
        Reached::Times(count) => write!(out, "{count}")?,
    }
    Ok(())
}

/// A line with its number and how often it was reached; a line that something is told of stands out.
fn push_line(
    alloc: Global,
    out: &mut String,
    word: &str,
    line: &[u8],
    number: u32,
    reached: Reached,
    is_told: bool,
) -> Result<(), OutOfMemory> {
    let class = if is_told { " class=\"told\"" } else { "" };
    write!(out, "<tr{class} id=\"{word}-{number}\"><td>")?;
    push_count(out, reached)?;
    write!(out, "</td><td>{number}</td><td>")?;
    push_html(alloc, out, line)?;
    out.push_str("</td></tr>\n")?;
    Ok(())
}

/// A text without the end of its last line.
fn without_last_end(text: &[u8]) -> &[u8] {
    match text {
        [front @ .., b'\n'] => front,
        _ => text,
    }
}

/// A file line by line, with how often each was reached and what is told of it.
fn push_lines(
    alloc: Global,
    out: &mut String,
    files: &Files<'_>,
    file: File,
    counts: &[Reached],
    messages: &[Message],
) -> Result<(), OutOfMemory> {
    let places = by_line(alloc, messages, file)?;
    let word = anchor_word(file).unwrap_or("property");
    let mut later = places.as_slice();
    let mut number = 0u32;
    for line in without_last_end(files.text(file)).split(|byte| *byte == b'\n') {
        let reached = counts.get(number as usize).copied();
        let reached = reached.unwrap_or(Reached::NoStatement);
        number = number.saturating_add(1);
        let (here, behind) = parted_at(later, number);
        later = behind;
        push_line(alloc, out, word, line, number, reached, !here.is_empty())?;
        push_notes(alloc, out, here, messages)?;
    }
    Ok(())
}

/// A file under its name.
fn push_file(
    alloc: Global,
    out: &mut String,
    files: &Files<'_>,
    file: File,
    counts: &[Reached],
    messages: &[Message],
) -> Result<(), OutOfMemory> {
    out.push_str("<h2>")?;
    push_html(alloc, out, files.name(file).as_bytes())?;
    out.push_str("</h2>\n<table>\n")?;
    push_lines(alloc, out, files, file, counts, messages)?;
    out.push_str("</table>\n")?;
    Ok(())
}

/// The page of a reply and what is told of it. The column of numbers at the left tells how often the run came to a line
/// of the program.
pub fn page_of(
    alloc: Global,
    files: &Files<'_>,
    reply: &str,
    messages: &Messages,
) -> Result<String, OutOfMemory> {
    let mut out = String::from_str(alloc, HEAD)?;
    out.push_str(REPLY)?;
    push_reply(alloc, &mut out, reply)?;
    out.push_str("</pre>\n")?;
    let told = messages.as_slice();
    push_list(alloc, &mut out, files, told)?;
    let counts = messages.counts();
    push_file(alloc, &mut out, files, File::Program, counts, told)?;
    push_file(alloc, &mut out, files, File::Witness, &[], told)?;
    out.push_str(TAIL)?;
    Ok(out)
}
