// Programs and witnesses of rows: files of `data/`, and what a row adds to them.
use crate::table::{NotTried, Row};
use crate::trial::Files;
use std::alloc::Global;
use wv_base::OutOfMemory;

/// Files one behind another.
fn read_each(files: &Files<'_>, names: &str) -> Result<String, NotTried> {
    let mut text = String::new(files.alloc());
    for name in names.split_whitespace() {
        text.push_str(files.file(name)?.as_str())?;
    }
    Ok(text)
}

/// A row's program: files, and behind them its own lines.
pub fn program(files: &Files<'_>, row: &Row) -> Result<Option<Vec<u8>>, NotTried> {
    let names = row.text("program")?;
    let source = row.bytes("source");
    if names.is_none() && source.is_none() {
        return Ok(None);
    }
    let files = read_each(files, names.unwrap_or(""))?;
    let mut bytes = files.into_bytes();
    bytes.extend_from_slice(source.unwrap_or(b""))?;
    Ok(Some(bytes))
}

/// A row's certificate: files, and behind them its own lines.
pub fn certificate(files: &Files<'_>, row: &Row) -> Result<Option<Vec<u8>>, NotTried> {
    let names = row.text("certificate")?;
    let text = row.bytes("text");
    if names.is_none() && text.is_none() {
        return Ok(None);
    }
    let files = read_each(files, names.unwrap_or(""))?;
    let mut bytes = files.into_bytes();
    bytes.extend_from_slice(text.unwrap_or(b""))?;
    Ok(Some(bytes))
}

/// The text with the first of a part in it replaced.
fn replaced(alloc: Global, text: &str, old: &str, new: &str) -> Result<String, NotTried> {
    match text.split_once(old) {
        Some((front, behind)) => Ok(format!(in alloc; "{front}{new}{behind}")?),
        None => Err(NotTried::Lacks("what is to be replaced")),
    }
}

/// The text after edits: each part before a bar is replaced by the part behind it.
fn edited(alloc: Global, text: String, edits: &str) -> Result<String, NotTried> {
    let mut text = text;
    let mut old = None;
    for part in edits.split(" | ") {
        match old {
            None => old = Some(part),
            Some(first) => {
                text = replaced(alloc, text.as_str(), first, part)?;
                old = None;
            }
        }
    }
    Ok(text)
}

/// The first lines of a text, as many as a row wants.
fn first_lines(alloc: Global, text: &str, count: &str) -> Result<String, NotTried> {
    let Ok(count) = count.parse::<usize>() else {
        return Err(NotTried::Lacks("a number of lines"));
    };
    let mut front = String::new(alloc);
    for line in text.lines().take(count) {
        front.push_str(line)?;
        front.push_str("\n")?;
    }
    Ok(front)
}

/// What stands before a blank, and behind it.
fn parted(text: &str) -> (&str, &str) {
    text.split_once(' ').unwrap_or((text, ""))
}

/// A text between single quotes, in which each single quote stands twice (YAML 1.2.2 7.3.2).
fn quoted(alloc: Global, text: &str) -> Result<String, OutOfMemory> {
    let mut out = String::from_str(alloc, "'")?;
    for (index, part) in text.split('\'').enumerate() {
        if index > 0 {
            out.push_str("''")?;
        }
        out.push_str(part)?;
    }
    out.push_str("'")?;
    Ok(out)
}

/// A waypoint in YAML, of its action, its type, its place and the value of its constraint.
fn waypoint(alloc: Global, text: &str) -> Result<String, OutOfMemory> {
    let (action, rest) = parted(text);
    let (kind, rest) = parted(rest);
    let (place, value) = parted(rest);
    let location = match place.split_once(':') {
        Some((line, column)) => format!(in alloc; "line: {line}, column: {column}")?,
        None => format!(in alloc; "line: {place}")?,
    };
    let constraint = if value.is_empty() {
        String::new(alloc)
    } else {
        let value = quoted(alloc, value)?;
        format!(in alloc; ", constraint: {{value: {value}}}")?
    };
    Ok(format!(in alloc;
        "{{waypoint: {{type: {kind}, action: {action}, location: {{{location}}}{constraint}}}}}"
    )?)
}

/// One segment in YAML, of waypoints between semicolons. A dash is a segment without waypoints.
fn push_segment(alloc: Global, out: &mut String, segment: &str) -> Result<(), OutOfMemory> {
    if segment.trim() == "-" {
        out.push_str("    - segment: []\n")?;
        return Ok(());
    }
    out.push_str("    - segment:\n")?;
    for point in segment.split(';') {
        out.push_str("        - ")?;
        out.push_str(waypoint(alloc, point.trim())?.as_str())?;
        out.push_str("\n")?;
    }
    Ok(())
}

/// Segments between the words `then`.
fn push_segments(alloc: Global, out: &mut String, segments: &str) -> Result<(), OutOfMemory> {
    if segments.is_empty() {
        out.push_str("    []\n")?;
        return Ok(());
    }
    for segment in segments.split(" then ") {
        push_segment(alloc, out, segment)?;
    }
    Ok(())
}

/// A row's witness: files with what is replaced in them, or their first lines, and its segments and own lines.
pub fn witness(files: &Files<'_>, row: &Row) -> Result<Option<Vec<u8>>, NotTried> {
    let alloc = files.alloc();
    let names = row.text("witness")?;
    let yaml = row.bytes("yaml");
    if names.is_none() && yaml.is_none() {
        return Ok(None);
    }
    let mut text = read_each(files, names.unwrap_or(""))?;
    if let Some(hash) = row.text("hash")? {
        text = replaced(alloc, text.as_str(), "HASH", hash)?;
    }
    if let Some(formula) = row.text("formula")? {
        text = replaced(alloc, text.as_str(), "FORMULA", formula)?;
    }
    text = edited(alloc, text, row.text("edits")?.unwrap_or(""))?;
    if let Some(count) = row.text("lines")? {
        text = first_lines(alloc, text.as_str(), count)?;
    }
    if let Some(segments) = row.text("segments")? {
        push_segments(alloc, &mut text, segments)?;
    }
    let mut bytes = text.into_bytes();
    bytes.extend_from_slice(yaml.unwrap_or(b""))?;
    Ok(Some(bytes))
}
