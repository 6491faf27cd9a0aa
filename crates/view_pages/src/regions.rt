// Where messages stand, as SARIF has it (SARIF 2.1.0 3.29, 3.30): lines and columns from 1, columns in characters, and
// the end behind the last character.
use crate::escaped::{plain_text, reference_to};
use c_core::Spot;
use serde_json::{Value, json};
use std::alloc::Global;
use view_text::{Change, File, Files, Message, extent_of};
use wv_base::OutOfMemory;

/// The files that are judged, with where the lines of each begin.
#[derive(Drop)]
pub struct Sources<'a> {
    files: &'a Files<'a>,
    program: Vec<usize>,
    property: Vec<usize>,
    witness: Vec<usize>,
    certificate: Vec<usize>,
}

/// Where the lines of a text begin.
fn starts_of(alloc: Global, text: &[u8]) -> Result<Vec<usize>, OutOfMemory> {
    let mut starts = Vec::new(alloc);
    starts.push(0usize)?;
    for (at, byte) in text.iter().enumerate() {
        if *byte == b'\n' {
            starts.push(at.saturating_add(1))?;
        }
    }
    Ok(starts)
}

impl<'a> Sources<'a> {
    pub fn new(alloc: Global, files: &'a Files<'a>) -> Result<Sources<'a>, OutOfMemory> {
        Ok(Sources {
            files,
            program: starts_of(alloc, files.text(File::Program))?,
            property: starts_of(alloc, files.text(File::Property))?,
            witness: starts_of(alloc, files.text(File::Witness))?,
            certificate: starts_of(alloc, files.text(File::Certificate))?,
        })
    }

    pub fn name(&self, file: File) -> &'a str {
        self.files.name(file)
    }

    fn starts(&self, file: File) -> &[usize] {
        match file {
            File::Program => self.program.as_slice(),
            File::Property => self.property.as_slice(),
            File::Witness => self.witness.as_slice(),
            File::Certificate => self.certificate.as_slice(),
        }
    }

    /// A line of a file without its end; empty where there is none.
    fn line(&self, file: File, number: u32) -> &'a [u8] {
        let starts = self.starts(file);
        let text = self.files.text(file);
        let next = number as usize;
        let Some(start) = starts.get(next.saturating_sub(1)) else {
            return &[];
        };
        let end = match starts.get(next) {
            Some(next) => next.saturating_sub(1),
            None => text.len(),
        };
        text.get(*start..end).unwrap_or(&[])
    }
}

/// How many characters bytes are.
fn characters(alloc: Global, bytes: &[u8]) -> Result<u64, OutOfMemory> {
    let text = String::from_utf8_lossy(alloc, bytes)?;
    let mut count = 0u64;
    for _ in text.as_str().chars() {
        count = count.saturating_add(1);
    }
    Ok(count)
}

/// The region of so many bytes from a place on, or, of 0, of what stands there.
fn region_value(
    alloc: Global,
    sources: &Sources<'_>,
    file: File,
    spot: Spot,
    width: u32,
) -> Result<Value, OutOfMemory> {
    let line = sources.line(file, spot.line);
    let at = (spot.column as usize).saturating_sub(1).min(line.len());
    let rest = line.get(at..).unwrap_or(&[]);
    let length = match width {
        0 => extent_of(file, rest),
        _ => width as usize,
    };
    let own = rest.get(..length).unwrap_or(rest);
    let start = characters(alloc, line.get(..at).unwrap_or(&[]))?.saturating_add(1);
    let end = characters(alloc, own)?.saturating_add(start);
    let number = spot.line.max(1);
    Ok(json!(in alloc; {
        "endColumn": end,
        "endLine": number,
        "startColumn": start,
        "startLine": number
    })?)
}

/// Where a message stands.
pub fn place_value(
    alloc: Global,
    sources: &Sources<'_>,
    message: &Message,
) -> Result<Value, OutOfMemory> {
    let uri = reference_to(alloc, sources.name(message.file))?;
    match message.spot {
        Some(spot) => {
            let region = region_value(alloc, sources, message.file, spot, message.width)?;
            Ok(json!(in alloc; { "artifactLocation": { "uri": uri }, "region": region })?)
        }
        None => Ok(json!(in alloc; { "artifactLocation": { "uri": uri } })?),
    }
}

/// A text of the witness that is replaced (SARIF 2.1.0 3.57).
fn replacement_value(
    alloc: Global,
    sources: &Sources<'_>,
    change: &Change,
) -> Result<Value, OutOfMemory> {
    let region = region_value(alloc, sources, File::Witness, change.spot, change.width)?;
    let text = plain_text(alloc, change.text.as_str())?;
    Ok(json!(in alloc; { "deletedRegion": region, "insertedContent": { "text": text } })?)
}

/// Changes of the witness that together mend what a result is about (3.55, 3.56).
pub fn fix_value(
    alloc: Global,
    sources: &Sources<'_>,
    changes: &[Change],
) -> Result<Value, OutOfMemory> {
    let mut values = Vec::new(alloc);
    for change in changes {
        let value = replacement_value(alloc, sources, change)?;
        serde_json::push(&mut values, value)?;
    }
    let uri = reference_to(alloc, sources.name(File::Witness))?;
    Ok(json!(in alloc; {
        "artifactChanges": [{ "artifactLocation": { "uri": uri }, "replacements": values }]
    })?)
}
