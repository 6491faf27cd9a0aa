// What the obligations of a certificate are, and of which files.
use c_meaning::{Duty, DutyKind};
use serde_json::{Value, json};
use sha2::{Digest, Sha256};
use std::alloc::Global;
use view_text::{File, Files, escaped_json};
use wv_base::OutOfMemory;

/// A file by its name and its SHA-256.
fn file_value(alloc: Global, files: &Files<'_>, file: File) -> Result<Value, OutOfMemory> {
    let name = files.name(file);
    let digest = Sha256::digest(files.text(file));
    let hash = hex::encode(alloc, digest.as_slice())?;
    Ok(json!(in alloc; { "name": name, "sha256": hash })?)
}

/// The word of a report for a kind.
fn kind_word(kind: DutyKind) -> &'static str {
    match kind {
        DutyKind::Location => "location",
        DutyKind::Entry => "entry",
        DutyKind::Kept => "kept",
        DutyKind::Property => "property",
    }
}

/// An obligation by its number; one about an invariant has that one's number too, from 1 over all sets.
fn duty_value(alloc: Global, number: u32, duty: Duty) -> Result<Value, OutOfMemory> {
    let kind = kind_word(duty.kind);
    let line = duty.spot.line;
    let column = duty.spot.column;
    match duty.invariant {
        Some(index) => {
            let invariant = index.saturating_add(1);
            Ok(json!(in alloc; {
                "column": column,
                "invariant": invariant,
                "kind": kind,
                "line": line,
                "number": number
            })?)
        }
        None => Ok(json!(in alloc; {
            "column": column,
            "kind": kind,
            "line": line,
            "number": number
        })?),
    }
}

fn duty_values(alloc: Global, duties: &[Duty]) -> Result<Vec<Value>, OutOfMemory> {
    let mut values = Vec::new(alloc);
    let mut number = 0u32;
    for duty in duties {
        number = number.saturating_add(1);
        let value = duty_value(alloc, number, *duty)?;
        serde_json::push(&mut values, value)?;
    }
    Ok(values)
}

/// The files and the obligations, as one line of JSON.
pub fn manifest(alloc: Global, files: &Files<'_>, duties: &[Duty]) -> Result<String, OutOfMemory> {
    let program = file_value(alloc, files, File::Program)?;
    let property = file_value(alloc, files, File::Property)?;
    let witness = file_value(alloc, files, File::Witness)?;
    let certificate = file_value(alloc, files, File::Certificate)?;
    let obligations = duty_values(alloc, duties)?;
    let value = json!(in alloc; {
        "certificate": certificate,
        "obligations": obligations,
        "program": program,
        "property": property,
        "witness": witness
    })?;
    let mut line = value.to_string(alloc)?;
    line.push_str("\n")?;
    escaped_json(alloc, line.as_str())
}
