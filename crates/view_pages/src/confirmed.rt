// A confirmation as a result: of a violation the draws and the waypoints along the run as a code flow (SARIF 2.1.0
// 3.36 to 3.38), of invariants the places of the obligations that hold.
use crate::escaped::{logged_text, reference_to};
use crate::regions::{Sources, place_value};
use crate::results::related_value;
use crate::rules::{help_of, index_of};
use serde_json::{Value, json};
use std::alloc::Global;
use view_text::{File, Level, Message};
use wv_base::OutOfMemory;

/// So many places of a confirmation are told.
const MOST: u64 = 1_000;

/// The rule of what a reply confirms, or of the run that it found.
pub fn confirmed_code(reply: &str) -> Option<&'static str> {
    if reply.starts_with("violation confirmed\n") {
        Some("violation")
    } else if reply.starts_with("correctness confirmed\n") {
        Some("correctness")
    } else if reply.starts_with("certificate accepted\n") {
        Some("accepted")
    } else if reply.starts_with("values found\n") {
        Some("found")
    } else {
        None
    }
}

/// A note as a step of the run (3.38).
fn step_value(
    alloc: Global,
    sources: &Sources<'_>,
    number: u64,
    message: &Message,
) -> Result<Value, OutOfMemory> {
    let text = logged_text(alloc, message.text.as_str())?;
    let place = place_value(alloc, sources, message)?;
    Ok(json!(in alloc; {
        "executionOrder": number,
        "location": { "message": { "text": text }, "physicalLocation": place }
    })?)
}

/// The first notes in their order, as steps of the run or as places that belong to a result.
fn note_values(
    alloc: Global,
    sources: &Sources<'_>,
    messages: &[Message],
    is_run: bool,
) -> Result<Vec<Value>, OutOfMemory> {
    let mut values = Vec::new(alloc);
    let mut number = 0u64;
    for message in messages {
        if message.level != Level::Note {
            continue;
        }
        if number >= MOST {
            break;
        }
        number = number.saturating_add(1);
        let value = if is_run {
            step_value(alloc, sources, number, message)?
        } else {
            related_value(alloc, sources, number, message)?
        };
        serde_json::push(&mut values, value)?;
    }
    Ok(values)
}

/// The last note that has a place in the program: of a run the violation.
fn last_note(messages: &[Message]) -> Option<&Message> {
    let mut last = None;
    for message in messages {
        if message.level == Level::Note && message.file == File::Program {
            last = Some(message);
        }
    }
    last
}

/// Where the violation is, or the program.
fn violation_place(
    alloc: Global,
    sources: &Sources<'_>,
    messages: &[Message],
) -> Result<Value, OutOfMemory> {
    match last_note(messages) {
        Some(message) => place_value(alloc, sources, message),
        None => program_place(alloc, sources),
    }
}

fn program_place(alloc: Global, sources: &Sources<'_>) -> Result<Value, OutOfMemory> {
    let uri = reference_to(alloc, sources.name(File::Program))?;
    Ok(json!(in alloc; { "artifactLocation": { "uri": uri } })?)
}

/// A violation: a problem of the program, with the way to it.
fn violation_value(
    alloc: Global,
    sources: &Sources<'_>,
    code: &str,
    index: u64,
    messages: &[Message],
) -> Result<Value, OutOfMemory> {
    let steps = note_values(alloc, sources, messages, true)?;
    let place = violation_place(alloc, sources, messages)?;
    let told = help_of(code);
    Ok(json!(in alloc; {
        "codeFlows": [{ "threadFlows": [{ "locations": steps }] }],
        "kind": "fail",
        "level": "error",
        "locations": [{ "physicalLocation": place }],
        "message": { "text": told },
        "ruleId": code,
        "ruleIndex": index
    })?)
}

/// Obligations that hold: no problem of the program.
fn obligations_value(
    alloc: Global,
    sources: &Sources<'_>,
    code: &str,
    index: u64,
    messages: &[Message],
) -> Result<Value, OutOfMemory> {
    let related = note_values(alloc, sources, messages, false)?;
    let place = program_place(alloc, sources)?;
    let told = help_of(code);
    Ok(json!(in alloc; {
        "kind": "pass",
        "level": "none",
        "locations": [{ "physicalLocation": place }],
        "message": { "text": told },
        "relatedLocations": related,
        "ruleId": code,
        "ruleIndex": index
    })?)
}

/// The result of a confirmation by its rule.
pub fn confirmed_value(
    alloc: Global,
    sources: &Sources<'_>,
    codes: &[&str],
    code: &str,
    messages: &[Message],
) -> Result<Value, OutOfMemory> {
    let index = index_of(codes, code);
    if code == "violation" || code == "found" {
        violation_value(alloc, sources, code, index, messages)
    } else {
        obligations_value(alloc, sources, code, index, messages)
    }
}
