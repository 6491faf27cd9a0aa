// The results of a SARIF log (SARIF 2.1.0 3.27): each error or warning, with the notes behind it as related places.
use crate::escaped::logged_text;
use crate::regions::{Sources, fix_value, place_value};
use crate::rules::index_of;
use serde_json::{Value, json};
use std::alloc::Global;
use view_text::{Level, Message};
use wv_base::OutOfMemory;

/// A note as a place that belongs to a result. Its number parts it from each other one (3.27.22, 3.28.2).
pub fn related_value(
    alloc: Global,
    sources: &Sources<'_>,
    number: u64,
    message: &Message,
) -> Result<Value, OutOfMemory> {
    let text = logged_text(alloc, message.text.as_str())?;
    let place = place_value(alloc, sources, message)?;
    Ok(json!(in alloc; { "id": number, "message": { "text": text }, "physicalLocation": place })?)
}

/// The notes that stand directly behind a message.
fn related_values(
    alloc: Global,
    sources: &Sources<'_>,
    behind: &[Message],
) -> Result<Vec<Value>, OutOfMemory> {
    let mut values = Vec::new(alloc);
    let mut number = 0u64;
    for message in behind {
        if message.level != Level::Note {
            break;
        }
        number = number.saturating_add(1);
        let value = related_value(alloc, sources, number, message)?;
        serde_json::push(&mut values, value)?;
    }
    Ok(values)
}

/// The changes that mend what a message is about, where they are known.
fn fix_values(
    alloc: Global,
    sources: &Sources<'_>,
    message: &Message,
) -> Result<Vec<Value>, OutOfMemory> {
    let mut values = Vec::new(alloc);
    if message.changes.len() > 0 {
        let value = fix_value(alloc, sources, message.changes.as_slice())?;
        serde_json::push(&mut values, value)?;
    }
    Ok(values)
}

fn result_value(
    alloc: Global,
    sources: &Sources<'_>,
    codes: &[&str],
    message: &Message,
    behind: &[Message],
) -> Result<Value, OutOfMemory> {
    let text = logged_text(alloc, message.text.as_str())?;
    let place = place_value(alloc, sources, message)?;
    let related = related_values(alloc, sources, behind)?;
    let fixes = fix_values(alloc, sources, message)?;
    let level = message.level.word();
    let code = message.code.as_str();
    let index = index_of(codes, code);
    Ok(json!(in alloc; {
        "fixes": fixes,
        "level": level,
        "locations": [{ "physicalLocation": place }],
        "message": { "text": text },
        "relatedLocations": related,
        "ruleId": code,
        "ruleIndex": index
    })?)
}

/// Appends the results of messages. A confirmation has only such as warn of what isn't read.
pub fn push_results(
    alloc: Global,
    values: &mut Vec<Value>,
    sources: &Sources<'_>,
    codes: &[&str],
    is_confirmed: bool,
    messages: &[Message],
) -> Result<(), OutOfMemory> {
    for (at, message) in messages.iter().enumerate() {
        if message.level == Level::Note {
            continue;
        }
        let behind = if is_confirmed {
            &[]
        } else {
            messages.get(at.saturating_add(1)..).unwrap_or(&[])
        };
        let value = result_value(alloc, sources, codes, message, behind)?;
        serde_json::push(values, value)?;
    }
    Ok(())
}
