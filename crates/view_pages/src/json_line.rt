// A judgement as one line of JSON: the members that a list's line has, and the messages.
use crate::escaped::plain_text;
use c_core::Spot;
use serde_json::{Value, json};
use std::alloc::Global;
use view_text::{File, Files, Message};
use wv_base::OutOfMemory;

/// A message at a place of a file; its column counts bytes, as in the messages that are printed.
fn placed_value(
    alloc: Global,
    name: &str,
    message: &Message,
    spot: Spot,
) -> Result<Value, OutOfMemory> {
    let text = plain_text(alloc, message.text.as_str())?;
    let code = message.code.as_str();
    let level = message.level.word();
    let line = spot.line;
    let column = spot.column;
    Ok(json!(in alloc; {
        "code": code,
        "column": column,
        "file": name,
        "level": level,
        "line": line,
        "text": text
    })?)
}

/// A message about a whole file.
fn unplaced_value(alloc: Global, name: &str, message: &Message) -> Result<Value, OutOfMemory> {
    let text = plain_text(alloc, message.text.as_str())?;
    let code = message.code.as_str();
    let level = message.level.word();
    Ok(json!(in alloc; { "code": code, "file": name, "level": level, "text": text })?)
}

fn message_value(
    alloc: Global,
    files: &Files<'_>,
    message: &Message,
) -> Result<Value, OutOfMemory> {
    let name = files.name(message.file);
    match message.spot {
        Some(spot) => placed_value(alloc, name, message, spot),
        None => unplaced_value(alloc, name, message),
    }
}

fn message_values(
    alloc: Global,
    files: &Files<'_>,
    messages: &[Message],
) -> Result<Vec<Value>, OutOfMemory> {
    let mut values = Vec::new(alloc);
    for message in messages {
        let value = message_value(alloc, files, message)?;
        serde_json::push(&mut values, value)?;
    }
    Ok(values)
}

/// A judgement as one compact line. A note belongs to the message before it, and its code is empty.
pub fn json_of(
    alloc: Global,
    files: &Files<'_>,
    reply: &str,
    status: u8,
    messages: &[Message],
) -> Result<String, OutOfMemory> {
    let values = message_values(alloc, files, messages)?;
    let status = u32::from(status);
    let program = files.name(File::Program);
    let property = files.name(File::Property);
    let witness = files.name(File::Witness);
    let line = json!(in alloc; {
        "messages": values,
        "program": program,
        "property": property,
        "reply": reply,
        "status": status,
        "witness": witness
    })?;
    let mut text = line.to_string(alloc)?;
    text.push_str("\n")?;
    Ok(text)
}
