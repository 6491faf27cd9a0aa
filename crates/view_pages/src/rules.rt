// The rules that results name (SARIF 2.1.0 3.49), each with its help.
use serde_json::{Value, json};
use std::alloc::Global;
use view_text::{Level, Message, advice};
use wv_base::OutOfMemory;

/// What a rule says, by its code.
pub fn help_of(code: &str) -> &'static str {
    match code {
        "place" =>
            "a waypoint or an invariant names a place at which nothing of its kind stands: lines and columns count from 1, columns in bytes",
        "expression" =>
            "the text of a constraint or of an invariant is no expression of C that is read there, or its types don't fit",
        "scope" =>
            "a constraint or an invariant names what isn't visible at its place: objects are visible from the statement behind their declaration on",
        "certificate" => "a line of the certificate isn't what has to stand there",
        "violation" =>
            "the run that the witness gives violates the property and passes the segments in their order: the witness is confirmed",
        "found" =>
            "values were found with which a run within the bound violates the property and passes the segments in their order",
        "correctness" =>
            "all obligations of the invariants hold, and the program can't violate the property: the witness is confirmed",
        "accepted" =>
            "the certificate is one of all obligations of the witness, and each of its logs holds",
        _ => advice(code),
    }
}

/// The codes of the results in their order, each once: that of a confirmation, then those of messages.
pub fn codes_of<'a>(
    alloc: Global,
    confirmed: Option<&'a str>,
    messages: &'a [Message],
) -> Result<Vec<&'a str>, OutOfMemory> {
    let mut codes: Vec<&str> = Vec::new(alloc);
    if let Some(code) = confirmed {
        codes.push(code)?;
    }
    for message in messages {
        let code = message.code.as_str();
        if message.level != Level::Note && !codes.as_slice().contains(&code) {
            codes.push(code)?;
        }
    }
    Ok(codes)
}

/// The number of a code among the rules, from 0.
pub fn index_of(codes: &[&str], code: &str) -> u64 {
    let mut index = 0u64;
    for other in codes {
        if *other == code {
            return index;
        }
        index = index.saturating_add(1);
    }
    0
}

fn rule_value(alloc: Global, code: &str) -> Result<Value, OutOfMemory> {
    let rule = help_of(code);
    Ok(json!(in alloc; {
        "help": { "text": rule },
        "id": code,
        "shortDescription": { "text": rule }
    })?)
}

/// The rules by their codes.
pub fn rules_of(alloc: Global, codes: &[&str]) -> Result<Vec<Value>, OutOfMemory> {
    let mut values = Vec::new(alloc);
    for code in codes {
        let value = rule_value(alloc, *code)?;
        serde_json::push(&mut values, value)?;
    }
    Ok(values)
}
