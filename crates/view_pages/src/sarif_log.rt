// A SARIF log (SARIF 2.1.0 3.13).
use crate::confirmed::{confirmed_code, confirmed_value};
use crate::regions::Sources;
use crate::results::push_results;
use crate::rules::{codes_of, rules_of};
use serde_json::{Value, json};
use std::alloc::Global;
use view_text::{Files, Message};
use wv_base::OutOfMemory;

/// The version of the program: that of `release/VERSION`, which `tools/check-documents` compares.
const VERSION: &str = "0.19";

/// From this status on the files weren't judged: one can't be read.
const UNREAD: u32 = 4;

/// The results: that of a confirmation, then those of messages.
fn results_of(
    alloc: Global,
    sources: &Sources<'_>,
    codes: &[&str],
    confirmed: Option<&str>,
    messages: &[Message],
) -> Result<Vec<Value>, OutOfMemory> {
    let mut values = Vec::new(alloc);
    if let Some(code) = confirmed {
        let value = confirmed_value(alloc, sources, codes, code, messages)?;
        serde_json::push(&mut values, value)?;
    }
    let is_confirmed = confirmed.is_some();
    push_results(alloc, &mut values, sources, codes, is_confirmed, messages)?;
    Ok(values)
}

/// Messages as one SARIF log, compact, with a line feed at its end. The reply of the validator is its run's property
/// `reply`.
pub fn log_of(
    alloc: Global,
    files: &Files<'_>,
    reply: &str,
    status: u8,
    messages: &[Message],
) -> Result<String, OutOfMemory> {
    let confirmed = confirmed_code(reply);
    let codes = codes_of(alloc, confirmed, messages)?;
    let sources = Sources::new(alloc, files)?;
    let results = results_of(alloc, &sources, codes.as_slice(), confirmed, messages)?;
    let rules = rules_of(alloc, codes.as_slice())?;
    let status = u32::from(status);
    let is_judged = status < UNREAD;
    let log = json!(in alloc; {
        "$schema": "https://json.schemastore.org/sarif-2.1.0.json",
        "runs": [{
            "columnKind": "unicodeCodePoints",
            "invocations": [{ "executionSuccessful": is_judged, "exitCode": status }],
            "properties": { "reply": reply, "status": status },
            "results": results,
            "tool": { "driver": { "name": "witval-view", "rules": rules, "version": VERSION } }
        }],
        "version": "2.1.0"
    })?;
    let mut text = log.to_string(alloc)?;
    text.push_str("\n")?;
    Ok(text)
}
