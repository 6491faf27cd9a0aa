// A log, its run, its tool and its rules.
use crate::fields::{are_unique, is_array_if, is_text, is_text_if, is_word_if, items_of, text_in};
use crate::places::is_message;
use crate::results::results_lack;
use serde_json::Value;
use std::alloc::Global;
use wv_base::OutOfMemory;

const COLUMNS: [&str; 2] = ["utf16CodeUnits", "unicodeCodePoints"];

/// Whether a rule's name is one that another rule before it has.
fn is_named_before(rule: &Value, before: &[Value]) -> bool {
    for other in before {
        if text_in(other.get("id")) == text_in(rule.get("id")) {
            return true;
        }
    }
    false
}

/// What a rule lacks.
fn rule_lacks(rule: &Value) -> Option<&'static str> {
    if !is_text(rule.get("id")) {
        return Some("rules[].id");
    }
    if !is_message(rule.get("help")) {
        return Some("rules[].help");
    }
    if !is_message(rule.get("shortDescription")) {
        return Some("rules[].shortDescription");
    }
    None
}

fn rules_lack(rules: &[Value]) -> Option<&'static str> {
    if !are_unique(rules) {
        return Some("rules that differ");
    }
    for (at, rule) in rules.iter().enumerate() {
        if let Some(member) = rule_lacks(rule) {
            return Some(member);
        }
        if is_named_before(rule, rules.get(..at).unwrap_or(&[])) {
            return Some("rules with names that differ");
        }
    }
    None
}

/// What an invocation lacks: a success is one of the tool, and here a status says more.
fn invocation_lacks(invocation: &Value) -> Option<&'static str> {
    match invocation.get("executionSuccessful") {
        Some(value) if value.is_boolean() => {}
        _ => return Some("executionSuccessful"),
    }
    match invocation.get("exitCode") {
        Some(value) if value.is_u64() => None,
        _ => Some("exitCode"),
    }
}

fn invocations_lack(invocations: &[Value]) -> Option<&'static str> {
    for invocation in invocations {
        if let Some(member) = invocation_lacks(invocation) {
            return Some(member);
        }
    }
    None
}

/// What a tool lacks.
fn tool_lacks(run: &Value) -> Option<&'static str> {
    if !is_text(run.pointer("/tool/driver/name")) {
        return Some("tool.driver.name");
    }
    if !is_text_if(run.pointer("/tool/driver/version")) {
        return Some("tool.driver.version");
    }
    if !is_array_if(run.pointer("/tool/driver/rules")) {
        return Some("tool.driver.rules");
    }
    rules_lack(items_of(run.pointer("/tool/driver/rules")))
}

/// What a run lacks.
fn run_lacks(run: &Value) -> Option<&'static str> {
    if let Some(member) = tool_lacks(run) {
        return Some(member);
    }
    if !is_word_if(run.get("columnKind"), COLUMNS.as_slice()) {
        return Some("columnKind");
    }
    if let Some(member) = invocations_lack(items_of(run.get("invocations"))) {
        return Some(member);
    }
    if run.get("results").is_none() || !is_array_if(run.get("results")) {
        return Some("results");
    }
    let rules = items_of(run.pointer("/tool/driver/rules"));
    results_lack(items_of(run.get("results")), rules)
}

/// What a log lacks, which has one run.
fn log_lacks(log: &Value) -> Option<&'static str> {
    match log.get("version") {
        Some(version) if version.as_str() == Some("2.1.0") => {}
        _ => return Some("version"),
    }
    match items_of(log.get("runs")) {
        [run] => run_lacks(run),
        _ => Some("runs"),
    }
}

/// The first rule that a text of a status and a log breaks, by the member that is wrong.
pub fn lacking(alloc: Global, text: &str) -> Result<Option<&'static str>, OutOfMemory> {
    let (_, log) = text.split_once(' ').unwrap_or((text, ""));
    match Value::from_str(alloc, log) {
        Ok(log) => Ok(log_lacks(&log)),
        Err(_) => Ok(Some("JSON")),
    }
}
