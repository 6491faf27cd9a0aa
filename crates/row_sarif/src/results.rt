// Results, with their code flows.
use crate::fields::{is_index_if, is_text, is_word_if, items_of, number_in, text_in};
use crate::fixes::fixes_lack;
use crate::places::{is_message, location_lacks, locations_lack};
use serde_json::Value;

const LEVELS: [&str; 4] = ["none", "note", "warning", "error"];

const KINDS: [&str; 6] = [
    "notApplicable",
    "pass",
    "fail",
    "review",
    "open",
    "informational",
];

const IMPORTANCES: [&str; 3] = ["important", "essential", "unimportant"];

/// What a step of a thread flow lacks.
fn step_lacks(step: &Value) -> Option<&'static str> {
    if !is_index_if(step.get("executionOrder")) {
        return Some("executionOrder");
    }
    if !is_word_if(step.get("importance"), IMPORTANCES.as_slice()) {
        return Some("importance");
    }
    match step.get("location") {
        Some(location) => location_lacks(location),
        None => Some("threadFlowLocation.location"),
    }
}

/// What the steps of a thread flow lack: there is one at least, and here their order rises.
fn steps_lack(steps: &[Value]) -> Option<&'static str> {
    if steps.is_empty() {
        return Some("threadFlow.locations");
    }
    let mut before = 0u64;
    for step in steps {
        if let Some(member) = step_lacks(step) {
            return Some(member);
        }
        let order = number_in(step.get("executionOrder")).unwrap_or(0);
        if order <= before {
            return Some("an executionOrder that rises");
        }
        before = order;
    }
    None
}

/// What a code flow lacks: here it has one thread flow.
fn flow_lacks(flow: &Value) -> Option<&'static str> {
    let threads = items_of(flow.get("threadFlows"));
    if threads.len() != 1 {
        return Some("codeFlow.threadFlows");
    }
    steps_lack(items_of(flow.pointer("/threadFlows/0/locations")))
}

fn flows_lack(flows: &[Value]) -> Option<&'static str> {
    for flow in flows {
        if let Some(member) = flow_lacks(flow) {
            return Some(member);
        }
    }
    None
}

/// Whether the rule with a result's number has the result's name (3.27.5, 3.27.6).
fn names_rule(found: &Value, rules: &[Value]) -> bool {
    let Some(index) = number_in(found.get("ruleIndex")) else {
        return false;
    };
    match rules.get(index as usize) {
        Some(rule) => text_in(rule.get("id")) == text_in(found.get("ruleId")),
        None => false,
    }
}

/// Whether the level fits the kind: what is no failure has none (3.27.10).
fn has_level(found: &Value) -> bool {
    let is_failure = match found.get("kind") {
        Some(kind) => kind.as_str() == Some("fail"),
        None => true,
    };
    is_failure || text_in(found.get("level")) == "none"
}

/// What the words of a result lack.
fn words_lack(found: &Value, rules: &[Value]) -> Option<&'static str> {
    if !is_message(found.get("message")) {
        return Some("message.text");
    }
    if !is_text(found.get("level")) || !is_word_if(found.get("level"), LEVELS.as_slice()) {
        return Some("level");
    }
    if !is_word_if(found.get("kind"), KINDS.as_slice()) || !has_level(found) {
        return Some("kind");
    }
    if !is_text(found.get("ruleId")) || !names_rule(found, rules) {
        return Some("ruleId, and its rule at ruleIndex");
    }
    None
}

/// What a result lacks.
fn result_lacks(found: &Value, rules: &[Value]) -> Option<&'static str> {
    if let Some(member) = words_lack(found, rules) {
        return Some(member);
    }
    if let Some(member) = locations_lack(found.get("locations"), false) {
        return Some(member);
    }
    if let Some(member) = locations_lack(found.get("relatedLocations"), true) {
        return Some(member);
    }
    if let Some(member) = fixes_lack(found.get("fixes")) {
        return Some(member);
    }
    flows_lack(items_of(found.get("codeFlows")))
}

/// What the results of a run lack.
pub fn results_lack(results: &[Value], rules: &[Value]) -> Option<&'static str> {
    for found in results {
        if let Some(member) = result_lacks(found, rules) {
            return Some(member);
        }
    }
    None
}
