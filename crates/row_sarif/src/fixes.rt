// Fixes: what is replaced in which artifact.
use crate::fields::{are_unique, is_array_if, is_text, items_of};
use crate::places::{artifact_lacks, is_ordered};
use serde_json::Value;

/// What a replacement lacks: it has to say what is deleted (3.57.3), and here what is put there.
fn replacement_lacks(replacement: &Value) -> Option<&'static str> {
    match replacement.get("deletedRegion") {
        Some(region) if is_ordered(region) => {}
        _ => return Some("an ordered deletedRegion"),
    }
    if is_text(replacement.pointer("/insertedContent/text")) {
        None
    } else {
        Some("insertedContent.text")
    }
}

/// What a change of an artifact lacks: it has a replacement at least (3.56.3).
fn change_lacks(change: &Value) -> Option<&'static str> {
    if let Some(member) = artifact_lacks(change) {
        return Some(member);
    }
    let replacements = items_of(change.get("replacements"));
    if replacements.is_empty() {
        return Some("replacements");
    }
    for replacement in replacements {
        if let Some(member) = replacement_lacks(replacement) {
            return Some(member);
        }
    }
    None
}

/// What a fix lacks: it changes an artifact at least (3.55.3).
fn fix_lacks(fix: &Value) -> Option<&'static str> {
    let changes = items_of(fix.get("artifactChanges"));
    if changes.is_empty() || !are_unique(changes) {
        return Some("artifactChanges that differ");
    }
    for change in changes {
        if let Some(member) = change_lacks(change) {
            return Some(member);
        }
    }
    None
}

/// What the fixes of a result lack.
pub fn fixes_lack(value: Option<&Value>) -> Option<&'static str> {
    if !is_array_if(value) {
        return Some("an array of fixes");
    }
    let fixes = items_of(value);
    if !are_unique(fixes) {
        return Some("fixes that differ");
    }
    for fix in fixes {
        if let Some(member) = fix_lacks(fix) {
            return Some(member);
        }
    }
    None
}
