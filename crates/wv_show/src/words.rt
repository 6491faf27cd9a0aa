// The words that a witness has for its parts, and texts in quotes.
ghost use Rattle.std.specs.Prelude.{◌≡◌, ◌++◌, OnOk, string_bytes};
ghost use Rattle.wv_schema.specs.Canonical.{content_word, invariant_word, way_word};
ghost use Rattle.wv_yaml.specs.Canon.{quoted_text};

use std::alloc::Global;
use wv_base::{OutOfMemory, Text};
use wv_schema::{Content, InvariantKind, WayKind};
use wv_yaml::quote;

/// The type of an entry, as the format spells it.
pub fn word_of_content(content: &Content) -> &'static str
    ensures { result.now ≡ content_word content.now }
{
    match content {
        Content::Violation(_) => "violation_sequence",
        Content::Invariants(_) => "invariant_set",
    }
}

/// The type of a waypoint, as the format spells it.
pub fn word_of_way(kind: WayKind) -> &'static str
    ensures { result.now ≡ way_word kind }
{
    match kind {
        WayKind::Assumption => "assumption",
        WayKind::Target => "target",
        WayKind::FunctionEnter => "function_enter",
        WayKind::FunctionReturn => "function_return",
        WayKind::Branching => "branching",
    }
}

/// The type of an invariant, as the format spells it.
pub fn word_of_invariant(kind: InvariantKind) -> &'static str
    ensures { result.now ≡ invariant_word kind }
{
    match kind {
        InvariantKind::Loop => "loop_invariant",
        InvariantKind::Location => "location_invariant",
    }
}

/// Appends a text in its canonical quoted form.
pub fn add_quoted(alloc: Global, out: &mut String, text: &Text) -> Result<(), OutOfMemory>
    ensures { OnOk result (string_bytes out.new ≡ string_bytes out.old ++ quoted_text text.now) }
{
    let quoted = quote(alloc, text)?;
    out.push_str(quoted.as_str())?;
    Ok(())
}
