// What is wrong in a witness that can't be read, or doesn't meet the schema.
use crate::formats::{GRAPHML, is_graphml, other_format, version_rule};
use crate::shape::explain_shape;
use crate::warned::warn_of_unread;
use c_core::Spot;
use std::alloc::Global;
use view_paths::{
    Step, first_bad, is_cut, place_in_value, place_of_path, reached, repeated_at, steps_of,
    stopped_at,
};
use view_text::{File, Messages, advice, spot_at, width_at};
use wv_base::OutOfMemory;
use wv_schema::SchemaFault;
use wv_yaml::{Tree, YamlFault};

/// What is said of a witness that ends before it is whole.
const CUT: &str =
    "the witness ends here, too early: a quote or a bracket is left open, or a value is missing";

/// What is wrong in a text, and the place where that shows.
#[derive(Clone, Copy)]
struct Shown {
    code: &'static str,
    rule: &'static str,
    spot: Spot,
}

fn by_code(code: &'static str, spot: Spot) -> Shown {
    Shown {
        code,
        rule: advice(code),
        spot,
    }
}

/// A text that is outside the grammar.
fn outside_grammar(alloc: Global, text: &[u8]) -> Result<Shown, OutOfMemory> {
    if !is_cut(alloc, text)? {
        return Ok(by_code("yaml-grammar", stopped_at(alloc, text)?));
    }
    Ok(Shown {
        code: "yaml-grammar",
        rule: CUT,
        spot: spot_at(text, text.len()),
    })
}

/// A text that spells no tree.
fn unread(alloc: Global, text: &[u8], fault: YamlFault) -> Result<Shown, OutOfMemory> {
    match fault {
        YamlFault::Bytes => Ok(by_code("yaml-bytes", spot_at(text, first_bad(text)))),
        YamlFault::Grammar => outside_grammar(alloc, text),
        YamlFault::Duplicate => Ok(by_code("yaml-duplicate", repeated_at(alloc, text)?)),
        YamlFault::OutOfMemory => Err(OutOfMemory),
    }
}

/// A document of XML, whose bytes spell no tree that is a witness.
fn explain_graphml(alloc: Global, code: &str, out: &mut Messages) -> Result<(), OutOfMemory> {
    let spot = Spot { line: 1, column: 1 };
    let told = String::from_str(alloc, GRAPHML)?;
    out.error(code, File::Witness, Some(spot), told)
}

/// The code of a text that spells no tree; `yaml-grammar` where memory ran out.
fn yaml_code(fault: YamlFault) -> &'static str {
    match fault {
        YamlFault::Bytes => "yaml-bytes",
        YamlFault::Duplicate => "yaml-duplicate",
        YamlFault::Grammar | YamlFault::OutOfMemory => "yaml-grammar",
    }
}

/// A witness whose bytes spell no tree.
pub fn explain_yaml(
    alloc: Global,
    text: &[u8],
    fault: YamlFault,
    out: &mut Messages,
) -> Result<(), OutOfMemory> {
    if is_graphml(text) {
        return explain_graphml(alloc, yaml_code(fault), out);
    }
    let shown = unread(alloc, text, fault)?;
    let told = String::from_str(alloc, shown.rule)?;
    out.error(shown.code, File::Witness, Some(shown.spot), told)
}

/// What may stand at a path, by its last keys.
fn allowed(path: &str) -> &'static str {
    if path.ends_with("entry_type") {
        "violation_sequence or invariant_set"
    } else if path.ends_with("waypoint.type") {
        "assumption, target, function_enter, function_return or branching"
    } else if path.ends_with("invariant.type") {
        "loop_invariant or location_invariant"
    } else if path.ends_with("action") {
        "follow or avoid"
    } else if path.ends_with(".format") {
        "c_expression, acsl_expression or ext_c_expression"
    } else if path.ends_with("constraint.value") {
        "true or false, the way that the branching takes"
    } else if path.ends_with("line") || path.ends_with("column") {
        "a number of 1 to 7 digits, at least 1"
    } else {
        "one of the values that docs/FORMATS.md lists"
    }
}

/// The kind of value that a path wants.
fn kind_at(path: &str) -> &'static str {
    if path.ends_with("]") || path.ends_with("metadata") || path.ends_with("producer") {
        "a map"
    } else if path.ends_with("task") || path.ends_with("location") || path.ends_with("hashes") {
        "a map"
    } else if path.ends_with("waypoint") || path.ends_with(".invariant") {
        "a map"
    } else if path.ends_with("constraint") {
        "a map"
    } else if path.ends_with("witness") || path.ends_with("content") {
        "a list"
    } else if path.ends_with("segment") || path.ends_with("input_files") {
        "a list"
    } else {
        "a text"
    }
}

/// The steps without the last.
fn parent<'a>(steps: &'a [Step<'a>]) -> &'a [Step<'a>] {
    steps.get(..steps.len().saturating_sub(1)).unwrap_or(&[])
}

fn missing(alloc: Global, text: &[u8], path: &str, out: &mut Messages) -> Result<(), OutOfMemory> {
    let steps = steps_of(alloc, path)?;
    let spot = place_of_path(alloc, text, parent(steps.as_slice()))?;
    let told = format!(in alloc;
        "the key {path} is missing: it belongs in the map that begins here"
    )?;
    out.error("schema-missing", File::Witness, Some(spot), told)
}

fn wrong_kind(
    alloc: Global,
    text: &[u8],
    path: &str,
    out: &mut Messages,
) -> Result<(), OutOfMemory> {
    let steps = if path == "witness" {
        Vec::new(alloc)
    } else {
        steps_of(alloc, path)?
    };
    let spot = place_of_path(alloc, text, steps.as_slice())?;
    if path == "witness" && is_graphml(text) {
        return explain_graphml(alloc, "schema-kind", out);
    }
    let kind = kind_at(path);
    let told = format!(in alloc; "{path} has a value of another kind: it has to be {kind}")?;
    out.error("schema-kind", File::Witness, Some(spot), told)
}

/// The text at a path, where one stands there.
fn text_at<'t>(tree: &'t Tree, steps: &[Step<'_>]) -> &'t str {
    match reached(tree, steps) {
        Some(Tree::Text(text)) => text.as_str(),
        _ => "",
    }
}

fn bad_value(
    alloc: Global,
    text: &[u8],
    tree: &Tree,
    path: &str,
    out: &mut Messages,
) -> Result<(), OutOfMemory> {
    let steps = steps_of(alloc, path)?;
    let stands = text_at(tree, steps.as_slice());
    let spot = place_in_value(alloc, text, steps.as_slice(), stands, 0)?;
    let may = allowed(path);
    let of = other_format(stands);
    let told = format!(in alloc; "{path} is `{stands}`{of}: it has to be {may}")?;
    out.error("schema-value", File::Witness, Some(spot), told)?;
    out.mark(width_at(text, spot, stands));
    Ok(())
}

/// The first entry that states another version than 2.0.
fn other_version(tree: &Tree) -> usize {
    let Tree::List(items) = tree else {
        return 0;
    };
    for (index, item) in items.as_slice().iter().enumerate() {
        let steps = [Step::Key("metadata"), Step::Key("format_version")];
        if text_at(item, &steps) != "2.0" {
            return index;
        }
    }
    0
}

fn version(alloc: Global, text: &[u8], tree: &Tree, out: &mut Messages) -> Result<(), OutOfMemory> {
    let steps = [
        Step::Item(other_version(tree)),
        Step::Key("metadata"),
        Step::Key("format_version"),
    ];
    let stands = text_at(tree, &steps);
    let spot = place_in_value(alloc, text, &steps, stands, 0)?;
    let rule = version_rule(stands);
    let told = format!(in alloc; "the version of the format is `{stands}`: {rule}")?;
    out.error("schema-version", File::Witness, Some(spot), told)?;
    out.mark(width_at(text, spot, stands));
    Ok(())
}

/// The first entry that is a violation sequence.
fn first_sequence(tree: &Tree) -> usize {
    let Tree::List(items) = tree else {
        return 0;
    };
    for (index, item) in items.as_slice().iter().enumerate() {
        if text_at(item, &[Step::Key("entry_type")]) == "violation_sequence" {
            return index;
        }
    }
    0
}

/// What there is to say of a fault of the schema.
fn explain_fault(
    alloc: Global,
    text: &[u8],
    tree: &Tree,
    fault: &SchemaFault,
    out: &mut Messages,
) -> Result<(), OutOfMemory> {
    match fault {
        SchemaFault::Missing(path) => missing(alloc, text, path.as_str(), out),
        SchemaFault::WrongKind(path) => wrong_kind(alloc, text, path.as_str(), out),
        SchemaFault::BadValue(path) => bad_value(alloc, text, tree, path.as_str(), out),
        SchemaFault::Version => version(alloc, text, tree, out),
        SchemaFault::Shape(number) => {
            explain_shape(alloc, text, tree, first_sequence(tree), *number, out)
        }
        SchemaFault::Entries => {
            let spot = Spot { line: 1, column: 1 };
            let told = String::from_str(alloc, advice("schema-entries"))?;
            out.error("schema-entries", File::Witness, Some(spot), told)
        }
        SchemaFault::OutOfMemory => Err(OutOfMemory),
    }
}

/// A tree that is no witness: the path, its place, and what may stand there; and the keys that aren't read.
pub fn explain_schema(
    alloc: Global,
    text: &[u8],
    tree: &Tree,
    fault: &SchemaFault,
    out: &mut Messages,
) -> Result<(), OutOfMemory> {
    explain_fault(alloc, text, tree, fault, out)?;
    warn_of_unread(alloc, text, tree, out)
}
