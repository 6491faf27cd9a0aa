// What texts have to be.
#![tactic(auto, unfolding(crate::specs::Judging::meets, crate::specs::Judging::broken, crate::specs::Judging::is_count, crate::specs::Values::count_of))]

ghost use Rattle.std.specs.Prelude.{◌≡◌, ◌≤◌, length, true, Some};
ghost use Rattle.std.specs.Str.{all_ascii_digits};
ghost use Rattle.std.specs.Str.Parse.{digits_value};
ghost use Rattle.wv_schema.specs.Table.{Count, waypoint_types, formats, ways};
ghost use Rattle.wv_schema.specs.Judging.{is_among, is_count, meets, broken};
ghost use Rattle.wv_schema.specs.Paths.{key_place};
ghost use Rattle.wv_schema.specs.Values.{count_of};
ghost use Rattle.wv_schema.specs.RuleNames.{rule_of};
ghost use Rattle.wv_schema.specs.Schema.{Fails};

use crate::fault::SchemaFault;
use crate::integer::is_integer;
use crate::place::bad_value;
use std::alloc::Global;

/// The rules of the schema for texts, by the field that has them.
#[derive(Clone, Copy)]
pub enum TextRule {
    Any,
    EntryType,
    FormatVersion,
    WaypointType,
    Action,
    Count,
    Way,
    InvariantType,
    Format,
}

fn is_waypoint_type(text: &str) -> bool
    ensures { result ≡ is_among waypoint_types text.now }
{
    text == "assumption"
        || text == "target"
        || text == "function_enter"
        || text == "function_return"
        || text == "branching"
}

fn is_way_word(text: &str) -> bool
    ensures { result ≡ is_among ways text.now }
{
    text == "true" || text == "false" || text == "default"
}

fn is_format(text: &str) -> bool
    ensures { result ≡ is_among formats text.now }
{
    text == "c_expression" || text == "acsl_expression" || text == "ext_c_expression"
}

/// Whether all bytes are decimal digits.
pub fn are_digits(bytes: &[u8]) -> bool
    ensures { result ≡ all_ascii_digits bytes.now }
{
    for byte in bytes {
        if !byte.is_ascii_digit() {
            return false;
        }
    }
    true
}

/// The number of at most seven digits.
fn number_of(text: &str) -> u32
    requires digits { all_ascii_digits text.now ≡ true }
    requires some { 1 ≤ length text.now }
    requires few { length text.now ≤ 7 }
    ensures { result ≡ digits_value 10 text.now }
{
    match text.parse::<u32>() {
        Ok(number) => number,
        Err(_) => unreachable!(),
    }
}

fn is_count_text(text: &str) -> bool
    ensures { result ≡ is_count text.now }
{
    1 <= text.len() && text.len() <= 7 && are_digits(text.as_bytes()) && 1 <= number_of(text)
}

/// The number of a text that is a line or a column.
pub fn count_in(text: &str) -> u32
    requires { meets Count text.now ≡ true }
    ensures { result ≡ count_of text.now }
{
    number_of(text)
}

/// Whether a text meets a rule.
pub fn is_met(rule: TextRule, text: &str) -> bool
    ensures { result ≡ meets (rule_of rule) text.now }
{
    match rule {
        TextRule::Any => true,
        TextRule::EntryType => text == "violation_sequence" || text == "invariant_set",
        TextRule::FormatVersion => text == "2.0",
        TextRule::WaypointType => is_waypoint_type(text),
        TextRule::Action => text == "follow" || text == "avoid",
        TextRule::Count => is_count_text(text),
        TextRule::Way => is_way_word(text) || is_integer(text),
        TextRule::InvariantType => text == "loop_invariant" || text == "location_invariant",
        TextRule::Format => is_format(text),
    }
}

/// The text at a key doesn't meet its rule.
pub fn unmet(alloc: Global, at: &str, key: &str, rule: TextRule) -> SchemaFault
    ensures { Fails result (Some (broken (rule_of rule) (key_place at.now key.now))) }
{
    match rule {
        TextRule::FormatVersion => SchemaFault::Version,
        _ => bad_value(alloc, at, key),
    }
}
