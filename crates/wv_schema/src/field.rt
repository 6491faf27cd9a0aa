// Single fields of a map.
#![tactic(auto, unfolding(crate::specs::Judging::row_fault, crate::specs::Paths::map_of, crate::specs::Values::text_at, crate::specs::Values::text_if, crate::specs::Values::list_at, crate::specs::Values::map_at))]

ghost use Rattle.std.specs.Prelude.{◌≡◌, List, ℕ, Option, Some, IfOk, IfSome, true, option_map};
ghost use Rattle.std.specs.Option.{option_copied};
ghost use Rattle.wv_yaml.specs.declared.tree.Pair.{Pair};
ghost use Rattle.wv_yaml.specs.declared.tree.Tree.{Tree};
ghost use Rattle.wv_schema.specs.Paths.{map_of};
ghost use Rattle.wv_schema.specs.Table.{AText, AList, AMap, Count, needs, may_have};
ghost use Rattle.wv_schema.specs.Judging.{row_fault, meets};
ghost use Rattle.wv_schema.specs.Values.{text_at, text_if, list_at, map_at, count_of};
ghost use Rattle.wv_schema.specs.RuleNames.{rule_of};
ghost use Rattle.wv_schema.specs.Schema.{Gives};

use crate::fault::SchemaFault;
use crate::place::{missing, wrong_kind_at};
use crate::reach::{find, items_of, pairs_of, text_of};
use crate::rule::{TextRule, count_in, is_met, unmet};
use std::alloc::Global;
use wv_base::Text;
use wv_yaml::{Pair, Tree};

/// A text that is needed, where it stands.
pub fn needed_str<'a>(
    alloc: Global,
    at: &str,
    pairs: &'a [Pair],
    key: &str,
    rule: TextRule,
) -> Result<&'a str, SchemaFault>
    ensures field { Gives (λ s. s.now) result (row_fault at.now pairs.now (needs key.now (AText (rule_of rule))))
        (text_at key.now pairs.now) }
    ensures met { IfOk result (λ s. meets (rule_of rule) s.now ≡ true) }
{
    match find(pairs, key) {
        None => Err(missing(alloc, at, key)),
        Some(tree) => match text_of(tree) {
            None => Err(wrong_kind_at(alloc, at, key)),
            Some(text) => {
                if is_met(rule, text) {
                    Ok(text)
                } else {
                    Err(unmet(alloc, at, key, rule))
                }
            }
        },
    }
}

/// A text that may be absent, where it stands.
pub fn optional_str<'a>(
    alloc: Global,
    at: &str,
    pairs: &'a [Pair],
    key: &str,
    rule: TextRule,
) -> Result<Option<&'a str>, SchemaFault>
    ensures field { Gives (λ s. option_copied s) result
        (row_fault at.now pairs.now (may_have key.now (AText (rule_of rule)))) (text_if key.now pairs.now) }
    ensures met { IfOk result (λ s. IfSome s (λ text. meets (rule_of rule) text.now ≡ true)) }
{
    match find(pairs, key) {
        None => Ok(None),
        Some(tree) => match text_of(tree) {
            None => Err(wrong_kind_at(alloc, at, key)),
            Some(text) => {
                if is_met(rule, text) {
                    Ok(Some(text))
                } else {
                    Err(unmet(alloc, at, key, rule))
                }
            }
        },
    }
}

/// A text that is needed.
pub fn needed_text(
    alloc: Global,
    at: &str,
    pairs: &[Pair],
    key: &str,
    rule: TextRule,
) -> Result<Text, SchemaFault>
    ensures { Gives (λ (s : List ℕ). s) result (row_fault at.now pairs.now (needs key.now (AText (rule_of rule))))
        (text_at key.now pairs.now) }
{
    let text = needed_str(alloc, at, pairs, key, rule)?;
    let copy = Text::of(alloc, text)?;
    Ok(copy)
}

/// A text that may be absent.
pub fn optional_text(
    alloc: Global,
    at: &str,
    pairs: &[Pair],
    key: &str,
    rule: TextRule,
) -> Result<Option<Text>, SchemaFault>
    ensures { Gives (λ (s : Option (List ℕ)). s) result
        (row_fault at.now pairs.now (may_have key.now (AText (rule_of rule)))) (text_if key.now pairs.now) }
{
    match optional_str(alloc, at, pairs, key, rule)? {
        None => Ok(None),
        Some(text) => {
            let copy = Text::of(alloc, text)?;
            Ok(Some(copy))
        }
    }
}

/// A list that is needed.
pub fn needed_list<'a>(
    alloc: Global,
    at: &str,
    pairs: &'a [Pair],
    key: &str,
) -> Result<&'a [Tree], SchemaFault>
    ensures { Gives (λ s. s.now) result (row_fault at.now pairs.now (needs key.now AList)) (list_at key.now pairs.now) }
{
    match find(pairs, key) {
        None => Err(missing(alloc, at, key)),
        Some(tree) => match items_of(tree) {
            None => Err(wrong_kind_at(alloc, at, key)),
            Some(items) => Ok(items),
        },
    }
}

/// A map that is needed.
pub fn needed_map<'a>(
    alloc: Global,
    at: &str,
    pairs: &'a [Pair],
    key: &str,
) -> Result<&'a [Pair], SchemaFault>
    ensures field { Gives (λ s. s.now) result (row_fault at.now pairs.now (needs key.now AMap))
        (map_at key.now pairs.now) }
    ensures there { IfOk result (λ s. map_of key.now pairs.now ≡ Some s.now) }
{
    match find(pairs, key) {
        None => Err(missing(alloc, at, key)),
        Some(tree) => match pairs_of(tree) {
            None => Err(wrong_kind_at(alloc, at, key)),
            Some(inside) => Ok(inside),
        },
    }
}

/// A map that may be absent.
pub fn optional_map<'a>(
    alloc: Global,
    at: &str,
    pairs: &'a [Pair],
    key: &str,
) -> Result<Option<&'a [Pair]>, SchemaFault>
    ensures { Gives (λ s. option_copied s) result (row_fault at.now pairs.now (may_have key.now AMap))
        (map_of key.now pairs.now) }
{
    match find(pairs, key) {
        None => Ok(None),
        Some(tree) => match pairs_of(tree) {
            None => Err(wrong_kind_at(alloc, at, key)),
            Some(inside) => Ok(Some(inside)),
        },
    }
}

/// A line or a column that is needed.
pub fn needed_count(alloc: Global, at: &str, pairs: &[Pair], key: &str) -> Result<u32, SchemaFault>
    ensures { Gives (λ (n : ℕ). n) result (row_fault at.now pairs.now (needs key.now (AText Count)))
        (count_of (text_at key.now pairs.now)) }
{
    let text = needed_str(alloc, at, pairs, key, TextRule::Count)?;
    let number = count_in(text);
    Ok(number)
}

/// A line or a column that may be absent.
pub fn optional_count(
    alloc: Global,
    at: &str,
    pairs: &[Pair],
    key: &str,
) -> Result<Option<u32>, SchemaFault>
    ensures { Gives (λ (n : Option ℕ). n) result (row_fault at.now pairs.now (may_have key.now (AText Count)))
        (option_map count_of (text_if key.now pairs.now)) }
{
    match optional_str(alloc, at, pairs, key, TextRule::Count)? {
        None => Ok(None),
        Some(text) => {
            let number = count_in(text);
            Ok(Some(number))
        }
    }
}
