// The entries of a witness.
ghost use Rattle.std.specs.Prelude.{◌≡◌, List, [], Bool, codes, map};
ghost use Rattle.std.specs.Option.{option_or};
ghost use Rattle.wv_schema.specs.declared.witness.Content.{Content};
ghost use Rattle.wv_schema.specs.declared.witness.Entry.{Entry};
ghost use Rattle.wv_schema.specs.Paths.{key_place};
ghost use Rattle.wv_schema.specs.Table.{entry_fields};
ghost use Rattle.wv_schema.specs.Judging.{first_fault, items_fault};
ghost use Rattle.wv_schema.specs.Values.{list_at, is_violation, content_by, entry_by, entry_in};
ghost use Rattle.wv_schema.specs.Schema.{Gives, content_fault, entry_fault};

use crate::claim::invariants_of;
use crate::fault::SchemaFault;
use crate::field::{needed_list, needed_str};
use crate::metadata::metadata_of;
use crate::place::{place_of_item, place_of_key, wrong_kind};
use crate::reach::pairs_of;
use crate::rule::TextRule;
use crate::segment::segments_of;
use crate::witness::{Content, Entry};
use std::alloc::Global;
use wv_base::Seq;
use wv_yaml::{Pair, Tree};

#[tactic(auto, unfolding(crate::specs::Schema::content_fault))]
fn content_of(
    alloc: Global,
    at: &str,
    does_violate: bool,
    items: &[Tree],
) -> Result<Content, SchemaFault>
    ensures { Gives (λ (v : Content). v) result (content_fault at.now does_violate items.now)
        (content_by does_violate items.now) }
{
    if does_violate {
        let segments = segments_of(alloc, at, items)?;
        Ok(Content::Violation(segments))
    } else {
        let invariants = invariants_of(alloc, at, items)?;
        Ok(Content::Invariants(invariants))
    }
}

fn entry_in_map(alloc: Global, at: &str, pairs: &[Pair]) -> Result<Entry, SchemaFault>
    ensures { Gives (λ (v : Entry). v) result
        (option_or (first_fault at.now pairs.now entry_fields)
        (content_fault (key_place at.now (codes "content")) (is_violation pairs.now)
        (list_at (codes "content") pairs.now)))
        (entry_by pairs.now) }
{
    let word = needed_str(alloc, at, pairs, "entry_type", TextRule::EntryType)?;
    let does_violate = word == "violation_sequence";
    let metadata = metadata_of(alloc, at, pairs)?;
    let items = needed_list(alloc, at, pairs, "content")?;
    let place = place_of_key(alloc, at, "content")?;
    let content = content_of(alloc, place.as_str(), does_violate, items)?;
    Ok(Entry { metadata, content })
}

fn entry_of(alloc: Global, at: &str, item: &Tree) -> Result<Entry, SchemaFault>
    ensures { Gives (λ (v : Entry). v) result (entry_fault at.now item.now) (entry_in item.now) }
{
    match pairs_of(item) {
        None => Err(wrong_kind(alloc, at)),
        Some(pairs) => entry_in_map(alloc, at, pairs),
    }
}

/// The entries, each judged by itself.
pub fn entries_of(alloc: Global, items: &[Tree]) -> Result<Seq<Entry>, SchemaFault>
    ensures { Gives (λ (v : List Entry). v) result (items_fault entry_fault [] 0 items.now) (map entry_in items.now) }
{
    let mut entries = Seq::new(alloc);
    for (index, item) in items.iter().enumerate() {
        let place = place_of_item(alloc, "", index)?;
        let entry = entry_of(alloc, place.as_str(), item)?;
        entries.push(entry)?;
    }
    Ok(entries)
}
