// The witness of a tree.
ghost use Rattle.std.specs.Prelude.{◌≡◌, ◌<◌, IfOk, count_by, is_none, length};
ghost use Rattle.std.specs.List.{list_any};
ghost use Rattle.wv_schema.specs.Shapes.{is_sequence, is_set, are_mixed, has_two_sequences, entries_fault};
ghost use Rattle.wv_schema.specs.Rules.{MeetsSchema};
ghost use Rattle.wv_schema.specs.Schema.{IsAnswer};

use crate::entry::entries_of;
use crate::fault::SchemaFault;
use crate::place::wrong_kind;
use crate::reach::items_of;
use crate::witness::{Content, Entry, Witness};
use std::alloc::Global;
use wv_yaml::Tree;

fn does_violate(entry: &Entry) -> bool
    ensures { result ≡ is_sequence entry.now }
{
    match entry.content {
        Content::Violation(_) => true,
        Content::Invariants(_) => false,
    }
}

fn has_sequence(entries: &[Entry]) -> bool
    ensures { result ≡ list_any is_sequence entries.now }
{
    for entry in entries {
        if does_violate(entry) {
            return true;
        }
    }
    false
}

fn has_set(entries: &[Entry]) -> bool
    ensures { result ≡ list_any is_set entries.now }
{
    for entry in entries {
        if !does_violate(entry) {
            return true;
        }
    }
    false
}

fn count_sequences(entries: &[Entry]) -> usize
    ensures { result ≡ count_by is_sequence entries.now }
{
    let mut sequences: usize = 0;
    for entry in entries {
        if does_violate(entry) {
            sequences += 1;
        }
    }
    sequences
}

fn are_of_both_types(entries: &[Entry]) -> bool
    ensures { result ≡ are_mixed entries.now }
{
    has_sequence(entries) && has_set(entries)
}

fn has_two(entries: &[Entry]) -> bool
    ensures { result ≡ has_two_sequences entries.now }
{
    2 <= count_sequences(entries)
}

/// Whether there is one violation sequence alone, or invariant sets alone.
fn are_fit(entries: &[Entry]) -> bool
    ensures { result ≡ is_none (entries_fault entries.now) }
{
    if entries.is_empty() {
        return false;
    }
    if are_of_both_types(entries) {
        return false;
    }
    !has_two(entries)
}

/// The witness of a tree, or the first rule of the schema that isn't met, with its path.
pub fn witness_of(alloc: Global, tree: &Tree) -> Result<Witness, SchemaFault>
    ensures answer { IsAnswer tree.now result }
    // So `tree_of` may write it again.
    ensures meets { IfOk result MeetsSchema }
    ensures some { IfOk result (λ w. 0 < length w.entries) }
{
    match items_of(tree) {
        None => Err(wrong_kind(alloc, "witness")),
        Some(items) => {
            let entries = entries_of(alloc, items)?;
            if !are_fit(entries.as_slice()) {
                return Err(SchemaFault::Entries);
            }
            Ok(Witness { entries })
        }
    }
}
