// The metadata of an entry.
ghost use Rattle.std.specs.Prelude.{◌≡◌, ◌∷◌, List, ℕ, codes, is_some, map};
ghost use Rattle.wv_schema.specs.declared.witness.Metadata.{Metadata};
ghost use Rattle.wv_schema.specs.declared.witness.FileHash.{FileHash};
ghost use Rattle.wv_schema.specs.declared.metadata.Producer.{Producer};
ghost use Rattle.wv_schema.specs.declared.metadata.Task.{Task};
ghost use Rattle.wv_schema.specs.Table.{Texts, TextMap, needs, in_map, producer_fields, task_fields, metadata_fields};
ghost use Rattle.wv_schema.specs.declared.fault.SchemaFault.TheVariants.{WrongKind};
ghost use Rattle.wv_schema.specs.Paths.{text_in};
ghost use Rattle.wv_schema.specs.Judging.{row_fault, first_fault, items_fault, no_text_fault, when_not, are_texts};
ghost use Rattle.wv_schema.specs.Values.{list_at, map_at, text_or_empty, hash_in, metadata_in};
ghost use Rattle.wv_schema.specs.Parts.{producer_in, task_in};
ghost use Rattle.wv_schema.specs.Schema.{Gives};

use crate::fault::SchemaFault;
use crate::field::{needed_list, needed_map, needed_text};
use crate::place::{place_of_item, place_of_key, wrong_kind};
use crate::reach::text_of;
use crate::rule::TextRule;
use crate::witness::{FileHash, Metadata};
use std::alloc::Global;
use wv_base::{Seq, Text};
use wv_yaml::{Pair, Tree};

/// The map `producer`.
#[derive(Drop)]
pub struct Producer {
    name: Text,
    version: Text,
}

/// The map `task`.
#[derive(Drop)]
pub struct Task {
    input_files: Seq<Text>,
    input_hashes: Seq<FileHash>,
    specification: Text,
    data_model: Text,
    language: Text,
}

fn producer_fields_of(alloc: Global, at: &str, pairs: &[Pair]) -> Result<Producer, SchemaFault>
    ensures { Gives (λ (p : Producer). p) result (first_fault at.now pairs.now producer_fields)
        (producer_in pairs.now) }
{
    let name = needed_text(alloc, at, pairs, "name", TextRule::Any)?;
    let version = needed_text(alloc, at, pairs, "version", TextRule::Any)?;
    Ok(Producer { name, version })
}

fn producer_of(alloc: Global, at: &str, pairs: &[Pair]) -> Result<Producer, SchemaFault>
    ensures { Gives (λ (p : Producer). p) result
        (first_fault at.now pairs.now (in_map (codes "producer") producer_fields))
        (producer_in (map_at (codes "producer") pairs.now)) }
{
    let inside = needed_map(alloc, at, pairs, "producer")?;
    let place = place_of_key(alloc, at, "producer")?;
    producer_fields_of(alloc, place.as_str(), inside)
}

/// The text that is the item of a list.
fn item_text(alloc: Global, at: &str, item: &Tree) -> Result<Text, SchemaFault>
    ensures { Gives (λ (s : List ℕ). s) result (no_text_fault at.now item.now) (text_or_empty item.now) }
{
    match text_of(item) {
        None => Err(wrong_kind(alloc, at)),
        Some(text) => {
            let copy = Text::of(alloc, text)?;
            Ok(copy)
        }
    }
}

fn item_texts(alloc: Global, at: &str, items: &[Tree]) -> Result<Seq<Text>, SchemaFault>
    ensures { Gives (λ (s : List (List ℕ)). s) result (items_fault no_text_fault at.now 0 items.now)
        (map text_or_empty items.now) }
{
    let mut texts = Seq::new(alloc);
    for (index, item) in items.iter().enumerate() {
        let place = place_of_item(alloc, at, index)?;
        let text = item_text(alloc, place.as_str(), item)?;
        texts.push(text)?;
    }
    Ok(texts)
}

fn input_files_of(alloc: Global, at: &str, pairs: &[Pair]) -> Result<Seq<Text>, SchemaFault>
    ensures { Gives (λ (s : List (List ℕ)). s) result (row_fault at.now pairs.now (needs (codes "input_files") Texts))
        (map text_or_empty (list_at (codes "input_files") pairs.now)) }
{
    let items = needed_list(alloc, at, pairs, "input_files")?;
    let place = place_of_key(alloc, at, "input_files")?;
    item_texts(alloc, place.as_str(), items)
}

/// A file name and its hash; `at` is the place of the whole map.
fn hash_of(alloc: Global, at: &str, pair: &Pair) -> Result<FileHash, SchemaFault>
    ensures { Gives (λ (h : FileHash). h) result (when_not (is_some (text_in pair.now.value)) (WrongKind at.now))
        (hash_in pair.now) }
{
    match text_of(&pair.value) {
        None => Err(wrong_kind(alloc, at)),
        Some(text) => {
            let hash = Text::of(alloc, text)?;
            let file = Text::of(alloc, pair.key.as_str())?;
            Ok(FileHash { file, hash })
        }
    }
}

fn hashes_of(alloc: Global, at: &str, pairs: &[Pair]) -> Result<Seq<FileHash>, SchemaFault>
    ensures { Gives (λ (h : List FileHash). h) result (when_not (are_texts pairs.now) (WrongKind at.now))
        (map hash_in pairs.now) }
{
    let mut hashes = Seq::new(alloc);
    for pair in pairs {
        let hash = hash_of(alloc, at, pair)?;
        hashes.push(hash)?;
    }
    Ok(hashes)
}

fn input_hashes_of(alloc: Global, at: &str, pairs: &[Pair]) -> Result<Seq<FileHash>, SchemaFault>
    ensures { Gives (λ (h : List FileHash). h) result
        (row_fault at.now pairs.now (needs (codes "input_file_hashes") TextMap))
        (map hash_in (map_at (codes "input_file_hashes") pairs.now)) }
{
    let inside = needed_map(alloc, at, pairs, "input_file_hashes")?;
    let place = place_of_key(alloc, at, "input_file_hashes")?;
    hashes_of(alloc, place.as_str(), inside)
}

fn task_fields_of(alloc: Global, at: &str, pairs: &[Pair]) -> Result<Task, SchemaFault>
    ensures { Gives (λ (t : Task). t) result (first_fault at.now pairs.now task_fields) (task_in pairs.now) }
{
    let input_files = input_files_of(alloc, at, pairs)?;
    let input_hashes = input_hashes_of(alloc, at, pairs)?;
    let specification = needed_text(alloc, at, pairs, "specification", TextRule::Any)?;
    let data_model = needed_text(alloc, at, pairs, "data_model", TextRule::Any)?;
    let language = needed_text(alloc, at, pairs, "language", TextRule::Any)?;
    Ok(Task {
        input_files,
        input_hashes,
        specification,
        data_model,
        language,
    })
}

fn task_of(alloc: Global, at: &str, pairs: &[Pair]) -> Result<Task, SchemaFault>
    ensures { Gives (λ (t : Task). t) result (first_fault at.now pairs.now (in_map (codes "task") task_fields))
        (task_in (map_at (codes "task") pairs.now)) }
{
    let inside = needed_map(alloc, at, pairs, "task")?;
    let place = place_of_key(alloc, at, "task")?;
    task_fields_of(alloc, place.as_str(), inside)
}

fn metadata_fields_of(alloc: Global, at: &str, pairs: &[Pair]) -> Result<Metadata, SchemaFault>
    ensures { Gives (λ (m : Metadata). m) result (first_fault at.now pairs.now metadata_fields)
        (metadata_in pairs.now) }
{
    let format_version = needed_text(alloc, at, pairs, "format_version", TextRule::FormatVersion)?;
    let uuid = needed_text(alloc, at, pairs, "uuid", TextRule::Any)?;
    let creation_time = needed_text(alloc, at, pairs, "creation_time", TextRule::Any)?;
    let producer = producer_of(alloc, at, pairs)?;
    let task = task_of(alloc, at, pairs)?;
    Ok(Metadata {
        format_version,
        uuid,
        creation_time,
        producer_name: producer.name,
        producer_version: producer.version,
        input_files: task.input_files,
        input_hashes: task.input_hashes,
        specification: task.specification,
        data_model: task.data_model,
        language: task.language,
    })
}

/// The map `metadata` of an entry.
pub fn metadata_of(alloc: Global, at: &str, pairs: &[Pair]) -> Result<Metadata, SchemaFault>
    ensures { Gives (λ (m : Metadata). m) result
        (first_fault at.now pairs.now (in_map (codes "metadata") metadata_fields))
        (metadata_in (map_at (codes "metadata") pairs.now)) }
{
    let inside = needed_map(alloc, at, pairs, "metadata")?;
    let place = place_of_key(alloc, at, "metadata")?;
    metadata_fields_of(alloc, place.as_str(), inside)
}
