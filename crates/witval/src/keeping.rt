// A copy of a witness with some of its invariants.
ghost use Rattle.std.specs.Prelude.{◌≡◌, ◌+◌, ◌∷◌, ◌++◌, [], IfOk, OnOk, cond};
ghost use Rattle.c_core.specs.Scope.{is_in};
ghost use Rattle.witval.specs.Weeding.{claims_of, kept_claims, kept_entries, kept_entry, kept_from, kept_in};

use std::alloc::Global;
use wv_base::{OutOfMemory, Seq, Text};
use wv_schema::{Content, Entry, FileHash, Invariant, Location, Metadata, Witness};

fn copy_text(alloc: Global, text: &Text) -> Result<Text, OutOfMemory>
    ensures { IfOk result (λ copy. copy ≡ text.now) }
{
    let copy = Text::of(alloc, text.as_str())?;
    Ok(copy)
}

fn copy_text_if(alloc: Global, text: &Option<Text>) -> Result<Option<Text>, OutOfMemory>
    ensures { IfOk result (λ copy. copy ≡ text.now) }
{
    match text {
        Some(text) => Ok(Some(copy_text(alloc, text)?)),
        None => Ok(None),
    }
}

fn copy_location(alloc: Global, location: &Location) -> Result<Location, OutOfMemory>
    ensures { IfOk result (λ copy. copy ≡ location.now) }
{
    Ok(Location {
        file_name: copy_text_if(alloc, &location.file_name)?,
        line: location.line,
        column: location.column,
        function: copy_text_if(alloc, &location.function)?,
    })
}

fn copy_invariant(alloc: Global, invariant: &Invariant) -> Result<Invariant, OutOfMemory>
    ensures { IfOk result (λ copy. copy ≡ invariant.now) }
{
    Ok(Invariant {
        kind: invariant.kind,
        location: copy_location(alloc, &invariant.location)?,
        value: copy_text(alloc, &invariant.value)?,
        format: copy_text_if(alloc, &invariant.format)?,
    })
}

fn copy_texts(alloc: Global, texts: &[Text]) -> Result<Seq<Text>, OutOfMemory>
    ensures { IfOk result (λ copies. copies ≡ texts.now) }
{
    let mut copies = Seq::new(alloc);
    for text in texts {
        let copy = copy_text(alloc, text)?;
        copies.push(copy)?;
    }
    Ok(copies)
}

fn copy_hash(alloc: Global, hash: &FileHash) -> Result<FileHash, OutOfMemory>
    ensures { IfOk result (λ copy. copy ≡ hash.now) }
{
    Ok(FileHash {
        file: copy_text(alloc, &hash.file)?,
        hash: copy_text(alloc, &hash.hash)?,
    })
}

fn copy_hashes(alloc: Global, hashes: &[FileHash]) -> Result<Seq<FileHash>, OutOfMemory>
    ensures { IfOk result (λ copies. copies ≡ hashes.now) }
{
    let mut copies = Seq::new(alloc);
    for hash in hashes {
        let copy = copy_hash(alloc, hash)?;
        copies.push(copy)?;
    }
    Ok(copies)
}

fn copy_metadata(alloc: Global, metadata: &Metadata) -> Result<Metadata, OutOfMemory>
    ensures { IfOk result (λ copy. copy ≡ metadata.now) }
{
    Ok(Metadata {
        format_version: copy_text(alloc, &metadata.format_version)?,
        uuid: copy_text(alloc, &metadata.uuid)?,
        creation_time: copy_text(alloc, &metadata.creation_time)?,
        producer_name: copy_text(alloc, &metadata.producer_name)?,
        producer_version: copy_text(alloc, &metadata.producer_version)?,
        input_files: copy_texts(alloc, metadata.input_files.as_slice())?,
        input_hashes: copy_hashes(alloc, metadata.input_hashes.as_slice())?,
        specification: copy_text(alloc, &metadata.specification)?,
        data_model: copy_text(alloc, &metadata.data_model)?,
        language: copy_text(alloc, &metadata.language)?,
    })
}

/// The number of the invariant that stands n after another. A file of allowed length holds far fewer than can be
/// numbered; more are answered as out of memory.
fn number_after(number: u32, count: usize) -> Result<u32, OutOfMemory>
    ensures { IfOk result (λ next. next ≡ number + count) }
{
    if count >= 1073741823 {
        return Err(OutOfMemory);
    }
    match number.checked_add(count as u32) {
        Some(next) => Ok(next),
        None => Err(OutOfMemory),
    }
}

fn is_in(number: u32, numbers: &[u32]) -> bool
    ensures { result ≡ is_in number numbers.now }
{
    numbers.iter().any(|other| number == *other)
}

/// Appends a copy of an invariant, where its number is one of these.
fn keep_invariant(
    alloc: Global,
    kept: &mut Seq<Invariant>,
    invariant: &Invariant,
    number: u32,
    numbers: &[u32],
) -> Result<(), OutOfMemory>
    ensures { OnOk result (kept.new ≡ kept.old ++ cond (is_in number numbers.now) (invariant.now ∷ []) []) }
{
    if is_in(number, numbers) {
        let copy = copy_invariant(alloc, invariant)?;
        kept.push(copy)?;
    }
    Ok(())
}

/// Of invariants, the first of which has the number `first`, those with these numbers.
fn keep_invariants(
    alloc: Global,
    invariants: &[Invariant],
    numbers: &[u32],
    first: u32,
) -> Result<Seq<Invariant>, OutOfMemory>
    ensures { IfOk result (λ kept. kept ≡ kept_from first numbers.now invariants.now) }
{
    let mut kept = Seq::new(alloc);
    let mut number = first;
    for invariant in invariants {
        keep_invariant(alloc, &mut kept, invariant, number, numbers)?;
        number = number_after(number, 1)?;
    }
    Ok(kept)
}

fn claims_of(content: &Content) -> usize
    ensures { result ≡ claims_of content.now }
{
    match content {
        Content::Violation(_) => 0,
        Content::Invariants(invariants) => invariants.len(),
    }
}

/// The same of what an entry claims. The schema leaves no violation sequence beside invariant sets; one is answered as
/// out of memory.
fn keep_claims(
    alloc: Global,
    content: &Content,
    numbers: &[u32],
    first: u32,
) -> Result<Content, OutOfMemory>
    ensures { IfOk result (λ kept. kept ≡ kept_claims first numbers.now content.now) }
{
    match content {
        Content::Violation(_) => Err(OutOfMemory),
        Content::Invariants(invariants) => {
            let kept = keep_invariants(alloc, invariants.as_slice(), numbers, first)?;
            Ok(Content::Invariants(kept))
        }
    }
}

/// The same of an entry.
fn keep_entry(
    alloc: Global,
    entry: &Entry,
    numbers: &[u32],
    first: u32,
) -> Result<Entry, OutOfMemory>
    ensures { IfOk result (λ kept. kept ≡ kept_entry first numbers.now entry.now) }
{
    Ok(Entry {
        metadata: copy_metadata(alloc, &entry.metadata)?,
        content: keep_claims(alloc, &entry.content, numbers, first)?,
    })
}

/// The same of entries.
fn keep_entries(
    alloc: Global,
    entries: &[Entry],
    numbers: &[u32],
) -> Result<Seq<Entry>, OutOfMemory>
    ensures { IfOk result (λ kept. kept ≡ kept_entries 1 numbers.now entries.now) }
{
    let mut kept = Seq::new(alloc);
    let mut first = 1;
    for entry in entries {
        let copy = keep_entry(alloc, entry, numbers, first)?;
        kept.push(copy)?;
        first = number_after(first, claims_of(&entry.content))?;
    }
    Ok(kept)
}

/// The witness with the invariants of these numbers, and no others: those of all entries are numbered in one, from 1.
pub fn keep(alloc: Global, witness: &Witness, numbers: &[u32]) -> Result<Witness, OutOfMemory>
    ensures { IfOk result (λ kept. kept ≡ kept_in numbers.now witness.now) }
{
    let entries = keep_entries(alloc, witness.entries.as_slice(), numbers)?;
    Ok(Witness { entries })
}
