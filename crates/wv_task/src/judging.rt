// The rules of the task, entry by entry.
ghost use Rattle.std.specs.Prelude.{◌≡◌, ◌<◌, ◌&&◌, IfOk, bytes_eq, codes, is_some, length};
ghost use Rattle.hex.specs.Hex.{encode_lower};
ghost use Rattle.sha2.specs.Sha256.{sha256};
ghost use Rattle.wv_task.specs.PropertyText.{specification_of};
ghost use Rattle.wv_task.specs.Task as spec;

use crate::readings::is_identifier;
use crate::{TaskFault, specification};
use c_core::{DataModel, Property};
use sha2::{Digest, Sha256};
use std::alloc::Global;
use wv_base::{OutOfMemory, Text};
use wv_schema::{FileHash, Metadata, Witness};

/// The data model of a witness about this program and property. Otherwise the first rule that an entry doesn't meet:
/// one input file with one hash; the hash is the program's SHA-256; the property is this one; the language is C; the
/// data model is `ILP32` or `LP64`, as in the first entry; the identifier is one.
pub fn judge_task(
    alloc: Global,
    witness: &Witness,
    program: &[u8],
    property: Property,
) -> Result<DataModel, TaskFault>
    requires { 0 < length witness.now.entries }
    ensures { spec.Gives (spec.judged (sha256 program.now) property witness.now.entries) result }
{
    let digest = Sha256::digest(program);
    let entries = witness.entries.as_slice();
    let first_model = entries[0].metadata.data_model.as_str();
    for entry in entries {
        judge_entry(alloc, &entry.metadata, &digest, property, first_model)?;
    }
    model(first_model).ok_or(TaskFault::Model)
}

fn judge_entry(
    alloc: Global,
    metadata: &Metadata,
    digest: &[u8; 32],
    property: Property,
    first_model: &str,
) -> Result<(), TaskFault>
    ensures { spec.Gives (spec.all_met (spec.rules digest.now property first_model.now metadata.now)) result }
{
    let hashes = metadata.input_hashes.as_slice();
    if !names_one_file(metadata.input_files.as_slice(), hashes) {
        return Err(TaskFault::Files);
    }
    let stated = stated_hash(hashes);
    if !spells(digest, stated) {
        return Err(wrong_hash(alloc, stated, digest)?);
    }
    if !states(property, metadata.specification.as_str()) {
        return Err(TaskFault::Specification);
    }
    if !is_c(metadata.language.as_str()) {
        return Err(TaskFault::Language);
    }
    if !names_model(metadata.data_model.as_str(), first_model) {
        return Err(TaskFault::Model);
    }
    if !is_identifier(metadata.uuid.as_str()) {
        return Err(TaskFault::Uuid);
    }
    Ok(())
}

fn names_one_file(files: &[Text], hashes: &[FileHash]) -> bool
    ensures { result ≡ spec.names_one_file files.now hashes.now }
{
    match (files, hashes) {
        ([file], [hash]) => hash.file.as_str() == file.as_str(),
        _ => false,
    }
}

fn stated_hash(hashes: &[FileHash]) -> &str
    ensures { result.now ≡ spec.stated_hash hashes.now }
{
    match hashes {
        [hash, ..] => hash.hash.as_str(),
        [] => "",
    }
}

/// Whether the text is 64 hexadecimal digits, of either case, of this digest.
fn spells(digest: &[u8; 32], text: &str) -> bool
    ensures { result ≡ spec.spells digest.now text.now }
{
    let mut stated = [0; 32];
    match hex::decode_to_slice(text, &mut stated) {
        Ok(()) => stated.as_slice() == digest.as_slice(),
        Err(_) => false,
    }
}

fn wrong_hash(alloc: Global, stated: &str, digest: &[u8; 32]) -> Result<TaskFault, OutOfMemory>
    ensures { IfOk result (λ fault. fault ≡ TaskFault.Hash stated.now (encode_lower digest.now)) }
{
    let stated = Text::of(alloc, stated)?;
    let digits = hex::encode(alloc, digest.as_slice())?;
    let found = Text::of(alloc, digits.as_str())?;
    Ok(TaskFault::Hash { stated, found })
}

fn states(property: Property, text: &str) -> bool
    ensures { result ≡ spec.is_property property (specification_of text.now) }
{
    match specification(text.as_bytes()) {
        Ok(stated) => stated == property,
        Err(_) => false,
    }
}

fn is_c(language: &str) -> bool
    ensures { result ≡ bytes_eq language.now (codes "C") }
{
    language == "C"
}

/// Whether the text names a data model, and the first entry names the same.
fn names_model(text: &str, first_model: &str) -> bool
    ensures { result ≡ (is_some (spec.model_of text.now) && bytes_eq text.now first_model.now) }
{
    model(text).is_some() && text == first_model
}

fn model(text: &str) -> Option<DataModel>
    ensures { result ≡ spec.model_of text.now }
{
    match text {
        "ILP32" => Some(DataModel::Ilp32),
        "LP64" => Some(DataModel::Lp64),
        _ => None,
    }
}
