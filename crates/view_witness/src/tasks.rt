// What is wrong in what a witness says of its task.
use c_core::Property;
use std::alloc::Global;
use view_paths::{Step, place_in_value};
use view_text::{File, Messages, advice, width_at};
use wv_base::OutOfMemory;
use wv_schema::{Entry, Metadata, Witness};
use wv_task::{TaskFault, identifier, specification};

/// Whether an entry names one file, and one hash under its name.
fn has_one_file(metadata: &Metadata) -> bool {
    match (
        metadata.input_files.as_slice(),
        metadata.input_hashes.as_slice(),
    ) {
        ([file], [hash]) => file.as_str() == hash.file.as_str(),
        _ => false,
    }
}

fn states_hash(metadata: &Metadata, stated: &str) -> bool {
    match metadata.input_hashes.as_slice() {
        [hash] => hash.hash.as_str() == stated,
        _ => false,
    }
}

fn states_property(metadata: &Metadata, property: Property) -> bool {
    match specification(metadata.specification.as_str().as_bytes()) {
        Ok(stated) => stated == property,
        Err(_) => false,
    }
}

/// Whether the data model is one that is judged, and that of the first entry.
fn has_model(first: &Entry, metadata: &Metadata) -> bool {
    let model = metadata.data_model.as_str();
    (model == "ILP32" || model == "LP64") && model == first.metadata.data_model.as_str()
}

/// Whether an entry breaks the rule of a fault.
fn breaks(
    alloc: Global,
    property: Property,
    fault: &TaskFault,
    first: &Entry,
    entry: &Entry,
) -> Result<bool, OutOfMemory> {
    let metadata = &entry.metadata;
    match fault {
        TaskFault::Files => Ok(!has_one_file(metadata)),
        TaskFault::Hash { stated, .. } => Ok(states_hash(metadata, stated.as_str())),
        TaskFault::Specification => Ok(!states_property(metadata, property)),
        TaskFault::Language => Ok(metadata.language.as_str() != "C"),
        TaskFault::Model => Ok(!has_model(first, metadata)),
        TaskFault::Uuid => Ok(identifier(alloc, &metadata.uuid)?.is_none()),
        TaskFault::OutOfMemory => Err(OutOfMemory),
    }
}

/// The first entry that breaks the rule of a fault, from 0.
fn entry_of(
    alloc: Global,
    property: Property,
    fault: &TaskFault,
    entries: &[Entry],
) -> Result<usize, OutOfMemory> {
    let Some(first) = entries.first() else {
        return Ok(0);
    };
    for (index, entry) in entries.iter().enumerate() {
        if breaks(alloc, property, fault, first, entry)? {
            return Ok(index);
        }
    }
    Ok(0)
}

/// The code of a fault, the key that it speaks of, and what an entry states there; empty where that is more than one
/// text.
fn told_by<'a>(
    fault: &'a TaskFault,
    metadata: &'a Metadata,
) -> (&'static str, &'static str, &'a str) {
    match fault {
        TaskFault::Files => ("files", "input_files", ""),
        TaskFault::Hash { stated, .. } => ("hash", "input_file_hashes", stated.as_str()),
        TaskFault::Specification => {
            (
                "specification",
                "specification",
                metadata.specification.as_str(),
            )
        }
        TaskFault::Language => ("language", "language", metadata.language.as_str()),
        TaskFault::Model => ("model", "data_model", metadata.data_model.as_str()),
        TaskFault::Uuid | TaskFault::OutOfMemory => ("uuid", "uuid", metadata.uuid.as_str()),
    }
}

fn text_of(alloc: Global, code: &str, fault: &TaskFault) -> Result<String, OutOfMemory> {
    let rule = advice(code);
    let mut text = String::from_str(alloc, rule)?;
    if let TaskFault::Hash { stated, found } = fault {
        let stated = stated.as_str();
        let found = found.as_str();
        write!(
            text,
            ": it states {stated}, and the program's SHA-256 is {found}"
        )?;
    }
    Ok(text)
}

/// A witness that isn't about this task: the entry that says so, and the place.
pub fn explain_task(
    alloc: Global,
    text: &[u8],
    witness: &Witness,
    property: Property,
    fault: &TaskFault,
    out: &mut Messages,
) -> Result<(), OutOfMemory> {
    let entry = entry_of(alloc, property, fault, witness.entries.as_slice())?;
    let Some(found) = witness.entries.get(entry) else {
        return Ok(());
    };
    let (code, key, stated) = told_by(fault, &found.metadata);
    let in_metadata = [Step::Item(entry), Step::Key("metadata"), Step::Key(key)];
    let in_task = [
        Step::Item(entry),
        Step::Key("metadata"),
        Step::Key("task"),
        Step::Key(key),
    ];
    let spot = if code == "uuid" {
        place_in_value(alloc, text, &in_metadata, stated, 0)?
    } else {
        place_in_value(alloc, text, &in_task, stated, 0)?
    };
    let told = text_of(alloc, code, fault)?;
    out.error(code, File::Witness, Some(spot), told)?;
    out.mark(width_at(text, spot, stated));
    Ok(())
}
