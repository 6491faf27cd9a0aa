// What is judged, where no stage refuses it.
use c_check::check;
use c_core::{DataModel, Program, Property};
use c_parser::{ParseFault, Source};
use c_tokens::TokenFault;
use check_rules::CheckFault;
use std::alloc::Global;
use view_grammar::{Spelling, read_source};
use view_text::{File, Files};
use wv_base::OutOfMemory;
use wv_schema::{Content, SchemaFault, Witness, witness_of};
use wv_task::{TaskFault, judge_task, property};
use wv_yaml::{Tree, YamlFault, read};

/// A checked program, and invariant sets about it.
#[derive(Drop)]
pub struct Task {
    pub program: Program,
    pub witness: Witness,
}

fn tree_of(alloc: Global, text: &[u8]) -> Result<Option<Tree>, OutOfMemory> {
    match read(alloc, text) {
        Ok(tree) => Ok(Some(tree)),
        Err(YamlFault::OutOfMemory) => Err(OutOfMemory),
        Err(_) => Ok(None),
    }
}

fn holds_sets(witness: &Witness) -> bool {
    match witness.entries.get(0) {
        Some(entry) => matches!(&entry.content, Content::Invariants(_)),
        None => false,
    }
}

fn witness_in(alloc: Global, tree: &Tree) -> Result<Option<Witness>, OutOfMemory> {
    match witness_of(alloc, tree) {
        Ok(witness) => Ok(Some(witness)),
        Err(SchemaFault::OutOfMemory) => Err(OutOfMemory),
        Err(_fault) => Ok(None),
    }
}

/// The invariant sets that a text spells.
fn sets_of(alloc: Global, text: &[u8]) -> Result<Option<Witness>, OutOfMemory> {
    let Some(tree) = tree_of(alloc, text)? else {
        return Ok(None);
    };
    let Some(witness) = witness_in(alloc, &tree)? else {
        return Ok(None);
    };
    if holds_sets(&witness) {
        Ok(Some(witness))
    } else {
        Ok(None)
    }
}

/// The data model of a witness about a program and a property.
fn model_of(
    alloc: Global,
    witness: &Witness,
    program: &[u8],
    property: Property,
) -> Result<Option<DataModel>, OutOfMemory> {
    if witness.entries.len() == 0 {
        return Ok(None);
    }
    match judge_task(alloc, witness, program, property) {
        Ok(model) => Ok(Some(model)),
        Err(TaskFault::OutOfMemory) => Err(OutOfMemory),
        Err(_) => Ok(None),
    }
}

fn checked(
    alloc: Global,
    source: &Source,
    model: DataModel,
    property: Property,
) -> Result<Option<Program>, OutOfMemory> {
    match check(alloc, source, model, property) {
        Ok(program) => Ok(Some(program)),
        Err(CheckFault::OutOfMemory) => Err(OutOfMemory),
        Err(CheckFault::Refused { .. }) => Ok(None),
    }
}

fn program_of(
    alloc: Global,
    text: &[u8],
    model: DataModel,
    property: Property,
) -> Result<Option<Program>, OutOfMemory> {
    match read_source(alloc, text) {
        Spelling::Source(source) => checked(alloc, &source, model, property),
        Spelling::NoTokens(TokenFault::OutOfMemory) => Err(OutOfMemory),
        Spelling::NoSource(ParseFault::OutOfMemory) => Err(OutOfMemory),
        _ => Ok(None),
    }
}

/// What the files hold; none where a stage refuses them, or where the witness is a violation sequence.
pub fn task_of(alloc: Global, files: &Files<'_>) -> Result<Option<Task>, OutOfMemory> {
    let Ok(property) = property(files.text(File::Property)) else {
        return Ok(None);
    };
    let Some(witness) = sets_of(alloc, files.text(File::Witness))? else {
        return Ok(None);
    };
    let text = files.text(File::Program);
    let Some(model) = model_of(alloc, &witness, text, property)? else {
        return Ok(None);
    };
    match program_of(alloc, text, model, property)? {
        Some(program) => Ok(Some(Task { program, witness })),
        None => Ok(None),
    }
}
