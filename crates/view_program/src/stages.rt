// The stages of the validator, in its order, up to the one that refuses or judges.
ghost use Rattle.std.specs.Prelude.{◌≤◌};

use crate::further::explain_refused;
use crate::sets::explain_sets;
use c_check::check;
use c_core::{DataModel, Program, Property, Spot};
use c_parser::Source;
use std::alloc::Global;
use view_claims::explain_sequence;
use view_grammar::{Spelling, read_source};
use view_text::{File, Files, Messages, advice};
use view_witness::{explain_schema, explain_task, explain_yaml, warn_of_unread};
use wv_arguments::Budgets;
use wv_base::OutOfMemory;
use wv_schema::{Content, Entry, Witness, witness_of};
use wv_task::{judge_task, property};
use wv_yaml::{Tree, read};

/// What is asked about the files: the budgets, and of a violation sequence the values of a run where these are known.
/// The program, where the answer came to it, isn't read and checked again.
#[derive(Clone, Copy)]
pub struct Question<'a> {
    pub budgets: Budgets,
    pub values: Option<&'a [i128]>,
    pub program: Option<&'a Program>,
}

/// More conflicts aren't spent.
const MOST_CONFLICTS: u64 = 1_000_000;

/// The conflicts that may be spent, at least one.
fn limited(conflicts: u64) -> u64
    ensures some { 1 ≤ result }
    ensures bounded { result ≤ 1000000 }
{
    if conflicts == 0 {
        1
    } else if conflicts > MOST_CONFLICTS {
        MOST_CONFLICTS
    } else {
        conflicts
    }
}

fn is_set(entry: &Entry) -> bool {
    match entry.content {
        Content::Violation(_) => false,
        Content::Invariants(_) => true,
    }
}

/// Whether the entries are invariant sets; a schema allows no others beside one.
fn holds_sets(witness: &Witness) -> bool {
    match witness.entries.get(0) {
        Some(first) => is_set(first),
        None => false,
    }
}

fn explain_program(
    alloc: Global,
    files: &Files<'_>,
    question: Question<'_>,
    program: &Program,
    witness: &Witness,
    out: &mut Messages,
) -> Result<(), OutOfMemory> {
    if holds_sets(witness) {
        let conflicts = limited(question.budgets.conflicts);
        explain_sets(alloc, files, program, witness, conflicts, out)
    } else {
        explain_sequence(
            alloc,
            files,
            program,
            witness,
            question.budgets.steps,
            question.values,
            out,
        )
    }
}

fn explain_source(
    alloc: Global,
    files: &Files<'_>,
    question: Question<'_>,
    source: &Source,
    model: DataModel,
    property: Property,
    witness: &Witness,
    out: &mut Messages,
) -> Result<(), OutOfMemory> {
    match check(alloc, source, model, property) {
        Ok(program) => explain_program(alloc, files, question, &program, witness, out),
        Err(_) => explain_refused(alloc, files, model, property, out),
    }
}

fn explain_text(
    alloc: Global,
    files: &Files<'_>,
    question: Question<'_>,
    model: DataModel,
    property: Property,
    witness: &Witness,
    out: &mut Messages,
) -> Result<(), OutOfMemory> {
    if let Some(program) = question.program {
        return explain_program(alloc, files, question, program, witness, out);
    }
    match read_source(alloc, files.text(File::Program)) {
        Spelling::Source(source) => explain_source(
            alloc, files, question, &source, model, property, witness, out,
        ),
        Spelling::NoTokens(_) | Spelling::NoSource(_) => {
            explain_refused(alloc, files, model, property, out)
        }
    }
}

fn explain_witness(
    alloc: Global,
    files: &Files<'_>,
    question: Question<'_>,
    property: Property,
    witness: &Witness,
    out: &mut Messages,
) -> Result<(), OutOfMemory> {
    if witness.entries.len() == 0 {
        return Ok(());
    }
    match judge_task(alloc, witness, files.text(File::Program), property) {
        Ok(model) => explain_text(alloc, files, question, model, property, witness, out),
        Err(fault) => {
            let text = files.text(File::Witness);
            explain_task(alloc, text, witness, property, &fault, out)
        }
    }
}

fn explain_tree(
    alloc: Global,
    files: &Files<'_>,
    question: Question<'_>,
    property: Property,
    tree: &Tree,
    out: &mut Messages,
) -> Result<(), OutOfMemory> {
    match witness_of(alloc, tree) {
        Ok(witness) => {
            warn_of_unread(alloc, files.text(File::Witness), tree, out)?;
            explain_witness(alloc, files, question, property, &witness, out)
        }
        Err(fault) => explain_schema(alloc, files.text(File::Witness), tree, &fault, out),
    }
}

/// What there is to say of a property that was read, and a witness about it.
fn explain_bytes(
    alloc: Global,
    files: &Files<'_>,
    question: Question<'_>,
    property: Property,
    out: &mut Messages,
) -> Result<(), OutOfMemory> {
    let text = files.text(File::Witness);
    match read(alloc, text) {
        Ok(tree) => explain_tree(alloc, files, question, property, &tree, out),
        Err(fault) => explain_yaml(alloc, text, fault, out),
    }
}

/// What there is to say of three files that were read whole.
pub fn explain(
    alloc: Global,
    files: &Files<'_>,
    question: Question<'_>,
    out: &mut Messages,
) -> Result<(), OutOfMemory> {
    match property(files.text(File::Property)) {
        Ok(property) => explain_bytes(alloc, files, question, property, out),
        Err(_) => {
            let spot = Spot { line: 1, column: 1 };
            let told = String::from_str(alloc, advice("property"))?;
            out.error("property", File::Property, Some(spot), told)
        }
    }
}
