// The output for a program, a property and values for a run's inputs: the refusals in their order, and then a violation
// witness.
ghost use Rattle.std.specs.Prelude.{◌≡◌, ◌≤◌, IfOk, length};
ghost use Rattle.std.specs.Str.{chars};
ghost use Rattle.c_parser.specs.Formed.{AreOrderly};
ghost use Rattle.c_parser.specs.Parsing.{source_view};
ghost use Rattle.wv_arguments.specs.Requests.{labelled};
ghost use Rattle.wv_task.specs.Task.{model_of};
ghost use Rattle.yaml_scalars.specs.Tokens.{max_key};
ghost use Rattle.witval.specs.Authoring.{AuthorsOnInputs, IsUnauthored, TellsEnd};
ghost use Rattle.witval.specs.Inputs.{AreWithin};
ghost use Rattle.witval.specs.inside.AuthoringRests.{AuthorsOnFile, AuthorsOnModel, AuthorsOnProgram, AuthorsOnSegments, AuthorsOnSource, AuthorsOnText, AuthorsOnTokens, AuthorsOnValues, AuthorsUnder};

use crate::input::Inputs;
use crate::output::{Output, Unviolated};
use crate::refusal::{
    refuse_cell, refuse_check, refuse_plainly, refuse_syntax, refuse_tokens, refuse_values,
};
use crate::tokens::program_tokens;
use crate::writing::write_witness;
use c_check::check;
use c_core::{DataModel, Program, Property};
use c_meaning::{Cause, End, Verdict};
use c_parser::{Source, parse};
use c_tokens::Token;
use std::alloc::Global;
use wv_arguments::Label;
use wv_author::{AuthorFault, author, authored, read_values};
use wv_base::{OutOfMemory, Seq, Text};
use wv_report::Reply;
use wv_schema::Segment;
use wv_task::{identifier, property};
use yaml_scalars::is_short;

/// What a violation witness is made of besides values: the name of the program's file, what the witness is to say of
/// itself, and the budget of steps of its run.
#[derive(Clone, Copy)]
pub struct Draft<'a> {
    pub file: &'a str,
    pub label: Label<'a>,
    pub steps: u64,
}

/// A program and what it is asked about: its bytes, its property and its data model.
#[derive(Clone, Copy)]
struct Task<'a> {
    bytes: &'a [u8],
    property: Property,
    model: DataModel,
}

/// The output for three files of allowed length, the third of which lists values.
pub fn author_inputs(
    alloc: Global,
    inputs: &Inputs,
    draft: &Draft<'_>,
) -> Result<Output, OutOfMemory>
    requires { AreWithin inputs.now }
    ensures { IfOk result
        (AuthorsOnInputs (labelled draft.now.label) draft.now.steps draft.now.file.now inputs.now.program.items
        inputs.now.property.items inputs.now.witness.items) }
{
    match property(&inputs.property) {
        Ok(property) => author_bytes(alloc, property, &inputs.program, &inputs.witness, draft),
        Err(_) => Ok(Output::Report(refuse_plainly(alloc, "property")?)),
    }
}

/// The output for a program and the bytes of values.
fn author_bytes(
    alloc: Global,
    property: Property,
    program: &[u8],
    values: &[u8],
    draft: &Draft<'_>,
) -> Result<Output, OutOfMemory>
    requires { length program.now ≤ 1048576 }
    ensures { IfOk result
        (AuthorsUnder (labelled draft.now.label) draft.now.steps draft.now.file.now program.now values.now property) }
{
    match read_values(alloc, values) {
        Ok(values) => author_values(alloc, property, program, &values, draft),
        Err(fault) => Ok(Output::Report(refuse_values(alloc, fault)?)),
    }
}

/// The output for a program and values.
fn author_values(
    alloc: Global,
    property: Property,
    program: &[u8],
    values: &Seq<i128>,
    draft: &Draft<'_>,
) -> Result<Output, OutOfMemory>
    requires { length program.now ≤ 1048576 }
    ensures { IfOk result
        (AuthorsOnValues (labelled draft.now.label) draft.now.steps draft.now.file.now program.now property
        values.now) }
{
    if is_short(draft.file) {
        author_file(alloc, property, program, values, draft)
    } else {
        Ok(Output::Report(refuse_plainly(alloc, "files")?))
    }
}

fn model_of(text: &str) -> Option<DataModel>
    ensures { result ≡ model_of text.now }
{
    match text {
        "ILP32" => Some(DataModel::Ilp32),
        "LP64" => Some(DataModel::Lp64),
        _ => None,
    }
}

/// The same where the name of the program's file may be a key.
fn author_file(
    alloc: Global,
    property: Property,
    program: &[u8],
    values: &Seq<i128>,
    draft: &Draft<'_>,
) -> Result<Output, OutOfMemory>
    requires program { length program.now ≤ 1048576 }
    requires short { length (chars draft.now.file.now) ≤ max_key }
    ensures { IfOk result
        (AuthorsOnFile (labelled draft.now.label) draft.now.steps draft.now.file.now program.now property values.now) }
{
    match model_of(draft.label.model) {
        Some(model) => {
            let task = Task {
                bytes: program,
                property,
                model,
            };
            author_model(alloc, &task, values, draft)
        }
        None => Ok(Output::Report(refuse_plainly(alloc, "model")?)),
    }
}

/// The same in a data model.
fn author_model(
    alloc: Global,
    task: &Task<'_>,
    values: &Seq<i128>,
    draft: &Draft<'_>,
) -> Result<Output, OutOfMemory>
    requires program { length task.now.bytes.now ≤ 1048576 }
    requires short { length (chars draft.now.file.now) ≤ max_key }
    ensures { IfOk result
        (AuthorsOnModel (labelled draft.now.label) draft.now.steps draft.now.file.now task.now.bytes.now
        task.now.property task.now.model values.now) }
{
    let uuid = Text::of(alloc, draft.label.uuid)?;
    match identifier(alloc, &uuid)? {
        Some(_) => author_text(alloc, task, values, draft),
        None => Ok(Output::Report(refuse_plainly(alloc, "uuid")?)),
    }
}

/// The same with an identifier.
fn author_text(
    alloc: Global,
    task: &Task<'_>,
    values: &Seq<i128>,
    draft: &Draft<'_>,
) -> Result<Output, OutOfMemory>
    requires program { length task.now.bytes.now ≤ 1048576 }
    requires short { length (chars draft.now.file.now) ≤ max_key }
    ensures { IfOk result
        (AuthorsOnText (labelled draft.now.label) draft.now.steps draft.now.file.now task.now.bytes.now
        task.now.property task.now.model values.now) }
{
    match program_tokens(alloc, task.bytes) {
        Ok(tokens) => author_tokens(alloc, task, &tokens, values, draft),
        Err(fault) => Ok(Output::Report(refuse_tokens(alloc, fault)?)),
    }
}

/// The output for the tokens of a program.
fn author_tokens(
    alloc: Global,
    task: &Task<'_>,
    tokens: &Seq<Token>,
    values: &Seq<i128>,
    draft: &Draft<'_>,
) -> Result<Output, OutOfMemory>
    requires orderly { AreOrderly tokens.now }
    requires short { length (chars draft.now.file.now) ≤ max_key }
    ensures { IfOk result
        (AuthorsOnTokens (labelled draft.now.label) draft.now.steps draft.now.file.now task.now.bytes.now
        task.now.property task.now.model values.now tokens.now) }
{
    match parse(alloc, tokens) {
        Ok(source) => author_source(alloc, task, &source, values, draft),
        Err(fault) => Ok(Output::Report(refuse_syntax(alloc, fault)?)),
    }
}

/// The output for a source.
fn author_source(
    alloc: Global,
    task: &Task<'_>,
    source: &Source,
    values: &Seq<i128>,
    draft: &Draft<'_>,
) -> Result<Output, OutOfMemory>
    requires { length (chars draft.now.file.now) ≤ max_key }
    ensures { IfOk result
        (AuthorsOnSource (labelled draft.now.label) draft.now.steps draft.now.file.now task.now.bytes.now
        task.now.property task.now.model values.now (source_view source.now)) }
{
    match check(alloc, source, task.model, task.property) {
        Ok(program) => author_program(alloc, task, &program, values, draft),
        Err(fault) => Ok(Output::Report(refuse_check(alloc, fault)?)),
    }
}

/// The output for a program: the witness of the run that takes the values in turn, or why there is none.
fn author_program(
    alloc: Global,
    task: &Task<'_>,
    program: &Program,
    values: &Seq<i128>,
    draft: &Draft<'_>,
) -> Result<Output, OutOfMemory>
    requires { length (chars draft.now.file.now) ≤ max_key }
    ensures { IfOk result
        (AuthorsOnProgram (labelled draft.now.label) draft.now.steps draft.now.file.now task.now.bytes.now
        task.now.property task.now.model values.now program.now) }
{
    let file = Text::of(alloc, draft.file)?;
    match author(alloc, program, &file, values, draft.steps) {
        Ok(segments) => author_segments(alloc, task, &file, segments, draft),
        Err(fault) => unauthored(alloc, fault, draft.steps),
    }
}

/// The witness with these segments.
fn author_segments(
    alloc: Global,
    task: &Task<'_>,
    file: &Text,
    segments: Seq<Segment>,
    draft: &Draft<'_>,
) -> Result<Output, OutOfMemory>
    requires { length (chars file.now) ≤ max_key }
    ensures { IfOk result
        (AuthorsOnSegments (labelled draft.now.label) file.now task.now.bytes.now task.now.property task.now.model
        segments) }
{
    let label = draft.label;
    let witness = authored(
        alloc,
        task.bytes,
        file,
        segments,
        task.property,
        task.model,
        label.uuid,
        label.time,
    )?;
    write_witness(alloc, &witness)
}

/// The output for a run of which no witness is made.
fn unauthored(alloc: Global, fault: AuthorFault, steps: u64) -> Result<Output, OutOfMemory>
    ensures { IfOk result (IsUnauthored steps fault) }
{
    match fault {
        AuthorFault::NotViolated(end) => tell_end(end, steps),
        AuthorFault::CellValue(spot) => Ok(Output::Report(refuse_cell(alloc, spot)?)),
        AuthorFault::OutOfMemory => Err(OutOfMemory),
    }
}

/// The output for the end of a run. One that violates the property is no such end, and answered as out of memory.
fn tell_end(end: End, steps: u64) -> Result<Output, OutOfMemory>
    ensures { IfOk result (TellsEnd steps end) }
{
    match end {
        End::Ended => Ok(Output::Unviolated(Unviolated::Ended)),
        End::Undefined(spot) => Ok(Output::Unviolated(Unviolated::Undefined(spot))),
        End::Spent => {
            let cause = Cause::Steps(steps);
            Ok(Output::Report(Reply::Verdict(Verdict::Undecided(cause))))
        }
        End::Deep => Ok(Output::Report(Reply::Verdict(Verdict::Undecided(Cause::Cells)))),
        End::Violated(_) => Err(OutOfMemory),
    }
}
