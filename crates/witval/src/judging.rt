// The output for a program, a property and a witness: the refusals in their order, and then what the purpose asks for.
ghost use Rattle.std.specs.Prelude.{◌≡◌, None, IfOk, ◌<◌, ◌≤◌, length};
ghost use Rattle.c_parser.specs.Formed.{AreOrderly};
ghost use Rattle.c_parser.specs.Parsing.{source_view};
ghost use Rattle.wv_arguments.specs.Requests.{limits};
ghost use Rattle.wv_schema.specs.Shapes.{is_set};
ghost use Rattle.wv_yaml.specs.Canon.{Fits};
ghost use Rattle.wv_yaml.specs.Document.{max_depth};
ghost use Rattle.witval.specs.Inputs.{AreWithin};
ghost use Rattle.witval.specs.Kept.{Keeps, KeepsOfSource, KeepsOfTokens};
ghost use Rattle.witval.specs.Purposes.{IsKind, RightOnInputs, RightOnWork, meant, planned};
ghost use Rattle.witval.specs.Tasks.{RightOnProgram, holds_sets};
ghost use Rattle.witval.specs.inside.Allowed.{AllowsPurpose, AllowsWork, IsAllowed};
ghost use Rattle.witval.specs.inside.Keys.{HasShortKeys};
ghost use Rattle.witval.specs.inside.Rests.{RightOnLogs, RightOnModel, RightOnSegmentsAlone, RightOnSource, RightOnText, RightOnTokens, RightOnTree, RightOnWitness, RightUnder};

use crate::certificates::{certify_sets, recheck_sets};
use crate::input::Inputs;
use crate::output::Output;
use crate::purpose::{Purpose, Work};
use crate::refusal::{
    refuse_certificate, refuse_check, refuse_plainly, refuse_schema, refuse_syntax, refuse_task,
    refuse_tokens, refuse_yaml,
};
use crate::searching::seek_values;
use crate::sequence::judge_sequence;
use crate::sets::judge_sets;
use crate::tokens::program_tokens;
use crate::weeding::weed_sets;
use c_check::check;
use c_core::{DataModel, Program, Property};
use c_parser::{Source, parse};
use c_tokens::Token;
use std::alloc::Global;
use wv_arguments::Budgets;
use wv_base::{OutOfMemory, Seq};
use wv_cert::read_certificate;
use wv_report::Reply;
use wv_schema::{Content, Entry, Witness, witness_of};
use wv_task::{judge_task, property};
use wv_yaml::{Tree, read};

/// The output for three files of allowed length.
#[tactic(auto, using(crate::proofs::KeptLaws::nothing_kept))]
pub fn judge(
    alloc: Global,
    inputs: &Inputs,
    purpose: Purpose,
    kept: &mut Option<Program>,
) -> Result<Output, OutOfMemory>
    requires within { AreWithin inputs.now }
    requires allowed { AllowsPurpose (meant purpose) }
    requires none { kept.old ≡ None }
    ensures right { IfOk result
        (RightOnInputs (meant purpose) inputs.now.program.items inputs.now.property.items inputs.now.witness.items) }
    ensures kept { Keeps inputs.now.program.items kept.new }
{
    match property(&inputs.property) {
        Ok(property) => judge_bytes(
            alloc,
            property,
            &inputs.program,
            &inputs.witness,
            purpose,
            kept,
        ),
        Err(_) => Ok(Output::Report(refuse_plainly(alloc, "property")?)),
    }
}

/// The output for a program and the bytes of a witness.
#[tactic(auto, using(crate::proofs::KeptLaws::nothing_kept))]
pub fn judge_bytes(
    alloc: Global,
    property: Property,
    program: &[u8],
    witness: &[u8],
    purpose: Purpose,
    kept: &mut Option<Program>,
) -> Result<Output, OutOfMemory>
    requires program { length program.now ≤ 1048576 }
    requires allowed { AllowsPurpose (meant purpose) }
    requires none { kept.old ≡ None }
    ensures right { IfOk result (RightUnder (meant purpose) program.now witness.now property) }
    ensures kept { Keeps program.now kept.new }
{
    match read(alloc, witness) {
        Ok(tree) => judge_tree(alloc, property, program, &tree, purpose, kept),
        Err(fault) => Ok(Output::Report(refuse_yaml(alloc, fault)?)),
    }
}

/// The output for a program and the tree of its witness.
#[tactic(auto, using(crate::proofs::KeptLaws::nothing_kept))]
fn judge_tree(
    alloc: Global,
    property: Property,
    program: &[u8],
    tree: &Tree,
    purpose: Purpose,
    kept: &mut Option<Program>,
) -> Result<Output, OutOfMemory>
    requires program { length program.now ≤ 1048576 }
    requires fits { Fits max_depth tree.now }
    requires allowed { AllowsPurpose (meant purpose) }
    requires none { kept.old ≡ None }
    ensures right { IfOk result (RightOnTree (meant purpose) property program.now tree.now) }
    ensures kept { Keeps program.now kept.new }
{
    match witness_of(alloc, tree) {
        Ok(witness) => judge_witness(alloc, property, program, &witness, purpose, kept),
        Err(fault) => Ok(Output::Report(refuse_schema(alloc, fault)?)),
    }
}

/// The output for a program and its witness.
#[tactic(auto, using(crate::proofs::KeptLaws::nothing_kept))]
fn judge_witness(
    alloc: Global,
    property: Property,
    program: &[u8],
    witness: &Witness,
    purpose: Purpose,
    kept: &mut Option<Program>,
) -> Result<Output, OutOfMemory>
    requires program { length program.now ≤ 1048576 }
    requires entries { 0 < length witness.now.entries }
    requires keys { HasShortKeys witness.now }
    requires allowed { AllowsPurpose (meant purpose) }
    requires none { kept.old ≡ None }
    ensures right { IfOk result (RightOnWitness (meant purpose) property program.now witness.now) }
    ensures kept { Keeps program.now kept.new }
{
    match judge_task(alloc, witness, program, property) {
        Ok(model) => judge_model(alloc, property, program, model, witness, purpose, kept),
        Err(fault) => Ok(Output::Report(refuse_task(alloc, fault)?)),
    }
}

/// The output for the text of a program in a data model, and a witness about it: a certificate is made, or read, for
/// invariant sets alone, and only they are weeded; values are sought for violation sequences alone.
#[tactic(auto, using(crate::proofs::KeptLaws::nothing_kept))]
fn judge_model(
    alloc: Global,
    property: Property,
    program: &[u8],
    model: DataModel,
    witness: &Witness,
    purpose: Purpose,
    kept: &mut Option<Program>,
) -> Result<Output, OutOfMemory>
    requires program { length program.now ≤ 1048576 }
    requires keys { HasShortKeys witness.now }
    requires allowed { AllowsPurpose (meant purpose) }
    requires none { kept.old ≡ None }
    ensures right { IfOk result (RightOnModel (meant purpose) property program.now witness.now model) }
    ensures kept { Keeps program.now kept.new }
{
    match purpose {
        Purpose::Judge(budgets) => {
            let work = Work::Judge(budgets);
            judge_text(alloc, property, program, model, witness, work, kept)
        }
        Purpose::Certify(conflicts) => {
            if holds_sets(witness) {
                let work = Work::Certify(conflicts);
                judge_text(alloc, property, program, model, witness, work, kept)
            } else {
                refuse_kind(alloc)
            }
        }
        Purpose::Recheck(certificate) => {
            if holds_sets(witness) {
                let bytes = certificate.as_slice();
                judge_certificate(alloc, property, program, model, witness, bytes, kept)
            } else {
                refuse_kind(alloc)
            }
        }
        Purpose::Weed(conflicts) => {
            if holds_sets(witness) {
                let work = Work::Weed(conflicts);
                judge_text(alloc, property, program, model, witness, work, kept)
            } else {
                refuse_kind(alloc)
            }
        }
        Purpose::Seek { turns, conflicts } => {
            let work = Work::Seek { turns, conflicts };
            judge_segments_alone(alloc, property, program, model, witness, work, kept)
        }
    }
}

/// The output where something is to be done for violation sequences alone.
#[tactic(auto, using(crate::proofs::KeptLaws::nothing_kept))]
fn judge_segments_alone(
    alloc: Global,
    property: Property,
    program: &[u8],
    model: DataModel,
    witness: &Witness,
    work: Work,
    kept: &mut Option<Program>,
) -> Result<Output, OutOfMemory>
    requires program { length program.now ≤ 1048576 }
    requires keys { HasShortKeys witness.now }
    requires allowed { AllowsWork (planned work) }
    requires none { kept.old ≡ None }
    ensures right { IfOk result (RightOnSegmentsAlone (planned work) property program.now witness.now model) }
    ensures kept { Keeps program.now kept.new }
{
    if holds_sets(witness) {
        refuse_kind(alloc)
    } else {
        judge_text(alloc, property, program, model, witness, work, kept)
    }
}

/// The refusal of a witness of the other kind.
fn refuse_kind(alloc: Global) -> Result<Output, OutOfMemory>
    ensures { IfOk result IsKind }
{
    Ok(Output::Report(refuse_plainly(alloc, "kind")?))
}

/// The output for the text of a program in a data model, invariant sets about it, and the bytes of a certificate.
#[tactic(auto, using(crate::proofs::KeptLaws::nothing_kept))]
fn judge_certificate(
    alloc: Global,
    property: Property,
    program: &[u8],
    model: DataModel,
    witness: &Witness,
    certificate: &[u8],
    kept: &mut Option<Program>,
) -> Result<Output, OutOfMemory>
    requires program { length program.now ≤ 1048576 }
    requires keys { HasShortKeys witness.now }
    requires none { kept.old ≡ None }
    ensures right { IfOk result (RightOnLogs certificate.now property program.now witness.now model) }
    ensures kept { Keeps program.now kept.new }
{
    match read_certificate(alloc, certificate) {
        Ok(logs) => {
            let work = Work::Recheck(logs);
            judge_text(alloc, property, program, model, witness, work, kept)
        }
        Err(fault) => Ok(Output::Report(refuse_certificate(alloc, fault)?)),
    }
}

/// The output for the text of a program in a data model, and a witness about it.
#[tactic(auto, using(crate::proofs::KeptLaws::nothing_kept, crate::proofs::KeptLaws::of_bytes))]
fn judge_text(
    alloc: Global,
    property: Property,
    program: &[u8],
    model: DataModel,
    witness: &Witness,
    work: Work,
    kept: &mut Option<Program>,
) -> Result<Output, OutOfMemory>
    requires program { length program.now ≤ 1048576 }
    requires keys { HasShortKeys witness.now }
    requires allowed { AllowsWork (planned work) }
    requires none { kept.old ≡ None }
    ensures right { IfOk result (RightOnText (planned work) property program.now witness.now model) }
    ensures kept { Keeps program.now kept.new }
{
    match program_tokens(alloc, program) {
        Ok(tokens) => judge_tokens(alloc, property, &tokens, model, witness, work, kept),
        Err(fault) => Ok(Output::Report(refuse_tokens(alloc, fault)?)),
    }
}

/// The output for the tokens of a program, and a witness about it.
#[tactic(auto, using(crate::proofs::KeptLaws::nothing_kept, crate::proofs::KeptLaws::of_tokens))]
fn judge_tokens(
    alloc: Global,
    property: Property,
    tokens: &Seq<Token>,
    model: DataModel,
    witness: &Witness,
    work: Work,
    kept: &mut Option<Program>,
) -> Result<Output, OutOfMemory>
    requires orderly { AreOrderly tokens.now }
    requires keys { HasShortKeys witness.now }
    requires allowed { AllowsWork (planned work) }
    requires none { kept.old ≡ None }
    ensures right { IfOk result (RightOnTokens (planned work) property witness.now model tokens.now) }
    ensures kept { KeepsOfTokens property model tokens.now kept.new }
{
    match parse(alloc, tokens) {
        Ok(source) => judge_source(alloc, property, &source, model, witness, work, kept),
        Err(fault) => Ok(Output::Report(refuse_syntax(alloc, fault)?)),
    }
}

/// The output for a source, and a witness about it.
#[tactic(auto, using(crate::proofs::KeptLaws::nothing_kept))]
fn judge_source(
    alloc: Global,
    property: Property,
    source: &Source,
    model: DataModel,
    witness: &Witness,
    work: Work,
    kept: &mut Option<Program>,
) -> Result<Output, OutOfMemory>
    requires keys { HasShortKeys witness.now }
    requires allowed { AllowsWork (planned work) }
    requires none { kept.old ≡ None }
    ensures right { IfOk result (RightOnSource (planned work) property witness.now model (source_view source.now)) }
    ensures kept { KeepsOfSource property model (source_view source.now) kept.new }
{
    match check(alloc, source, model, property) {
        Ok(program) => {
            let output = judge_checked(alloc, &program, witness, work);
            *kept = Some(program);
            output
        }
        Err(fault) => Ok(Output::Report(refuse_check(alloc, fault)?)),
    }
}

/// The output for a program, and a witness about it.
fn judge_checked(
    alloc: Global,
    program: &Program,
    witness: &Witness,
    work: Work,
) -> Result<Output, OutOfMemory>
    requires keys { HasShortKeys witness.now }
    requires allowed { AllowsWork (planned work) }
    ensures { IfOk result (RightOnWork (planned work) witness.now program.now) }
{
    match work {
        Work::Judge(budgets) => {
            let reply = judge_program(alloc, program, witness, budgets)?;
            Ok(Output::Report(reply))
        }
        Work::Certify(conflicts) => certify_sets(alloc, program, witness, conflicts),
        Work::Recheck(logs) => recheck_sets(alloc, program, witness, &logs),
        Work::Weed(conflicts) => weed_sets(alloc, program, witness, conflicts),
        Work::Seek { turns, conflicts } => seek_values(alloc, program, witness, turns, conflicts),
    }
}

fn is_set(entry: &Entry) -> bool
    ensures { result ≡ is_set entry.now }
{
    match entry.content {
        Content::Violation(_) => false,
        Content::Invariants(_) => true,
    }
}

/// Whether one of the entries is an invariant set.
fn holds_sets(witness: &Witness) -> bool
    ensures { result ≡ holds_sets witness.now }
{
    let entries = witness.entries.as_slice();
    entries.iter().any(|entry| is_set(entry))
}

/// The reply to a program, and a witness about it.
fn judge_program(
    alloc: Global,
    program: &Program,
    witness: &Witness,
    budgets: Budgets,
) -> Result<Reply, OutOfMemory>
    requires { IsAllowed (limits budgets) }
    ensures { IfOk result (RightOnProgram (limits budgets) witness.now program.now) }
{
    if holds_sets(witness) {
        judge_sets(alloc, program, witness, budgets.conflicts)
    } else {
        judge_sequence(alloc, program, witness, budgets.steps)
    }
}
