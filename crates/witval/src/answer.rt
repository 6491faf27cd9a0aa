ghost use Rattle.std.specs.Prelude.{◌≡◌, ◌≤◌, None, IfOk};
ghost use Rattle.witval.specs.Inputs.{AreWithin};
ghost use Rattle.witval.specs.Kept.{KeepsFor, KeepsOf};
ghost use Rattle.witval.specs.Purposes.{Rechecking, RightOnInputs};
ghost use Rattle.witval.specs.Replies.{CanonicalIn, IsStopped, IsStoppedAtSource, IsStoppedOfFour, Right, RightAlone, RightAuthor, RightCertificate, RightDemo, RightRecheck, RightSeek, RightVerdict, RightWeed, SummaryIn};
ghost use Rattle.witval.specs.Running.{HasIntegers};
ghost use Rattle.witval.specs.inside.Allowed.{AreAllowed, IsAllowed, IsBudget, IsSearch};
ghost use Rattle.wv_arguments.specs.Requests.{given, labelled, limits, named, stated};

use crate::authoring::{Draft, author_inputs};
use crate::canonical::canonical;
use crate::demonstration::demonstrate;
use crate::input::{FourInputs, FourStop, Stop, read_four, read_one, read_three};
use crate::judging::judge;
use crate::output::Output;
use crate::purpose::Purpose;
use crate::refusal::{
    certificate_fault, read_fault, refuse_long_certificate, refuse_long_source, refuse_plainly,
    refuse_too_long, source_fault,
};
use crate::shown::shown;
use c_core::Program;
use std::alloc::Global;
use wv_arguments::{Asked, Budgets, Label, Names, Request, Sources};
use wv_base::{OutOfMemory, ReadFault, Seq, Shelf};
use wv_report::Reply;

/// The reply where reading one of three files stopped.
fn stopped(alloc: Global, stop: Stop) -> Result<Reply, OutOfMemory>
    ensures { IfOk result (IsStopped stop) }
{
    match stop {
        Stop::Fault(file) => read_fault(alloc, file),
        Stop::TooLong(file) => refuse_too_long(alloc, file),
        Stop::OutOfMemory => Err(OutOfMemory),
    }
}

/// The reply where reading three files and a certificate stopped.
fn stopped_of_four(alloc: Global, stop: FourStop) -> Result<Reply, OutOfMemory>
    ensures { IfOk result (IsStoppedOfFour stop) }
{
    match stop {
        FourStop::Three(stop) => stopped(alloc, stop),
        FourStop::Certificate(ReadFault::Fault) => certificate_fault(alloc),
        FourStop::Certificate(ReadFault::TooLong) => refuse_long_certificate(alloc),
        FourStop::Certificate(ReadFault::OutOfMemory) => Err(OutOfMemory),
    }
}

/// The reply where reading the three files of a violation witness that is made stopped.
fn stopped_at_source(alloc: Global, stop: Stop) -> Result<Reply, OutOfMemory>
    ensures { IfOk result (IsStoppedAtSource stop) }
{
    match stop {
        Stop::Fault(file) => source_fault(alloc, file),
        Stop::TooLong(file) => refuse_long_source(alloc, file),
        Stop::OutOfMemory => Err(OutOfMemory),
    }
}

/// The verdict on a program, a property and a witness; the checked program is kept.
#[tactic(auto, using(crate::proofs::KeptLaws::nothing_kept))]
fn validate<S: Shelf>(
    alloc: Global,
    names: &Names<'_>,
    budgets: Budgets,
    shelf: &mut S,
    kept: &mut Option<Program>,
) -> Result<Output, OutOfMemory>
    requires allowed { IsAllowed (limits budgets) }
    requires none { kept.old ≡ None }
    ensures right { IfOk result (RightVerdict (named names.now) (limits budgets) (S.state shelf.old)
        (S.state shelf.new)) }
    ensures integers { IfOk result HasIntegers }
    ensures same_files { (S.state shelf.new).files ≡ (S.state shelf.old).files }
    ensures kept { KeepsOf (named names.now).program (S.state shelf.old) kept.new }
{
    match read_three(alloc, names, shelf) {
        Ok(inputs) => judge(alloc, &inputs, Purpose::Judge(budgets), kept),
        Err(stop) => Ok(Output::Report(stopped(alloc, stop)?)),
    }
}

/// The certificate of a program, a property and a witness.
fn certify<S: Shelf>(
    alloc: Global,
    names: &Names<'_>,
    conflicts: u64,
    shelf: &mut S,
) -> Result<Output, OutOfMemory>
    requires { IsBudget conflicts }
    ensures right { IfOk result (RightCertificate (named names.now) conflicts (S.state shelf.old) (S.state shelf.new)) }
    ensures integers { IfOk result HasIntegers }
    ensures same_files { (S.state shelf.new).files ≡ (S.state shelf.old).files }
{
    match read_three(alloc, names, shelf) {
        Ok(inputs) => judge(alloc, &inputs, Purpose::Certify(conflicts), &mut None),
        Err(stop) => Ok(Output::Report(stopped(alloc, stop)?)),
    }
}

/// What comes of checking a certificate again.
fn recheck_four(alloc: Global, four: FourInputs) -> Result<Output, OutOfMemory>
    requires { AreWithin four.inputs }
    ensures { IfOk result
        (RightOnInputs (Rechecking four.certificate.items) four.inputs.program.items four.inputs.property.items
        four.inputs.witness.items) }
{
    let certificate = Seq::from_vec(four.certificate);
    judge(
        alloc,
        &four.inputs,
        Purpose::Recheck(certificate),
        &mut None,
    )
}

/// A certificate of a program, a property and a witness, checked again.
fn recheck<S: Shelf>(
    alloc: Global,
    names: &Names<'_>,
    certificate: &str,
    shelf: &mut S,
) -> Result<Output, OutOfMemory>
    ensures right { IfOk result (RightRecheck (named names.now) certificate.now (S.state shelf.old)
        (S.state shelf.new)) }
    ensures integers { IfOk result HasIntegers }
    ensures same_files { (S.state shelf.new).files ≡ (S.state shelf.old).files }
{
    match read_four(alloc, names, certificate, shelf) {
        Ok(four) => recheck_four(alloc, four),
        Err(stop) => Ok(Output::Report(stopped_of_four(alloc, stop)?)),
    }
}

/// A witness with the invariants that hold up together, and no others.
fn weed<S: Shelf>(
    alloc: Global,
    names: &Names<'_>,
    conflicts: u64,
    shelf: &mut S,
) -> Result<Output, OutOfMemory>
    requires { IsBudget conflicts }
    ensures right { IfOk result (RightWeed (named names.now) conflicts (S.state shelf.old) (S.state shelf.new)) }
    ensures integers { IfOk result HasIntegers }
    ensures same_files { (S.state shelf.new).files ≡ (S.state shelf.old).files }
{
    match read_three(alloc, names, shelf) {
        Ok(inputs) => judge(alloc, &inputs, Purpose::Weed(conflicts), &mut None),
        Err(stop) => Ok(Output::Report(stopped(alloc, stop)?)),
    }
}

/// The same number, which is small.
fn turns_of(turns: u64) -> u32
    requires { turns ≤ 64 }
    ensures { result ≡ turns }
{
    turns as u32
}

/// Values for the open inputs of a violation witness; the checked program is kept.
#[tactic(auto, using(crate::proofs::KeptLaws::nothing_kept))]
fn seek<S: Shelf>(
    alloc: Global,
    names: &Names<'_>,
    turns: u64,
    conflicts: u64,
    shelf: &mut S,
    kept: &mut Option<Program>,
) -> Result<Output, OutOfMemory>
    requires allowed { IsSearch turns conflicts }
    requires none { kept.old ≡ None }
    ensures right { IfOk result (RightSeek (named names.now) turns conflicts (S.state shelf.old) (S.state shelf.new)) }
    ensures integers { IfOk result HasIntegers }
    ensures same_files { (S.state shelf.new).files ≡ (S.state shelf.old).files }
    ensures kept { KeepsOf (named names.now).program (S.state shelf.old) kept.new }
{
    let turns = turns_of(turns);
    match read_three(alloc, names, shelf) {
        Ok(inputs) => judge(alloc, &inputs, Purpose::Seek { turns, conflicts }, kept),
        Err(stop) => Ok(Output::Report(stopped(alloc, stop)?)),
    }
}

/// The violation witness of the run of a program that takes values in turn.
fn author<S: Shelf>(
    alloc: Global,
    sources: &Sources<'_>,
    label: &Label<'_>,
    steps: u64,
    shelf: &mut S,
) -> Result<Output, OutOfMemory>
    ensures right { IfOk result (RightAuthor (given sources.now) (labelled label.now) steps (S.state shelf.old)
        (S.state shelf.new)) }
    ensures integers { IfOk result HasIntegers }
    ensures same_files { (S.state shelf.new).files ≡ (S.state shelf.old).files }
{
    let names = Names {
        program: sources.program,
        property: sources.property,
        witness: sources.values,
    };
    let draft = Draft {
        file: sources.program,
        label: *label,
        steps,
    };
    match read_three(alloc, &names, shelf) {
        Ok(inputs) => author_inputs(alloc, &inputs, &draft),
        Err(stop) => Ok(Output::Report(stopped_at_source(alloc, stop)?)),
    }
}

/// The canonical form of a witness, or why there is none.
fn normalise<S: Shelf>(alloc: Global, name: &str, shelf: &mut S) -> Result<Output, OutOfMemory>
    ensures right { IfOk result (RightAlone CanonicalIn name.now (S.state shelf.old) (S.state shelf.new)) }
    ensures same_files { (S.state shelf.new).files ≡ (S.state shelf.old).files }
{
    match read_one(alloc, name, shelf) {
        Ok(bytes) => canonical(alloc, &bytes),
        Err(Stop::Fault(file)) => Ok(Output::Report(read_fault(alloc, file)?)),
        Err(Stop::TooLong(file)) => Ok(Output::Report(refuse_too_long(alloc, file)?)),
        Err(Stop::OutOfMemory) => Err(OutOfMemory),
    }
}

/// The summary of a witness, or why there is none.
fn show<S: Shelf>(alloc: Global, name: &str, shelf: &mut S) -> Result<Output, OutOfMemory>
    ensures right { IfOk result (RightAlone SummaryIn name.now (S.state shelf.old) (S.state shelf.new)) }
    ensures same_files { (S.state shelf.new).files ≡ (S.state shelf.old).files }
{
    match read_one(alloc, name, shelf) {
        Ok(bytes) => shown(alloc, &bytes),
        Err(Stop::Fault(file)) => Ok(Output::Report(read_fault(alloc, file)?)),
        Err(Stop::TooLong(file)) => Ok(Output::Report(refuse_too_long(alloc, file)?)),
        Err(Stop::OutOfMemory) => Err(OutOfMemory),
    }
}

/// The demo of a number.
fn demo(alloc: Global, number: u64, budgets: Budgets) -> Result<Output, OutOfMemory>
    requires number { number ≤ 999999 }
    requires allowed { IsAllowed (limits budgets) }
    ensures { IfOk result (RightDemo number (limits budgets)) }
{
    let number = number as u32;
    Ok(Output::Demo(demonstrate(alloc, number, budgets)?))
}

/// The output for what is asked, over the files of the shelf.
pub fn answer<S: Shelf>(
    alloc: Global,
    asked: &Asked<'_>,
    shelf: &mut S,
    kept: &mut Option<Program>,
) -> Result<Output, OutOfMemory>
    requires allowed { AreAllowed (stated asked.now).wanted }
    requires none { kept.old ≡ None }
    ensures right { IfOk result (Right (stated asked.now).wanted (S.state shelf.old) (S.state shelf.new)) }
    ensures integers { IfOk result HasIntegers }
    ensures same_files { (S.state shelf.new).files ≡ (S.state shelf.old).files }
    ensures kept { KeepsFor (stated asked.now).wanted (S.state shelf.old) kept.new }
{
    match asked.request {
        Some(Request::Validate { names, budgets }) => validate(alloc, &names, budgets, shelf, kept),
        Some(Request::Normalise(name)) => normalise(alloc, name, shelf),
        Some(Request::Show(name)) => show(alloc, name, shelf),
        Some(Request::Demo { number, budgets }) => demo(alloc, number, budgets),
        Some(Request::Certify { names, conflicts }) => certify(alloc, &names, conflicts, shelf),
        Some(Request::Recheck { names, certificate }) => recheck(alloc, &names, certificate, shelf),
        Some(
            Request::Author {
                sources,
                label,
                steps,
            },
        ) => author(alloc, &sources, &label, steps, shelf),
        Some(Request::Weed { names, conflicts }) => weed(alloc, &names, conflicts, shelf),
        Some(
            Request::Seek {
                names,
                turns,
                conflicts,
            },
        ) => seek(alloc, &names, turns, conflicts, shelf, kept),
        None => Ok(Output::Report(refuse_plainly(alloc, "usage")?)),
    }
}
