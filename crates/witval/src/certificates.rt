// The output for invariant sets where a certificate is wanted, and where one is checked again.
ghost use Rattle.std.specs.Prelude.{◌≤◌, IfOk};
ghost use Rattle.std.specs.List.{All};
ghost use Rattle.c_core.specs.View.{program_view};
ghost use Rattle.c_meaning.specs.Placing.{IsInvariant, placed_view};
ghost use Rattle.judge_obligations.specs.Verdicts.{AreObligationsOf};
ghost use Rattle.sym_duties.specs.Answers.{CanBeJudged};
ghost use Rattle.witval.specs.Certificates.{Certifies, CertifiesPlaced, CertifiesSets, Rechecks, RechecksPlaced, RechecksSets};

use crate::output::Output;
use crate::refusal::{refuse_bind, refuse_obligations};
use crate::sets::verdict_of;
use c_core::Program;
use c_lifting::runs_are_lifted;
use c_meaning::PlacedInvariant;
use clauses::Refutation;
use judge_obligations::{Logged, judge_logged};
use std::alloc::Global;
use sym_duties::Obligations;
use sym_eval::obligations;
use way_invariants::bind_correctness;
use wv_base::{OutOfMemory, Seq};
use wv_cert::{certify, recheck};
use wv_report::Reply;
use wv_schema::Witness;

/// The output for a program and invariant sets about it: a certificate where they are confirmed.
pub fn certify_sets(
    alloc: Global,
    program: &Program,
    witness: &Witness,
    conflicts: u64,
) -> Result<Output, OutOfMemory>
    requires some { 1 ≤ conflicts }
    requires bounded { conflicts ≤ 1000000 }
    ensures { IfOk result (CertifiesSets conflicts witness.now program.now) }
{
    match bind_correctness(alloc, witness, program) {
        Ok(invariants) => certify_placed(alloc, program, &invariants, conflicts),
        Err(fault) => Ok(Output::Report(refuse_bind(alloc, fault)?)),
    }
}

/// The same for invariants bound to the program.
fn certify_placed(
    alloc: Global,
    program: &Program,
    invariants: &Seq<PlacedInvariant>,
    conflicts: u64,
) -> Result<Output, OutOfMemory>
    requires invariants { All (IsInvariant (program_view program.now)) (placed_view invariants.now) }
    requires some { 1 ≤ conflicts }
    requires bounded { conflicts ≤ 1000000 }
    ensures { IfOk result (CertifiesPlaced conflicts program.now (placed_view invariants.now)) }
{
    match obligations(alloc, program, invariants) {
        Ok(found) => certify_found(alloc, program, invariants, &found, conflicts),
        Err(fault) => Ok(Output::Report(refuse_obligations(alloc, fault)?)),
    }
}

/// The same for their obligations.
fn certify_found(
    alloc: Global,
    program: &Program,
    invariants: &Seq<PlacedInvariant>,
    found: &Obligations,
    conflicts: u64,
) -> Result<Output, OutOfMemory>
    requires judged { CanBeJudged (program_view program.now) (placed_view invariants.now) }
    requires promised { AreObligationsOf (program_view program.now) (placed_view invariants.now) found.now }
    requires some { 1 ≤ conflicts }
    requires bounded { conflicts ≤ 1000000 }
    ensures { IfOk result (Certifies conflicts (program_view program.now) (placed_view invariants.now) found.now) }
{
    runs_are_lifted();
    match judge_logged(alloc, program, invariants, found, conflicts)? {
        Logged::Proved(logs) => {
            let text = certify(alloc, &logs)?;
            Ok(Output::Certificate(Seq::from_vec(text)))
        }
        Logged::Other(judged) => Ok(Output::Report(Reply::Verdict(verdict_of(judged)))),
    }
}

/// The output for a program, invariant sets about it, and the logs of a certificate.
pub fn recheck_sets(
    alloc: Global,
    program: &Program,
    witness: &Witness,
    logs: &Seq<Refutation>,
) -> Result<Output, OutOfMemory>
    ensures { IfOk result (RechecksSets logs.now witness.now program.now) }
{
    match bind_correctness(alloc, witness, program) {
        Ok(invariants) => recheck_placed(alloc, program, &invariants, logs),
        Err(fault) => Ok(Output::Report(refuse_bind(alloc, fault)?)),
    }
}

/// The same for invariants bound to the program.
fn recheck_placed(
    alloc: Global,
    program: &Program,
    invariants: &Seq<PlacedInvariant>,
    logs: &Seq<Refutation>,
) -> Result<Output, OutOfMemory>
    requires { All (IsInvariant (program_view program.now)) (placed_view invariants.now) }
    ensures { IfOk result (RechecksPlaced logs.now program.now (placed_view invariants.now)) }
{
    match obligations(alloc, program, invariants) {
        Ok(found) => recheck_found(alloc, program, invariants, &found, logs),
        Err(fault) => Ok(Output::Report(refuse_obligations(alloc, fault)?)),
    }
}

/// The same for their obligations.
fn recheck_found(
    alloc: Global,
    program: &Program,
    invariants: &Seq<PlacedInvariant>,
    found: &Obligations,
    logs: &Seq<Refutation>,
) -> Result<Output, OutOfMemory>
    requires judged { CanBeJudged (program_view program.now) (placed_view invariants.now) }
    requires promised { AreObligationsOf (program_view program.now) (placed_view invariants.now) found.now }
    ensures { IfOk result (Rechecks (program_view program.now) (placed_view invariants.now) logs.now found.now) }
{
    let answer = recheck(alloc, program, invariants, found, logs)?;
    Ok(Output::Rechecked(answer))
}
