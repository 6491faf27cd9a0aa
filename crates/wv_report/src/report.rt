ghost use Rattle.std.specs.Prelude.{◌≡◌, ◌++◌, IfOk, OnOk, string_bytes};
ghost use Rattle.wv_report.specs.Json.{HasJsonIntegers, json_of};
ghost use Rattle.wv_report.specs.Report.{found_text, text_of, verdict_lines};

use crate::Reply;
use crate::lines::{
    add_obligation, add_reason_line, add_refusal, add_segments, add_undecided, add_values,
};
use crate::written::add_reply;
use c_meaning::{Draw, Verdict};
use std::alloc::Global;
use wv_base::OutOfMemory;

/// The whole text report of a reply.
pub fn text(alloc: Global, reply: &Reply) -> Result<Vec<u8>, OutOfMemory>
    ensures { IfOk result (λ bytes. bytes.items ≡ text_of reply.now) }
{
    let mut out = String::new(alloc);
    match reply {
        Reply::Verdict(verdict) => add_verdict(&mut out, verdict)?,
        Reply::Refused { code, detail } => add_refusal(&mut out, code.as_str(), detail.as_str())?,
        Reply::ReadFault(which) => {
            let which = which.as_str();
            write!(out, "fault read {which}\n")?;
        }
    }
    Ok(out.into_bytes())
}

/// The whole JSON report of a reply.
#[tactic(auto, unfolding(crate::specs::Json::json_of))]
pub fn json(alloc: Global, reply: &Reply) -> Result<Vec<u8>, OutOfMemory>
    requires { HasJsonIntegers reply.now }
    ensures { IfOk result (λ bytes. bytes.items ≡ json_of reply.now) }
{
    let mut out = String::new(alloc);
    add_reply(alloc, &mut out, reply)?;
    out.push_str("\n")?;
    Ok(out.into_bytes())
}

fn add_found(out: &mut String, draws: &[Draw], positions: &[u64]) -> Result<(), OutOfMemory>
    ensures { OnOk result (string_bytes out.new ≡ string_bytes out.old ++ found_text draws.now positions.now) }
{
    out.push_str("values found\n")?;
    add_values(out, draws)?;
    add_segments(out, positions)?;
    Ok(())
}

/// The lines of values that were found: each draw, and the event of each segment, numbered from 1.
pub fn found(alloc: Global, draws: &[Draw], positions: &[u64]) -> Result<Vec<u8>, OutOfMemory>
    ensures { IfOk result (λ bytes. bytes.items ≡ found_text draws.now positions.now) }
{
    let mut out = String::new(alloc);
    add_found(&mut out, draws, positions)?;
    Ok(out.into_bytes())
}

fn add_verdict(out: &mut String, verdict: &Verdict) -> Result<(), OutOfMemory>
    ensures { OnOk result (string_bytes out.new ≡ string_bytes out.old ++ verdict_lines verdict.now) }
{
    match verdict {
        Verdict::ViolationConfirmed { draws, positions } => {
            out.push_str("violation confirmed\n")?;
            add_values(out, draws.as_slice())?;
            add_segments(out, positions.as_slice())?;
        }
        Verdict::ViolationNot { reason, unfixed } => {
            out.push_str("violation not confirmed\n")?;
            add_reason_line(out, *reason)?;
            write!(out, "unfixed {unfixed}\n")?;
        }
        Verdict::CorrectnessConfirmed { count } => {
            write!(out, "correctness confirmed\nobligations {count}\n")?;
        }
        Verdict::CorrectnessNot { index, duty, draws } => {
            out.push_str("correctness not confirmed\n")?;
            add_obligation(out, *index, *duty)?;
            add_values(out, draws.as_slice())?;
        }
        Verdict::Undecided(cause) => add_undecided(out, *cause)?,
    }
    Ok(())
}
