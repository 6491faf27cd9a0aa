// The JSON report, written as text: drawn values and positions one after the other, so that a long list takes the
// memory of its text.
ghost use Rattle.std.specs.Prelude.{◌≡◌, ◌++◌, OnOk, false, string_bytes};
ghost use Rattle.std.specs.List.{All};
ghost use Rattle.serde_json.specs.Data.{string};
ghost use Rattle.serde_json.specs.View.{view};
ghost use Rattle.serde_json.specs.Written.{comma_if, compact_text, has_float};
ghost use Rattle.wv_report.specs.Json.{IsJsonInteger, confirmed_json, count_json, draw_json, draws_json, incorrect_json, positions_json, reply_draws, reply_json, verdict_draws, verdict_json};
ghost use Rattle.wv_report.specs.Report.{kind_name};

use crate::Reply;
use crate::lines::name_of_kind;
use crate::values::{
    correct_value, draw_value, fault_value, refusal_value, unconfirmed_value, undecided_value,
};
use c_meaning::{Draw, Duty, DutyKind, Verdict};
use serde_json::{Value, json};
use std::alloc::Global;
use wv_base::OutOfMemory;

fn add_value(alloc: Global, out: &mut String, value: &Value) -> Result<(), OutOfMemory>
    requires { has_float (view value.now) ≡ false }
    ensures { OnOk result (string_bytes out.new ≡ string_bytes out.old ++ compact_text (view value.now)) }
{
    let text = value.to_string(alloc)?;
    out.push_str(text.as_str())?;
    Ok(())
}

fn add_comma(out: &mut String, later: bool) -> Result<(), OutOfMemory>
    ensures { OnOk result (string_bytes out.new ≡ string_bytes out.old ++ comma_if later) }
{
    if later {
        out.push_str(",")?;
    }
    Ok(())
}

#[tactic(auto, using(crate::proofs::Floats::of_draw))]
fn add_draw(alloc: Global, out: &mut String, later: bool, draw: &Draw) -> Result<(), OutOfMemory>
    requires { IsJsonInteger draw.now.value }
    ensures { OnOk result
        (string_bytes out.new ≡ string_bytes out.old ++ (comma_if later ++ compact_text (draw_json draw.now))) }
{
    add_comma(out, later)?;
    let value = draw_value(alloc, draw)?;
    add_value(alloc, out, &value)
}

fn add_draws(alloc: Global, out: &mut String, draws: &[Draw]) -> Result<(), OutOfMemory>
    requires { All (λ draw. IsJsonInteger draw.value) draws.now }
    ensures { OnOk result (string_bytes out.new ≡ string_bytes out.old ++ compact_text (draws_json draws.now)) }
{
    out.push_str("[")?;
    let mut later = false;
    for draw in draws {
        add_draw(alloc, out, later, draw)?;
        later = true;
    }
    out.push_str("]")?;
    Ok(())
}

fn add_position(
    alloc: Global,
    out: &mut String,
    later: bool,
    position: u64,
) -> Result<(), OutOfMemory>
    ensures { OnOk result
        (string_bytes out.new ≡ string_bytes out.old ++ (comma_if later ++ compact_text (count_json position))) }
{
    add_comma(out, later)?;
    let value = Value::from(position);
    add_value(alloc, out, &value)
}

fn add_positions(alloc: Global, out: &mut String, positions: &[u64]) -> Result<(), OutOfMemory>
    ensures { OnOk result (string_bytes out.new ≡ string_bytes out.old ++ compact_text (positions_json positions.now)) }
{
    out.push_str("[")?;
    let mut later = false;
    for position in positions {
        add_position(alloc, out, later, *position)?;
        later = true;
    }
    out.push_str("]")?;
    Ok(())
}

fn add_confirmed(
    alloc: Global,
    out: &mut String,
    draws: &[Draw],
    positions: &[u64],
) -> Result<(), OutOfMemory>
    requires { All (λ draw. IsJsonInteger draw.value) draws.now }
    ensures { OnOk result
        (string_bytes out.new ≡ string_bytes out.old ++ compact_text (confirmed_json draws.now positions.now)) }
{
    out.push_str("{\"answer\":\"violation confirmed\",\"positions\":")?;
    add_positions(alloc, out, positions)?;
    out.push_str(",\"values\":")?;
    add_draws(alloc, out, draws)?;
    out.push_str("}")?;
    Ok(())
}

fn add_kind(alloc: Global, out: &mut String, kind: DutyKind) -> Result<(), OutOfMemory>
    ensures { OnOk result (string_bytes out.new ≡ string_bytes out.old ++ compact_text (string (kind_name kind))) }
{
    let name = name_of_kind(kind);
    let value = json!(in alloc; name)?;
    add_value(alloc, out, &value)
}

fn add_incorrect(
    alloc: Global,
    out: &mut String,
    index: u32,
    duty: Duty,
    draws: &[Draw],
) -> Result<(), OutOfMemory>
    requires { All (λ draw. IsJsonInteger draw.value) draws.now }
    ensures { OnOk result
        (string_bytes out.new ≡ string_bytes out.old ++ compact_text (incorrect_json index duty draws.now)) }
{
    let column = duty.spot.column;
    let line = duty.spot.line;
    out.push_str("{\"answer\":\"correctness not confirmed\",\"column\":")?;
    write!(out, "{column},\"kind\":")?;
    add_kind(alloc, out, duty.kind)?;
    write!(out, ",\"line\":{line},\"obligation\":{index},\"values\":")?;
    add_draws(alloc, out, draws)?;
    out.push_str("}")?;
    Ok(())
}

#[tactic(auto, unfolding(crate::specs::Json::verdict_json), using(crate::proofs::Floats::of_unconfirmed, crate::proofs::Floats::of_correct, crate::proofs::Floats::of_cause))]
fn add_verdict(alloc: Global, out: &mut String, verdict: &Verdict) -> Result<(), OutOfMemory>
    requires { All (λ draw. IsJsonInteger draw.value) (verdict_draws verdict.now) }
    ensures { OnOk result (string_bytes out.new ≡ string_bytes out.old ++ compact_text (verdict_json verdict.now)) }
{
    match verdict {
        Verdict::ViolationConfirmed { draws, positions } => {
            add_confirmed(alloc, out, draws.as_slice(), positions.as_slice())
        }
        Verdict::ViolationNot { reason, unfixed } => {
            let value = unconfirmed_value(alloc, *reason, *unfixed)?;
            add_value(alloc, out, &value)
        }
        Verdict::CorrectnessConfirmed { count } => {
            let value = correct_value(alloc, *count)?;
            add_value(alloc, out, &value)
        }
        Verdict::CorrectnessNot { index, duty, draws } => {
            add_incorrect(alloc, out, *index, *duty, draws.as_slice())
        }
        Verdict::Undecided(cause) => {
            let value = undecided_value(alloc, *cause)?;
            add_value(alloc, out, &value)
        }
    }
}

/// The object of a reply.
#[tactic(auto, unfolding(crate::specs::Json::reply_json), using(crate::proofs::Floats::of_refusal, crate::proofs::Floats::of_fault))]
pub fn add_reply(alloc: Global, out: &mut String, reply: &Reply) -> Result<(), OutOfMemory>
    requires { All (λ draw. IsJsonInteger draw.value) (reply_draws reply.now) }
    ensures { OnOk result (string_bytes out.new ≡ string_bytes out.old ++ compact_text (reply_json reply.now)) }
{
    match reply {
        Reply::Verdict(verdict) => add_verdict(alloc, out, verdict),
        Reply::Refused { code, detail } => {
            let value = refusal_value(alloc, code.as_str(), detail.as_str())?;
            add_value(alloc, out, &value)
        }
        Reply::ReadFault(which) => {
            let value = fault_value(alloc, which.as_str())?;
            add_value(alloc, out, &value)
        }
    }
}
