// The JSON values of replies that hold no list, and of one drawn value.
ghost use Rattle.std.specs.Prelude.{◌≡◌, IfOk, string_bytes};
ghost use Rattle.serde_json.specs.Find.{of_integer};
ghost use Rattle.serde_json.specs.View.{view, number_view};
ghost use Rattle.wv_report.specs.Json.{IsJsonInteger, cause_json, correct_json, draw_json, fault_json, refusal_json, unconfirmed_json};
ghost use Rattle.wv_report.specs.Report.{cause_text, reason_text};

use crate::lines::{add_cause, add_reason, name_of_type};
use c_meaning::{Cause, Draw, Reason};
use serde_json::{Number, Value, json};
use std::alloc::Global;
use wv_base::OutOfMemory;

fn number_of(value: i128) -> Number
    requires { IsJsonInteger value }
    ensures { number_view result ≡ of_integer value }
{
    match Number::from_i128(value) {
        Some(number) => number,
        None => unreachable!(),
    }
}

/// A drawn value with its place and type.
#[tactic(auto, unfolding(crate::specs::Json::draw_json))]
pub fn draw_value(alloc: Global, draw: &Draw) -> Result<Value, OutOfMemory>
    requires { IsJsonInteger draw.now.value }
    ensures { IfOk result (λ value. view value ≡ draw_json draw.now) }
{
    let number = number_of(draw.value);
    let name = name_of_type(draw.ty);
    let value = json!(in alloc; {
        "column": draw.spot.column,
        "line": draw.spot.line,
        "type": name,
        "value": number
    })?;
    Ok(value)
}

fn reason_words(alloc: Global, reason: Reason) -> Result<String, OutOfMemory>
    ensures { IfOk result (λ words. string_bytes words ≡ reason_text reason) }
{
    let mut words = String::new(alloc);
    add_reason(&mut words, reason)?;
    Ok(words)
}

/// Why a violation is not confirmed.
#[tactic(auto, unfolding(crate::specs::Json::unconfirmed_json))]
pub fn unconfirmed_value(alloc: Global, reason: Reason, unfixed: u64) -> Result<Value, OutOfMemory>
    ensures { IfOk result (λ value. view value ≡ unconfirmed_json reason unfixed) }
{
    let words = reason_words(alloc, reason)?;
    let value = json!(in alloc; {
        "answer": "violation not confirmed",
        "reason": words,
        "unfixed": unfixed
    })?;
    Ok(value)
}

/// How many obligations hold.
#[tactic(auto, unfolding(crate::specs::Json::correct_json))]
pub fn correct_value(alloc: Global, count: u32) -> Result<Value, OutOfMemory>
    ensures { IfOk result (λ value. view value ≡ correct_json count) }
{
    let value = json!(in alloc; {
        "answer": "correctness confirmed",
        "obligations": count
    })?;
    Ok(value)
}

fn cause_words(alloc: Global, cause: Cause) -> Result<String, OutOfMemory>
    ensures { IfOk result (λ words. string_bytes words ≡ cause_text cause) }
{
    let mut words = String::new(alloc);
    add_cause(&mut words, cause)?;
    Ok(words)
}

/// What ran out.
#[tactic(auto, unfolding(crate::specs::Json::cause_json))]
pub fn undecided_value(alloc: Global, cause: Cause) -> Result<Value, OutOfMemory>
    ensures { IfOk result (λ value. view value ≡ cause_json cause) }
{
    let words = cause_words(alloc, cause)?;
    let value = json!(in alloc; {"answer": "undecided", "cause": words})?;
    Ok(value)
}

/// A refusal by its code.
#[tactic(auto, unfolding(crate::specs::Json::refusal_json))]
pub fn refusal_value(alloc: Global, code: &str, detail: &str) -> Result<Value, OutOfMemory>
    ensures { IfOk result (λ value. view value ≡ refusal_json code.now detail.now) }
{
    let value = json!(in alloc; {"answer": "refused", "code": code, "detail": detail})?;
    Ok(value)
}

/// A file that could not be read.
#[tactic(auto, unfolding(crate::specs::Json::fault_json))]
pub fn fault_value(alloc: Global, which: &str) -> Result<Value, OutOfMemory>
    ensures { IfOk result (λ value. view value ≡ fault_json which.now) }
{
    let detail = format!(in alloc; "read {which}")?;
    let value = json!(in alloc; {"answer": "fault", "detail": detail})?;
    Ok(value)
}
