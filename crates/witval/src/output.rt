ghost use Rattle.std.specs.Prelude.{◌≡◌, IfOk};
ghost use Rattle.wv_report.specs.Json.{HasJsonIntegers};
ghost use Rattle.witval.specs.Running.{HasIntegers, bytes_by, recheck_status, recheck_text, report_by, searched_status, searched_text, status_by, unviolated_text};

use crate::demonstration::{Demonstration, status_of_demo, text_of_demo};
use c_core::Spot;
use c_meaning::Draw;
use std::alloc::Global;
use wv_base::{OutOfMemory, Seq};
use wv_cert::Rechecked;
use wv_report::{Reply, found, json, status, text};

/// How a run ends that neither violates the property nor goes beyond a bound.
#[derive(Clone, Copy, Debug, PartialEq, Eq)]
pub enum Unviolated {
    Ended,
    Undefined(Spot),
}

/// What a search for values came to: the draws of a run and the event of each segment, counted from 0; that there are
/// none with so many turns and calls; or that a budget of conflicts was spent.
#[derive(Drop)]
pub enum Searched {
    Found {
        draws: Seq<Draw>,
        positions: Seq<u64>,
    },
    NoneWithin(u32),
    Spent(u64),
}

/// What is written: the report of a reply, the canonical form of a witness, its summary, the lines of a demo, a
/// certificate, what checking one again came to, why there is no violation witness of a run, or what a search came to.
#[derive(Drop)]
pub enum Output {
    Report(Reply),
    Canonical(Seq<u8>),
    Summary(Seq<u8>),
    Demo(Demonstration),
    Certificate(Seq<u8>),
    Rechecked(Rechecked),
    Unviolated(Unviolated),
    Searched(Searched),
}

fn status_of_recheck(answer: &Rechecked) -> u8
    ensures { result ≡ recheck_status answer.now }
{
    match answer {
        Rechecked::Yes { .. } => 0,
        Rechecked::No { .. } | Rechecked::Count { .. } => 1,
    }
}

/// The lines of a certificate that was checked again.
fn text_of_recheck(alloc: Global, answer: &Rechecked) -> Result<Vec<u8>, OutOfMemory>
    ensures { IfOk result (λ bytes. bytes.items ≡ recheck_text answer.now) }
{
    match answer {
        Rechecked::Yes { count } => {
            let text = format!(in alloc; "certificate accepted\nobligations {count}\n")?;
            Ok(text.into_bytes())
        }
        Rechecked::No { index } => {
            let text = format!(in alloc; "certificate refused\nobligation {index}\n")?;
            Ok(text.into_bytes())
        }
        Rechecked::Count { expected, found } => {
            let mut text = format!(in alloc; "certificate refused\nobligations {expected}")?;
            write!(text, " found {found}\n")?;
            Ok(text.into_bytes())
        }
    }
}

/// The lines for a run that doesn't violate the property.
fn text_of_unviolated(alloc: Global, why: Unviolated) -> Result<Vec<u8>, OutOfMemory>
    ensures { IfOk result (λ bytes. bytes.items ≡ unviolated_text why) }
{
    match why {
        Unviolated::Ended => {
            let text = String::from_str(alloc, "no violation\nreason ended\n")?;
            Ok(text.into_bytes())
        }
        Unviolated::Undefined(spot) => {
            let line = spot.line;
            let column = spot.column;
            let mut text = format!(in alloc; "no violation\nreason undefined {line}")?;
            write!(text, ":{column}\n")?;
            Ok(text.into_bytes())
        }
    }
}

fn status_of_search(found: &Searched) -> u8
    ensures { result ≡ searched_status found.now }
{
    match found {
        Searched::Found { .. } => 0,
        Searched::NoneWithin(_) => 1,
        Searched::Spent(_) => 2,
    }
}

/// The lines of what a search came to.
fn text_of_search(alloc: Global, searched: &Searched) -> Result<Vec<u8>, OutOfMemory>
    ensures { IfOk result (λ bytes. bytes.items ≡ searched_text searched.now) }
{
    match searched {
        Searched::Found { draws, positions } => {
            found(alloc, draws.as_slice(), positions.as_slice())
        }
        Searched::NoneWithin(turns) => {
            let text = format!(in alloc; "no values within {turns}\n")?;
            Ok(text.into_bytes())
        }
        Searched::Spent(conflicts) => {
            let text = format!(in alloc; "undecided conflicts {conflicts}\n")?;
            Ok(text.into_bytes())
        }
    }
}

/// The status that the program ends with where the output is written.
pub fn status_of(output: &Output) -> u8
    ensures { result ≡ status_by output.now }
{
    match output {
        Output::Report(reply) => status(reply),
        Output::Canonical(_) | Output::Summary(_) | Output::Certificate(_) => 0,
        Output::Demo(demo) => status_of_demo(demo),
        Output::Rechecked(answer) => status_of_recheck(answer),
        Output::Unviolated(_) => 1,
        Output::Searched(found) => status_of_search(found),
    }
}

/// The report of a reply, as JSON or as text.
fn report(alloc: Global, reply: &Reply, is_json: bool) -> Result<Vec<u8>, OutOfMemory>
    requires { HasJsonIntegers reply.now }
    ensures { IfOk result (λ bytes. bytes.items ≡ report_by is_json reply.now) }
{
    if is_json {
        json(alloc, reply)
    } else {
        text(alloc, reply)
    }
}

/// The bytes of an output; the flag asks for reports in JSON.
pub fn bytes_of(alloc: Global, output: Output, is_json: bool) -> Result<Seq<u8>, OutOfMemory>
    requires { HasIntegers output }
    ensures { IfOk result (λ bytes. bytes ≡ bytes_by is_json output) }
{
    match output {
        Output::Report(reply) => Ok(Seq::from_vec(report(alloc, &reply, is_json)?)),
        Output::Canonical(bytes) => Ok(bytes),
        Output::Summary(bytes) => Ok(bytes),
        Output::Demo(demo) => Ok(Seq::from_vec(text_of_demo(alloc, &demo)?)),
        Output::Certificate(bytes) => Ok(bytes),
        Output::Rechecked(answer) => Ok(Seq::from_vec(text_of_recheck(alloc, &answer)?)),
        Output::Unviolated(why) => Ok(Seq::from_vec(text_of_unviolated(alloc, why)?)),
        Output::Searched(found) => Ok(Seq::from_vec(text_of_search(alloc, &found)?)),
    }
}
