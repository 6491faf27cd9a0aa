// The demo of a number: both of its programs are judged, with a line for each.
ghost use Rattle.std.specs.Prelude.{◌≡◌, ◌≤◌, ◌++◌, IfOk, OnOk, length, string_bytes};
ghost use Rattle.sha2.specs.Sha256.{sha256};
ghost use Rattle.c_core.specs.declared.number.DataModel.TheVariants.{Ilp32};
ghost use Rattle.c_core.specs.declared.number.Property.TheVariants.{UnreachCall};
ghost use Rattle.wv_arguments.specs.Requests.{limits};
ghost use Rattle.wv_author.specs.Demo.{CanBeWritten};
ghost use Rattle.wv_task.specs.Task.{judged};
ghost use Rattle.witval.specs.Demos.{IsDemonstration, RightOnMade, RightOnRead, demo_status, demo_text, drawn_values, first_line, numbers_of, told_line};
ghost use Rattle.witval.specs.declared.output.Output.TheVariants.{Report};
ghost use Rattle.witval.specs.inside.Allowed.{IsAllowed};
ghost use Rattle.witval.specs.inside.Reports.{IsReport};

use crate::judging::judge_bytes;
use crate::output::Output;
use crate::purpose::Purpose;
use c_core::Property;
use c_meaning::{Draw, Verdict};
use std::alloc::Global;
use wv_arguments::Budgets;
use wv_author::demo;
use wv_base::{OutOfMemory, Text};
use wv_report::{Reply, status, text};
use wv_schema::{Witness, tree_of};
use wv_yaml::write;

/// A number, and the replies to the two programs of its demo.
#[derive(Drop)]
pub struct Demonstration {
    pub number: u32,
    pub correct: Reply,
    pub faulty: Reply,
}

/// The reply to a program and a witness that are made, by the way that files of these bytes take once they are read.
fn judge_made(
    alloc: Global,
    program: &Text,
    witness: &Witness,
    budgets: Budgets,
) -> Result<Reply, OutOfMemory>
    requires program { length program.now ≤ 1048576 }
    requires written { CanBeWritten witness.now }
    requires task { judged (sha256 program.now) UnreachCall witness.now.entries ≡ Ok Ilp32 }
    requires allowed { IsAllowed (limits budgets) }
    ensures as_files { IfOk result (RightOnMade (limits budgets) program.now witness.now) }
    ensures past_task { IfOk result (RightOnRead (limits budgets) program.now witness.now) }
{
    let tree = tree_of(alloc, witness)?;
    let bytes = write(alloc, &tree)?;
    let output = judge_bytes(
        alloc,
        Property::UnreachCall,
        program.as_str().as_bytes(),
        &bytes,
        Purpose::Judge(budgets),
        &mut None,
    )?;
    Ok(reply_of(output))
}

/// The reply of a report.
fn reply_of(output: Output) -> Reply
    requires { IsReport output }
    ensures { output ≡ Report result }
{
    match output {
        Output::Report(reply) => reply,
        _ => unreachable!(),
    }
}

/// The demo of a number.
pub fn demonstrate(
    alloc: Global,
    number: u32,
    budgets: Budgets,
) -> Result<Demonstration, OutOfMemory>
    requires number { number ≤ 999999 }
    requires allowed { IsAllowed (limits budgets) }
    ensures { IfOk result (IsDemonstration number (limits budgets)) }
{
    let made = demo(alloc, number)?;
    let correct = judge_made(alloc, &made.correct, &made.invariants, budgets)?;
    let faulty = judge_made(alloc, &made.faulty, &made.violation, budgets)?;
    Ok(Demonstration {
        number,
        correct,
        faulty,
    })
}

/// The status that the demo ends with: 0 where both replies confirm, 2 where one is undecided, else 1.
pub fn status_of_demo(demo: &Demonstration) -> u8
    ensures { result ≡ demo_status demo.now }
{
    let correct = status(&demo.correct);
    let faulty = status(&demo.faulty);
    if correct == 0 && faulty == 0 {
        0
    } else if correct == 2 || faulty == 2 {
        2
    } else {
        1
    }
}

fn first_line(report: &[u8]) -> &[u8]
    ensures { result.now ≡ first_line report.now }
{
    let end = report
        .iter()
        .position(|b| *b == b'\n')
        .unwrap_or(report.len());
    &report[..end]
}

fn add_values(out: &mut String, draws: &[Draw]) -> Result<(), OutOfMemory>
    ensures { OnOk result (string_bytes out.new ≡ string_bytes out.old ++ drawn_values draws.now) }
{
    for draw in draws {
        let value = draw.value;
        write!(out, " {value}")?;
    }
    Ok(())
}

/// What a confirmation has after its first line.
fn numbers_of(alloc: Global, reply: &Reply) -> Result<String, OutOfMemory>
    ensures { IfOk result (λ numbers. string_bytes numbers ≡ numbers_of reply.now) }
{
    let mut numbers = String::new(alloc);
    match reply {
        Reply::Verdict(Verdict::ViolationConfirmed { draws, .. }) => {
            add_values(&mut numbers, draws.as_slice())?;
        }
        Reply::Verdict(Verdict::CorrectnessConfirmed { count }) => write!(numbers, " {count}")?,
        _ => {}
    }
    Ok(numbers)
}

/// A line for a reply.
fn add_told(alloc: Global, out: &mut Vec<u8>, reply: &Reply) -> Result<(), OutOfMemory>
    ensures { OnOk result (out.new.items ≡ out.old.items ++ told_line reply.now) }
{
    let report = text(alloc, reply)?;
    let numbers = numbers_of(alloc, reply)?;
    out.extend_from_slice(first_line(&report))?;
    out.extend_from_slice(numbers.as_str().as_bytes())?;
    out.push(b'\n')?;
    Ok(())
}

/// The lines of the demo.
#[tactic(auto, unfolding(crate::specs::Demos::demo_text))]
pub fn text_of_demo(alloc: Global, demo: &Demonstration) -> Result<Vec<u8>, OutOfMemory>
    ensures { IfOk result (λ bytes. bytes.items ≡ demo_text demo.now) }
{
    let number = demo.number;
    let head = format!(in alloc; "demo {number}\n")?;
    let mut out = head.into_bytes();
    add_told(alloc, &mut out, &demo.correct)?;
    add_told(alloc, &mut out, &demo.faulty)?;
    Ok(out)
}
