//! The machine beside the interpreter. For each source that a word names, in both data models and for both properties,
//! the run of the program is taken under each budget of steps up to the last word's, by the interpreter and by machines
//! that get the budget in parts of several sizes: the end, the steps, the draws, and each event with the cells of its
//! moment are to be the same.
#![tactic(auto)]

mod compared;
mod events;
mod runs;

use crate::compared::compare;
use c_check::check;
use c_core::{DataModel, Program, Property};
use c_parser::parse;
use c_tokens::tokens;
use std::alloc::Global;
use std::process::ExitCode;
use std::{env, fs, io};
use wv_base::OutOfMemory;

// Longer sources aren't read.
const MAX_LENGTH: usize = 1 << 20;

/// The program of a source text, if there is one.
fn program_of(alloc: Global, text: &[u8], model: DataModel, property: Property) -> Option<Program> {
    if text.len() > MAX_LENGTH {
        return None;
    }
    let Ok(found) = tokens(alloc, text) else {
        return None;
    };
    let Ok(source) = parse(alloc, &found) else {
        return None;
    };
    match check(alloc, &source, model, property) {
        Ok(program) => Some(program),
        Err(_) => None,
    }
}

/// The runs that were tried and those that differ, of one program.
fn report_program(
    rt: &HostRuntime,
    name: &str,
    text: &[u8],
    model: DataModel,
    property: Property,
    budget: u32,
) -> io::Result<()> {
    let Some(program) = program_of(rt.alloc(), text, model, property) else {
        return println!(rt; "{name}: no program");
    };
    match compare(rt.alloc(), &program, budget) {
        Ok(found) => println!(rt;
            "{name}: {} runs, {} differ; {:?} with {} steps",
            found.tried, found.wrong, found.end, found.steps
        ),
        Err(OutOfMemory) => println!(rt; "{name}: out of memory"),
    }
}

fn report(rt: &HostRuntime) -> io::Result<()> {
    let mut words = Vec::new(rt.alloc());
    for word in env::args(rt)?.skip(1) {
        words.push(word)?;
    }
    let Some((last, names)) = words.as_slice().split_last() else {
        return println!(rt; "usage: flow_tests FILE.. BUDGET");
    };
    let budget = last.as_str().parse::<u32>().ok().unwrap_or(0);
    for name in names {
        let bytes = fs::read(rt, name.as_str())?;
        for model in [DataModel::Ilp32, DataModel::Lp64] {
            for property in [Property::UnreachCall, Property::NoOverflow] {
                report_program(rt, name.as_str(), bytes.as_slice(), model, property, budget)?;
            }
        }
    }
    Ok(())
}

fn main(rt: HostRuntime) -> ExitCode {
    match report(&rt) {
        Ok(()) => ExitCode::from(0),
        Err(_) => ExitCode::from(1),
    }
}
