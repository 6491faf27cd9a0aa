//! One part of witval at a time, as the scripts of bench/ count and time it. The first word names the part, and the
//! file of that name says what the words behind it are.
#![tactic(auto)]

mod check;
mod evaluate;
mod frontend;
mod obligations;
mod operators;
mod task;
mod yaml;

use std::alloc::Global;
use std::process::ExitCode;
use std::{env, io};

/// The words of the command line behind the program's name.
fn words_of(rt: &HostRuntime) -> io::Result<Vec<String>> {
    let mut words = Vec::new(rt.alloc());
    for word in env::args(rt)?.skip(1) {
        words.push(word)?;
    }
    Ok(words)
}

fn usage(rt: &HostRuntime) -> io::Result<ExitCode> {
    println!(rt; "usage: bench check|circuits|evaluate|frontend|obligations|task|yaml WORD..")?;
    Ok(ExitCode::from(7))
}

fn run(rt: &HostRuntime) -> io::Result<ExitCode> {
    let words = words_of(rt)?;
    let Some((mode, words)) = words.as_slice().split_first() else {
        return usage(rt);
    };
    match mode.as_str() {
        "check" => check::run(rt, words)?,
        "circuits" => operators::run(rt, words)?,
        "evaluate" => evaluate::run(rt, words)?,
        "frontend" => frontend::run(rt, words)?,
        "obligations" => obligations::run(rt, words)?,
        "task" => task::run(rt, words)?,
        "yaml" => yaml::run(rt, words)?,
        _ => return usage(rt),
    }
    Ok(ExitCode::from(0))
}

fn main(rt: HostRuntime) -> ExitCode {
    match run(&rt) {
        Ok(status) => status,
        Err(_) => ExitCode::from(1),
    }
}
