//! A SAT solver for the command line. It reads DIMACS CNF and answers as solvers at SAT competitions do: `s
//! SATISFIABLE` with values in `v` lines and status 10, `s UNSATISFIABLE` with status 20, or `s UNKNOWN` with status 0,
//! where more clauses would have to be derived than a word allows. Input that isn't DIMACS gets a line that names the
//! line, and status 1.
//!
//! It answers standard input, or each file that a word names in turn, behind a comment with its name; the word `-`
//! names standard input. The word `--log` adds a comment: how long the log is, and whether the checker takes it. Both
//! `--log` and a budget are for the files behind them. The status is that of the last answer; a file that can't be read
//! is the last.
#![tactic(auto)]

mod dimacs;
mod report;
mod words;

use dimacs::{Fault, read};
use report::print_answer;
use std::fs::File;
use std::io;
use std::io::{BufRead, BufReader};
use std::process::ExitCode;
use words::{STANDARD_INPUT, Wanted, read_words};

const USAGE: &str = "usage: sat_solver [BUDGET from 1 to 1073741824] [--log] [FILE]..";

fn answer<R: BufRead + Drop>(rt: &HostRuntime, input: R, wanted: Wanted) -> io::Result<u8> {
    match read(rt.alloc(), input) {
        Ok(cnf) => print_answer(rt, &cnf, wanted),
        Err(Fault::Line(line)) => {
            eprintln!(rt; "line {line}: no DIMACS CNF")?;
            Ok(1)
        }
        Err(Fault::Memory) => {
            eprintln!(rt; "out of memory")?;
            Ok(1)
        }
        Err(Fault::Input(fault)) => Err(fault),
    }
}

fn answer_input(rt: &HostRuntime, wanted: Wanted) -> io::Result<u8> {
    answer(rt, BufReader::new(rt.alloc(), rt.reader())?, wanted)
}

fn answer_file(rt: &HostRuntime, name: &str, wanted: Wanted) -> io::Result<u8> {
    println!(rt; "c {name}")?;
    if name == STANDARD_INPUT {
        return answer_input(rt, wanted);
    }
    match File::open(rt, name) {
        Ok(file) => answer(rt, BufReader::new(rt.alloc(), file)?, wanted),
        Err(_) => {
            eprintln!(rt; "{name}: it can't be opened")?;
            Ok(1)
        }
    }
}

fn run(rt: &HostRuntime) -> io::Result<u8> {
    let Some(questions) = read_words(rt)? else {
        eprintln!(rt; "{USAGE}")?;
        return Ok(1);
    };
    let mut status = 0;
    for question in &questions {
        status = match &question.file {
            Some(name) => answer_file(rt, name.as_str(), question.wanted)?,
            None => answer_input(rt, question.wanted)?,
        };
        if status == 1 {
            break;
        }
    }
    Ok(status)
}

fn main(rt: HostRuntime) -> ExitCode {
    match run(&rt) {
        Ok(status) => ExitCode::from(status),
        Err(_) => ExitCode::from(1),
    }
}
