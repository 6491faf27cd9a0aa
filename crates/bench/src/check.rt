// Checks the C source that its word names, and prints how many objects and functions its program has: what bench/check
// times.
use c_check::{CheckCode, CheckFault, check};
use c_core::{DataModel, Program, Property};
use c_parser::{Source, parse};
use c_tokens::tokens;
use std::alloc::Global;
use std::{fs, io};

// Longer sources aren't timed.
const MAX_LENGTH: usize = 1 << 24;

/// The source that a text spells, if any.
fn parsed(alloc: Global, text: &[u8]) -> Option<Source> {
    if text.len() > MAX_LENGTH {
        return None;
    }
    let Ok(found) = tokens(alloc, text) else {
        return None;
    };
    match parse(alloc, &found) {
        Ok(source) => Some(source),
        Err(_) => None,
    }
}

fn report_program(rt: &HostRuntime, program: &Program) -> io::Result<()> {
    println!(rt;
        "{} objects, {} functions",
        program.objects.len(),
        program.functions.len()
    )
}

fn word(code: CheckCode) -> &'static str {
    match code {
        CheckCode::Name => "name",
        CheckCode::Again => "again",
        CheckCode::Typing => "typing",
        CheckCode::Size => "size",
        CheckCode::Order => "order",
        CheckCode::Body => "body",
        CheckCode::Main => "main",
        CheckCode::Cells => "cells",
    }
}

/// The program of a source text, if there is one.
pub fn program_of(alloc: Global, text: &[u8]) -> Option<Program> {
    let source = parsed(alloc, text)?;
    match check(alloc, &source, DataModel::Lp64, Property::UnreachCall) {
        Ok(program) => Some(program),
        Err(_) => None,
    }
}

/// Prints what is told of a source text.
fn report(rt: &HostRuntime, text: &[u8]) -> io::Result<()> {
    let Some(source) = parsed(rt.alloc(), text) else {
        return println!(rt; "no source");
    };
    match check(rt.alloc(), &source, DataModel::Lp64, Property::UnreachCall) {
        Ok(program) => report_program(rt, &program),
        Err(CheckFault::Refused { code, spot }) => {
            let code = word(code);
            println!(rt; "{code} {}:{}", spot.line, spot.column)
        }
        Err(CheckFault::OutOfMemory) => println!(rt; "out of memory"),
    }
}

pub fn run(rt: &HostRuntime, paths: &[String]) -> io::Result<()> {
    for path in paths {
        let bytes = fs::read(rt, path.as_str())?;
        report(rt, bytes.as_slice())?;
    }
    Ok(())
}
