// Rows of the checker: a source, and after it the code and the place of its first refusal, or `program`.
use crate::sources::{parsed, refused};
use c_check::{CheckCode, CheckFault, check};
use c_core::{DataModel, Program, Property};
use c_parser::Source;
use row_files::{Files, NotTried, Row, program};
use std::alloc::{AllocError, Global};

fn word(code: CheckCode) -> &'static str {
    match code {
        CheckCode::Name => "name",
        CheckCode::Again => "again",
        CheckCode::Typing => "typing",
        CheckCode::Size => "size",
        CheckCode::Order => "order",
        CheckCode::Body => "body",
        CheckCode::Main => "main",
        CheckCode::Cells => "cells",
    }
}

fn checked(alloc: Global, source: &Source, model: DataModel) -> Result<String, AllocError> {
    match check(alloc, source, model, Property::UnreachCall) {
        Ok(_) => String::from_str(alloc, "program"),
        Err(CheckFault::Refused { code, spot }) => {
            let code = word(code);
            format!(in alloc; "{code} {}:{}", spot.line, spot.column)
        }
        Err(CheckFault::OutOfMemory) => Err(AllocError),
    }
}

/// The answer in both models where it is one, else each.
fn in_both(alloc: Global, source: &Source) -> Result<String, AllocError> {
    let narrow = checked(alloc, source, DataModel::Ilp32)?;
    let wide = checked(alloc, source, DataModel::Lp64)?;
    if narrow.as_str() == wide.as_str() {
        Ok(narrow)
    } else {
        format!(in alloc; "ILP32 {narrow}, LP64 {wide}")
    }
}

fn in_models(alloc: Global, source: &Source, models: &str) -> Result<String, NotTried> {
    match models {
        "ILP32" => Ok(checked(alloc, source, DataModel::Ilp32)?),
        "LP64" => Ok(checked(alloc, source, DataModel::Lp64)?),
        "both" => Ok(in_both(alloc, source)?),
        _ => Err(NotTried::Lacks("a data model")),
    }
}

/// What is said of a row's source.
pub fn told(files: &Files<'_>, row: &Row) -> Result<String, NotTried> {
    let alloc = files.alloc();
    let models = row.wanted_text("model")?;
    let Some(text) = program(files, row)? else {
        return Err(NotTried::Lacks("source"));
    };
    match parsed(alloc, text.as_slice()) {
        None => Ok(String::from_str(alloc, "no tokens")?),
        Some(Ok(source)) => in_models(alloc, &source, models),
        Some(Err(fault)) => Ok(refused(alloc, fault)?),
    }
}

/// A row's program, which has to be one in ILP32.
pub fn checked_program(files: &Files<'_>, row: &Row) -> Result<Program, NotTried> {
    let alloc = files.alloc();
    let Some(text) = program(files, row)? else {
        return Err(NotTried::Lacks("program"));
    };
    let Some(Ok(source)) = parsed(alloc, text.as_slice()) else {
        return Err(NotTried::Lacks("a source that parses"));
    };
    match check(alloc, &source, DataModel::Ilp32, Property::UnreachCall) {
        Ok(program) => Ok(program),
        Err(_) => Err(NotTried::Lacks("a source that is a program")),
    }
}
