// Rows of what main reaches: its functions, by name in the order of the program; the places at which they draw, in the
// order of the text.
use crate::check::checked_program;
use c_calls::reached_functions;
use c_core::Program;
use c_draws::draws;
use c_meaning::DrawKind;
use row_files::{Files, NotTried, Row};
use std::alloc::{AllocError, Global};

fn word(from: DrawKind) -> &'static str {
    match from {
        DrawKind::Input => "input",
        DrawKind::Cell => "cell",
        DrawKind::Havoc => "change",
    }
}

fn push_part(text: &mut String, part: &str) -> Result<(), AllocError> {
    if text.len() > 0 {
        text.push_str(", ")?;
    }
    text.push_str(part)
}

fn names_among(alloc: Global, program: &Program, numbers: &[u32]) -> Result<String, AllocError> {
    let mut text = String::new(alloc);
    let mut number: u32 = 0;
    for function in program.functions.as_slice() {
        if numbers.contains(&number) {
            push_part(&mut text, function.name.as_str())?;
        }
        number = number.saturating_add(1);
    }
    Ok(text)
}

/// The functions that main of a row's program reaches.
pub fn reached(files: &Files<'_>, row: &Row) -> Result<String, NotTried> {
    let alloc = files.alloc();
    let program = checked_program(files, row)?;
    let numbers = reached_functions(alloc, &program)?;
    Ok(names_among(alloc, &program, numbers.as_slice())?)
}

/// The places at which a row's program draws.
pub fn places(files: &Files<'_>, row: &Row) -> Result<String, NotTried> {
    let alloc = files.alloc();
    let program = checked_program(files, row)?;
    let list = draws(alloc, &program)?;
    let mut text = String::new(alloc);
    for place in list.as_slice() {
        let part = format!(in alloc;
            "{} {}:{}",
            word(place.from),
            place.spot.line,
            place.spot.column
        )?;
        push_part(&mut text, part.as_str())?;
    }
    if text.len() == 0 {
        return Ok(String::from_str(alloc, "none")?);
    }
    Ok(text)
}
