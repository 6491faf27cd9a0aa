// The first fault of a program's text: of its tokens, its grammar or a rule that it breaks.
use c_check::check;
use c_core::{DataModel, Property, Spot};
use check_rules::{CheckCode, CheckFault};
use std::alloc::Global;
use view_grammar::{Spelling, explain_syntax, explain_tokens, read_source, word_text};
use view_text::{File, Files, Messages, advice};
use wv_base::OutOfMemory;

fn code_of(code: CheckCode) -> &'static str {
    match code {
        CheckCode::Name => "check-name",
        CheckCode::Again => "check-again",
        CheckCode::Typing => "check-typing",
        CheckCode::Size => "check-size",
        CheckCode::Order => "check-order",
        CheckCode::Body => "check-body",
        CheckCode::Main => "check-main",
        CheckCode::Cells => "check-cells",
    }
}

/// A rule that is broken at a place, with the word that stands there.
fn check_text(alloc: Global, code: &str, text: &[u8], spot: Spot) -> Result<String, OutOfMemory> {
    let found = word_text(alloc, text, spot)?;
    let word = found.as_str();
    let rule = advice(code);
    if word.is_empty() {
        Ok(String::from_str(alloc, rule)?)
    } else {
        Ok(format!(in alloc; "`{word}`: {rule}")?)
    }
}

/// A rule that a program breaks.
pub fn explain_check(
    alloc: Global,
    files: &Files<'_>,
    fault: CheckFault,
    out: &mut Messages,
) -> Result<(), OutOfMemory> {
    match fault {
        CheckFault::Refused { code, spot } => {
            let name = code_of(code);
            let told = check_text(alloc, name, files.text(File::Program), spot)?;
            out.error(name, File::Program, Some(spot), told)
        }
        CheckFault::OutOfMemory => Err(OutOfMemory),
    }
}

/// The first fault of a program; nothing where it has none.
pub fn first_fault(
    alloc: Global,
    files: &Files<'_>,
    model: DataModel,
    property: Property,
    out: &mut Messages,
) -> Result<(), OutOfMemory> {
    match read_source(alloc, files.text(File::Program)) {
        Spelling::Source(source) => match check(alloc, &source, model, property) {
            Ok(_) => Ok(()),
            Err(fault) => explain_check(alloc, files, fault, out),
        },
        Spelling::NoTokens(fault) => explain_tokens(alloc, files, fault, out),
        Spelling::NoSource(fault) => explain_syntax(alloc, files, fault, out),
    }
}
