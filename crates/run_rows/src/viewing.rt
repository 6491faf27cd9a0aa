// Rows of views: a command line and its files, and behind them the status and what is printed.
use crate::command_lines::{shelf, words};
use crate::replies::begins_with_reply;
use row_files::{Files, NotTried, Row};
use row_sarif::lacking;
use std::alloc::Global;
use view_inputs::{Asked, Asking, Form, Part, read_words};
use view_judging::{hand_out, shown, usage_reply};
use wv_arguments::Names;
use wv_base::OutOfMemory;

/// A part of a certificate, with the status before it, and behind it what goes to standard error.
fn given_out(
    files: &Files<'_>,
    row: &Row,
    names: &Names<'_>,
    certificate: &str,
    part: Part,
    form: Form,
) -> Result<String, NotTried> {
    let alloc = files.alloc();
    let handed = hand_out(alloc, names, certificate, part, form, shelf(files, row)?)?;
    let status = handed.output.status;
    let text = String::from_utf8_lossy(alloc, handed.output.bytes.as_slice())?;
    let told = handed.told.as_str();
    Ok(format!(in alloc; "{status} {text}{told}")?)
}

/// What is shown of files in one form, with its status before it.
fn shown_as(
    files: &Files<'_>,
    row: &Row,
    names: &Names<'_>,
    asking: Asking<'_>,
    form: Form,
) -> Result<String, NotTried> {
    let alloc = files.alloc();
    let shown = shown(alloc, names, asking, form, shelf(files, row)?)?;
    let status = shown.status;
    let text = String::from_utf8_lossy(alloc, shown.bytes.as_slice())?;
    Ok(format!(in alloc; "{status} {text}")?)
}

/// The same, where the reply stands before all else and the log lacks nothing.
fn judged(
    files: &Files<'_>,
    row: &Row,
    names: &Names<'_>,
    asking: Asking<'_>,
    form: Form,
) -> Result<String, NotTried> {
    let text = shown_as(files, row, names, asking, Form::Text)?;
    if !begins_with_reply(files, row, text.as_str())? {
        return Ok(format!(in files.alloc(); "the reply isn't that of `run`: {text}")?);
    }
    let log = shown_as(files, row, names, asking, Form::Sarif)?;
    if let Some(member) = lacking(files.alloc(), log.as_str())? {
        return Ok(format!(in files.alloc(); "the log lacks {member}: {log}")?);
    }
    match form {
        Form::Text => Ok(text),
        Form::Sarif => Ok(log),
        Form::Html | Form::Json | Form::Screen(_) => shown_as(files, row, names, asking, form),
    }
}

/// The validator's reply to misused words, and what goes to standard error.
fn misused(alloc: Global, told: &str) -> Result<String, OutOfMemory> {
    let replied = usage_reply(alloc)?;
    let status = replied.status;
    let reply = String::from_utf8_lossy(alloc, replied.reply.as_slice())?;
    Ok(format!(in alloc; "{status} {reply}{told}")?)
}

/// The status, and behind a blank what is printed.
pub fn told(files: &Files<'_>, row: &Row) -> Result<String, NotTried> {
    let alloc = files.alloc();
    let words = words(alloc, row.wanted_text("words")?)?;
    match read_words(alloc, words.as_slice())? {
        Asked::Judge {
            names,
            asking,
            form,
        } => judged(files, row, &names, asking, form),
        Asked::Export {
            names,
            certificate,
            part,
            form,
        } => given_out(files, row, &names, certificate, part, form),
        Asked::Help(text) => Ok(format!(in alloc; "0 {text}")?),
        Asked::Misuse(text) => Ok(misused(alloc, text.as_str())?),
        Asked::List { .. } => Err(NotTried::Lacks("files, or it is a list")),
    }
}
