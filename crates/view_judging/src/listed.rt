// Many judgements in order: a line of JSON or a row of a page for each, and the worst status at the end.
use crate::replying::{Replied, replied_to};
use crate::showing::{files_of, json_line, messages_of};
use serde_json::json;
use std::alloc::Global;
use view_inputs::{Asking, Keeping, ListForm, names_in};
use view_pages::{list_head, list_row, list_tail};
use view_text::{Files, escaped_json};
use wv_arguments::{Budgets, Names};
use wv_base::{OutOfMemory, Shelf, Sink, write_all};

/// Why a list isn't judged to its end.
#[derive(Clone, Copy, Debug, PartialEq, Eq)]
pub enum Stop {
    /// The line of this number doesn't name a program, a property and a witness.
    NoTask(usize),
    /// A line couldn't be written.
    Unwritten,
    OutOfMemory,
}

impl Stop {
    /// The status that a program ends with.
    pub fn status(&self) -> u8 {
        match self {
            Stop::NoTask(_) => 7,
            Stop::Unwritten => 5,
            Stop::OutOfMemory => 6,
        }
    }
}

impl From<OutOfMemory> for Stop {
    fn from(_: OutOfMemory) -> Self {
        Stop::OutOfMemory
    }
}

/// Who is told how far a list is.
pub trait Progress {
    /// A line is begun, by its number from 1, of so many.
    fn begins(&mut self, number: usize, total: usize);
}

/// A judgement as one line of JSON, without characters that a terminal takes for commands.
fn line_of(alloc: Global, names: &Names<'_>, replied: &Replied) -> Result<Vec<u8>, OutOfMemory> {
    let reply = String::from_utf8_lossy(alloc, replied.reply.as_slice())?;
    let status = u32::from(replied.status);
    let program = names.program;
    let property = names.property;
    let witness = names.witness;
    let value = json!(in alloc; {
        "program": program,
        "property": property,
        "reply": reply,
        "status": status,
        "witness": witness
    })?;
    let mut line = value.to_string(alloc)?;
    line.push_str("\n")?;
    Ok(escaped_json(alloc, line.as_str())?.into_bytes())
}

/// A judgement with its messages: as one line of JSON, as a single one is printed, or as a row of a page.
fn told_with_messages(
    alloc: Global,
    files: &Files<'_>,
    number: usize,
    replied: &Replied,
    judging: Judging,
) -> Result<Vec<u8>, OutOfMemory> {
    let messages = messages_of(alloc, replied, files, Asking::Judge(judging.budgets))?;
    let text = if judging.form == ListForm::Page {
        let reply = String::from_utf8_lossy(alloc, replied.reply.as_slice())?;
        let reply = reply.as_str();
        list_row(
            alloc,
            files,
            number,
            reply,
            replied.status,
            messages.as_slice(),
        )?
    } else {
        json_line(alloc, files, replied, &messages)?
    };
    Ok(text.into_bytes())
}

/// What is judged of each line, and what is printed of it.
#[derive(Clone, Copy, Debug)]
pub struct Judging {
    pub budgets: Budgets,
    pub form: ListForm,
}

/// What is printed of a judgement over the files that were read.
fn told_of<S: Shelf + Drop>(
    alloc: Global,
    number: usize,
    names: &Names<'_>,
    replied: &Replied,
    judging: Judging,
    shelf: &Keeping<S>,
) -> Result<Vec<u8>, OutOfMemory> {
    if judging.form == ListForm::Lines {
        return line_of(alloc, names, replied);
    }
    let program = shelf.kept(0);
    let property = shelf.kept(1);
    let witness = shelf.kept(2);
    let files = files_of(
        names.program,
        names.property,
        names.witness,
        "",
        program,
        property,
        witness,
        &[],
    );
    told_with_messages(alloc, &files, number, replied, judging)
}

/// Writes bytes of what is printed.
fn write_out<O: Sink>(out: &mut O, bytes: &[u8]) -> Result<(), Stop> {
    match write_all(out, bytes) {
        Ok(()) => Ok(()),
        Err(_) => Err(Stop::Unwritten),
    }
}

/// Judges the task of a line and writes what comes of it; its status.
fn judge_line<S: Shelf + Drop, O: Sink>(
    alloc: Global,
    number: usize,
    line: &str,
    judging: Judging,
    shelf: &mut Keeping<S>,
    out: &mut O,
) -> Result<u8, Stop> {
    let Some(names) = names_in(line) else {
        return Err(Stop::NoTask(number));
    };
    shelf.forget(alloc);
    let replied = replied_to(alloc, &names, Asking::Judge(judging.budgets), shelf)?;
    if shelf.is_lost() {
        return Err(Stop::OutOfMemory);
    }
    if replied.status > 4 {
        return Err(Stop::NoTask(number));
    }
    let told = told_of(alloc, number, &names, &replied, judging, shelf)?;
    write_out(out, told.as_slice())?;
    Ok(replied.status)
}

/// How many lines a text has.
fn lines_in(text: &str) -> usize {
    let mut count = 0usize;
    for _ in text.lines() {
        count = count.saturating_add(1);
    }
    count
}

/// Judges the tasks of all lines in their order, and skips empty lines; the worst status.
fn judge_each<S: Shelf + Drop, O: Sink, P: Progress>(
    alloc: Global,
    text: &str,
    judging: Judging,
    shelf: S,
    out: &mut O,
    progress: &mut P,
) -> Result<u8, Stop> {
    let mut shelf = Keeping::new(alloc, shelf);
    let total = lines_in(text);
    let mut worst = 0u8;
    for (index, line) in text.lines().enumerate() {
        let number = index.saturating_add(1);
        let line = line.trim();
        progress.begins(number, total);
        if !line.is_empty() {
            worst = worst.max(judge_line(alloc, number, line, judging, &mut shelf, out)?);
        }
    }
    Ok(worst)
}

/// Judges the tasks of a list; the worst status. A file that isn't there is a status of its line, and the rest goes on.
/// A page that isn't written to its end lacks its own end, too.
pub fn judge_lines<S: Shelf + Drop, O: Sink, P: Progress>(
    alloc: Global,
    text: &str,
    judging: Judging,
    shelf: S,
    out: &mut O,
    progress: &mut P,
) -> Result<u8, Stop> {
    let is_page = judging.form == ListForm::Page;
    if is_page {
        write_out(out, list_head(alloc)?.as_bytes())?;
    }
    let worst = judge_each(alloc, text, judging, shelf, out, progress)?;
    if is_page {
        write_out(out, list_tail(alloc)?.as_bytes())?;
    }
    Ok(worst)
}
