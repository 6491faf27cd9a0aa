// Rows of lists: a command line, a list and its files, and behind them the status and the lines that are printed.
use crate::command_lines::{shelf, words};
use row_files::{Files, NotTried, Row};
use std::alloc::Global;
use view_inputs::{Asked, read_words};
use view_judging::{Judging, Progress, Stop, judge_lines};
use wv_base::MemorySink;

/// Nobody is told.
#[derive(Drop)]
struct Quiet;

impl Progress for Quiet {
    fn begins(&mut self, _number: usize, _total: usize) {}
}

fn status_of(judged: Result<u8, Stop>) -> u8 {
    match judged {
        Ok(status) => status,
        Err(stop) => stop.status(),
    }
}

fn listed(files: &Files<'_>, row: &Row, judging: Judging) -> Result<String, NotTried> {
    let alloc = files.alloc();
    let shelf = shelf(files, row)?;
    let mut out = MemorySink::new(alloc, 65536, 4096)?;
    let list = row.wanted_text("text")?;
    let judged = judge_lines(alloc, list, judging, shelf, &mut out, &mut Quiet);
    let status = status_of(judged);
    let lines = String::from_utf8_lossy(alloc, out.bytes())?;
    Ok(format!(in alloc; "{status} {lines}")?)
}

/// The status, and behind a blank what is printed.
pub fn told(files: &Files<'_>, row: &Row) -> Result<String, NotTried> {
    let alloc: Global = files.alloc();
    let words = words(alloc, row.wanted_text("words")?)?;
    match read_words(alloc, words.as_slice())? {
        Asked::List { budgets, form, .. } => {
            let judging = Judging { budgets, form };
            listed(files, row, judging)
        }
        _ => Err(NotTried::Lacks("the words for a list")),
    }
}
