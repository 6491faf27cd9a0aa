// Rows of the whole program: its words and its files, and behind them its status and its report.
use crate::command_lines::{shelf, words};
use row_files::{Files, NotTried, Row};
use std::alloc::Global;
use std::str;
use witval::run;
use wv_base::{MemoryShelf, MemorySink, OutOfMemory};

/// A sink with this room has room for each report.
pub const AMPLE: usize = 5000;

/// A sink of which a write takes few bytes, so that a report is written in several.
pub fn sink(alloc: Global, room: usize) -> Result<MemorySink, OutOfMemory> {
    let sink = MemorySink::new(alloc, room, 5)?;
    Ok(sink)
}

/// The status of a row's command line over these devices, and behind a blank what was written.
pub fn told_over(
    alloc: Global,
    row: &Row,
    shelf: &mut MemoryShelf,
    out: &mut MemorySink,
) -> Result<String, NotTried> {
    let words = words(alloc, row.wanted_text("words")?)?;
    let status = run(alloc, &words, shelf, out);
    match str::from_utf8(out.bytes()) {
        Ok(report) => Ok(format!(in alloc; "{status} {report}")?),
        Err(_) => Ok(format!(in alloc; "{status} and a report that isn't UTF-8")?),
    }
}

/// The same over devices that don't fail.
pub fn told(files: &Files<'_>, row: &Row) -> Result<String, NotTried> {
    let alloc = files.alloc();
    let mut shelf = shelf(files, row)?;
    let mut out = sink(alloc, AMPLE)?;
    told_over(alloc, row, &mut shelf, &mut out)
}

/// A report with `_` for each drawn value.
fn without_values(alloc: Global, report: &str) -> Result<String, OutOfMemory> {
    let mut out = String::new(alloc);
    for line in report.lines() {
        match line.rsplit_once(' ') {
            Some((front, _)) if line.starts_with("value ") => {
                out.push_str(front)?;
                out.push_str(" _")?;
            }
            _ => out.push_str(line)?,
        }
        out.push_str("\n")?;
    }
    Ok(out)
}

/// The same without the values: which of those that fit is shown is the solver's choice.
pub fn told_without_values(files: &Files<'_>, row: &Row) -> Result<String, NotTried> {
    let report = told(files, row)?;
    Ok(without_values(files.alloc(), report.as_str())?)
}
