// Rows of devices that fail: a command line and its files, and after them its status and what was written till then.
use crate::command_lines::shelf;
use crate::commands::{AMPLE, sink, told_over};
use row_files::{Files, NotTried, Row};

/// What fails: a call of the shelf, which begins files and reads them, or a write to the sink, both counted from 1; or
/// each write after as many bytes as the sink has room for.
#[derive(Clone, Copy)]
enum Failing {
    Shelf(u64),
    Sink(u64),
    Room(u64),
}

/// The device that a row names, and its number.
fn failing_of(row: &Row) -> Result<Failing, NotTried> {
    let Some((device, number)) = row.wanted_text("fails")?.split_once(' ') else {
        return Err(NotTried::Lacks("a device and its number"));
    };
    let Ok(number) = number.parse::<u64>() else {
        return Err(NotTried::Lacks("the number of a call or of bytes"));
    };
    match device {
        "shelf" => Ok(Failing::Shelf(number)),
        "sink" => Ok(Failing::Sink(number)),
        "room" => Ok(Failing::Room(number)),
        _ => Err(NotTried::Lacks("a device that is known")),
    }
}

/// The status, and after a blank what was written.
pub fn told(files: &Files<'_>, row: &Row) -> Result<String, NotTried> {
    let alloc = files.alloc();
    let mut shelf = shelf(files, row)?;
    let mut out = sink(alloc, AMPLE)?;
    match failing_of(row)? {
        Failing::Shelf(call) => shelf.fail_at(call)?,
        Failing::Sink(call) => out.fail_at(call)?,
        Failing::Room(bytes) => out = sink(alloc, bytes as usize)?,
    }
    told_over(alloc, row, &mut shelf, &mut out)
}
