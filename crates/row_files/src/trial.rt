// Files of rows, each row tried.
use crate::escapes::in_one_line;
use crate::table::{NotTried, Row, rows_of};
use std::alloc::Global;
use std::process::ExitCode;
use std::{env, fs, io};

/// The files of `data/`, in which a program that tries rows runs, and its output.
#[derive(Drop)]
pub struct Files<'a> {
    rt: &'a HostRuntime,
}

impl<'a> Files<'a> {
    pub fn alloc(&self) -> Global {
        self.rt.alloc()
    }

    /// The text of a file.
    pub fn file(&self, name: &str) -> Result<String, NotTried> {
        match fs::read_to_string(self.rt, name) {
            Ok(text) => Ok(text),
            Err(e) if e.kind() == io::ErrorKind::OutOfMemory => Err(NotTried::OutOfMemory),
            Err(_) => Err(NotTried::Lacks("a file of the name that it gives")),
        }
    }

    fn print(&self, line: &str) -> Result<(), NotTried> {
        match self.rt.println(line) {
            Ok(()) => Ok(()),
            Err(_) => Err(NotTried::Lacks("a place to be printed")),
        }
    }
}

/// The kinds of rows that a program tries.
pub trait Trial {
    /// What comes of a row, by its kind.
    fn came(files: &Files<'_>, row: &Row) -> Result<String, NotTried>;
}

/// What came of a row in which something is missing is that it is missing.
fn told<T: Trial>(files: &Files<'_>, row: &Row) -> Result<String, NotTried> {
    match T::came(files, row) {
        Err(NotTried::Lacks(what)) => Ok(format!(in files.alloc(); "the row lacks {what}")?),
        answer => answer,
    }
}

fn print_difference(files: &Files<'_>, file: &str, row: &Row, came: &str) -> Result<(), NotTried> {
    let alloc = files.alloc();
    let wanted = in_one_line(alloc, row.text("answer")?.unwrap_or(""))?;
    let came = in_one_line(alloc, came)?;
    let line = row.line;
    let name = row.name.as_str();
    let text = format!(in alloc; "{file}:{line}: {name}\n  wanted {wanted}\n  came   {came}")?;
    files.print(text.as_str())
}

/// Whether a row's answer comes; if not, that is printed.
fn is_met<T: Trial>(files: &Files<'_>, file: &str, row: &Row) -> Result<bool, NotTried> {
    let came = told::<T>(files, row)?;
    if row.bytes("answer") == Some(came.as_bytes()) {
        return Ok(true);
    }
    print_difference(files, file, row, came.as_str())?;
    Ok(false)
}

/// How many rows were tried, and of how many another answer came.
#[derive(Clone, Copy)]
struct Count {
    tried: u64,
    differ: u64,
}

/// Tries the rows of a file.
fn try_file<T: Trial>(files: &Files<'_>, file: &str) -> Result<Count, NotTried> {
    let text = files.file(file)?;
    let rows = rows_of(files.alloc(), text.as_str())?;
    let mut count = Count {
        tried: 0,
        differ: 0,
    };
    for row in rows.as_slice() {
        count.tried = count.tried.saturating_add(1);
        if !is_met::<T>(files, file, row)? {
            count.differ = count.differ.saturating_add(1);
        }
    }
    Ok(count)
}

/// Tries the rows of the files that the program's words name, and prints how many differ. A file that can't be tried
/// counts as one that does.
fn try_named<T: Trial>(rt: &HostRuntime) -> io::Result<bool> {
    let files = Files { rt };
    let mut tried = 0_u64;
    let mut differ = 0_u64;
    for file in env::args(rt)?.skip(1) {
        match try_file::<T>(&files, file.as_str()) {
            Ok(count) => {
                tried = tried.saturating_add(count.tried);
                differ = differ.saturating_add(count.differ);
            }
            Err(NotTried::OutOfMemory) => return Err(io::Error::from(io::ErrorKind::OutOfMemory)),
            Err(NotTried::Lacks(what)) => {
                println!(rt; "{file}: lacks {what}")?;
                differ = differ.saturating_add(1);
            }
        }
    }
    println!(rt; "{tried} rows, {differ} differ")?;
    Ok(differ == 0)
}

/// The status of a program that tries rows: 0 where none differs, 1 where one does, 2 where memory or output was
/// wanting.
pub fn try_rows<T: Trial>(rt: &HostRuntime) -> ExitCode {
    match try_named::<T>(rt) {
        Ok(true) => ExitCode::from(0),
        Ok(false) => ExitCode::from(1),
        Err(_) => ExitCode::from(2),
    }
}
