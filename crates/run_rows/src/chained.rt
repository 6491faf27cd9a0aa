// Rows of two command lines: what the first writes for the files of the row is a file of the second, whose words are
// the row's.
use crate::command_lines::{shelf, words};
use crate::commands::{AMPLE, sink, told_over};
use row_files::{Files, NotTried, Row};
use witval::run;
use wv_base::MemorySink;

/// A command line, the file that it writes, and what a row lacks for which it writes none.
#[derive(Clone, Copy)]
struct First {
    words: &'static str,
    file: &'static str,
    lack: &'static str,
}

const CERTIFY: First = First {
    words: "witval certify --program p --property q --witness w",
    file: "c",
    lack: "a certificate",
};

const AUTHOR: First = First {
    words: "witval author --program p --property q --values c",
    file: "w",
    lack: "a run that violates the property",
};

const WEED: First = First {
    words: "witval weed --program p --property q --witness w",
    file: "w",
    lack: "invariants that are weeded",
};

/// What is written has at most so many bytes.
const MOST_BYTES: usize = 4194304;

/// The status and the report of the row's words, where one of the files is what the first command line writes.
fn told_after(files: &Files<'_>, row: &Row, first: First) -> Result<String, NotTried> {
    let alloc = files.alloc();
    let mut shelf = shelf(files, row)?;
    let mut written = MemorySink::new(alloc, MOST_BYTES, 4096)?;
    let asking = words(alloc, first.words)?;
    if run(alloc, &asking, &mut shelf, &mut written) != 0 {
        return Err(NotTried::Lacks(first.lack));
    }
    shelf.put(first.file, written.bytes())?;
    let mut out = sink(alloc, AMPLE)?;
    told_over(alloc, row, &mut shelf, &mut out)
}

/// The same of `recheck`, where the certificate is the one that `certify` writes.
pub fn told_certified(files: &Files<'_>, row: &Row) -> Result<String, NotTried> {
    told_after(files, row, CERTIFY)
}

/// The same of a witness that `author` writes, for the values of the file `c`.
pub fn told_authored(files: &Files<'_>, row: &Row) -> Result<String, NotTried> {
    told_after(files, row, AUTHOR)
}

/// The same of a witness that `weed` writes.
pub fn told_weeded(files: &Files<'_>, row: &Row) -> Result<String, NotTried> {
    told_after(files, row, WEED)
}
