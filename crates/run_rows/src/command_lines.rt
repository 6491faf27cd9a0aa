// Rows of command lines: their words and their files.
use row_files::{Files, NotTried, Row, certificate, program, witness};
use std::alloc::Global;
use wv_base::{MemoryShelf, OutOfMemory};

/// The words of a command line, which stand between single blanks.
pub fn words(alloc: Global, line: &str) -> Result<Vec<String>, OutOfMemory> {
    let mut words = Vec::new(alloc);
    for word in line.split(' ') {
        words.push(String::from_str(alloc, word)?)?;
    }
    Ok(words)
}

/// The name that the words give to the program.
fn program_name(line: &str) -> &str {
    let mut is_next = false;
    for word in line.split(' ') {
        if is_next {
            return word;
        }
        is_next = word == "--program";
    }
    "p"
}

/// The files that a row gives: its program is `p`, and has the name that the words give to it; its property is `q`, its
/// witness is `w`, its certificate, or its list of values, is `c`.
pub fn shelf(files: &Files<'_>, row: &Row) -> Result<MemoryShelf, NotTried> {
    let mut shelf = MemoryShelf::new(files.alloc(), 4096);
    if let Some(program) = program(files, row)? {
        shelf.put("p", program.as_slice())?;
        let line = row.text("words")?.unwrap_or("");
        shelf.put(program_name(line), program.as_slice())?;
    }
    if let Some(property) = row.bytes("property") {
        shelf.put("q", property)?;
    }
    if let Some(witness) = witness(files, row)? {
        shelf.put("w", witness.as_slice())?;
    }
    if let Some(certificate) = certificate(files, row)? {
        shelf.put("c", certificate.as_slice())?;
    }
    Ok(shelf)
}
