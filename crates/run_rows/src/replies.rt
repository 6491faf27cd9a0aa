// The reply of the top call to the files of a row.
use crate::command_lines::shelf;
use row_files::{Files, NotTried, Row};
use std::alloc::Global;
use std::str;
use witval::run;
use wv_base::{MemorySink, OutOfMemory};

/// Whether a word of the viewer's is one of the validator's too.
fn is_shared(word: &str) -> bool {
    let is_form = matches!(word, "--sarif" | "--html" | "--json" | "--counts");
    !is_form && word != "validate" && word != "seek"
}

/// Whether a word is an option of the viewer's alone, after which its value stands.
fn has_own_value(word: &str) -> bool {
    word == "--width" || word == "--colour"
}

/// The mode of the validator that the viewer's words are for.
fn mode_of(line: &str) -> &'static str {
    for word in line.split(' ') {
        if word == "--certificate" {
            return "recheck";
        }
        if word == "seek" {
            return "seek";
        }
    }
    "validate"
}

/// The viewer's words as those of the validator.
fn validator_words(alloc: Global, line: &str) -> Result<Vec<String>, OutOfMemory> {
    let mut words = Vec::new(alloc);
    words.push(String::from_str(alloc, "witval")?)?;
    words.push(String::from_str(alloc, mode_of(line))?)?;
    let mut is_value = false;
    for word in line.split(' ').skip(1) {
        let is_own = is_value || has_own_value(word);
        is_value = !is_value && has_own_value(word);
        if !is_own && is_shared(word) {
            words.push(String::from_str(alloc, word)?)?;
        }
    }
    Ok(words)
}

/// Whether a text begins with the status and the reply of the top call.
pub fn begins_with_reply(files: &Files<'_>, row: &Row, text: &str) -> Result<bool, NotTried> {
    let alloc = files.alloc();
    let words = validator_words(alloc, row.wanted_text("words")?)?;
    let mut shelf = shelf(files, row)?;
    let mut out = MemorySink::new(alloc, 65536, 4096)?;
    let status = run(alloc, &words, &mut shelf, &mut out);
    match str::from_utf8(out.bytes()) {
        Ok(reply) => {
            let wanted = format!(in alloc; "{status} {reply}")?;
            Ok(text.as_bytes().starts_with(wanted.as_bytes()))
        }
        Err(_) => Ok(false),
    }
}
