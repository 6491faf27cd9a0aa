// Command lines as a shell reads them.
use std::alloc::Global;
use view_text::{File, Files};
use wv_base::OutOfMemory;

/// Whether a shell takes a character of a word as it stands.
fn is_plain(c: char) -> bool {
    match c {
        'a'..='z' | 'A'..='Z' | '0'..='9' => true,
        '_' | '-' | '.' | '/' | '+' | ',' | ':' | '@' | '%' => true,
        _ => false,
    }
}

/// Whether a shell takes a name as one word as it stands.
fn is_plain_word(name: &str) -> bool {
    for c in name.chars() {
        if !is_plain(c) {
            return false;
        }
    }
    !name.is_empty()
}

/// Appends a name between single quotes; one in the name stands outside of them, behind a backslash.
fn push_quoted(out: &mut String, name: &str) -> Result<(), OutOfMemory> {
    out.push_str("'")?;
    for c in name.chars() {
        if c == '\'' {
            out.push_str("'\\''")?;
        } else {
            out.push(c)?;
        }
    }
    out.push_str("'")?;
    Ok(())
}

/// Appends an option and a name, as a shell reads them. A name that begins as an option does is tied to its own.
fn push_option(out: &mut String, option: &str, name: &str) -> Result<(), OutOfMemory> {
    out.push_str(option)?;
    out.push_str(if name.starts_with("-") { "=" } else { " " })?;
    if is_plain_word(name) {
        out.push_str(name)?;
        Ok(())
    } else {
        push_quoted(out, name)
    }
}

/// The command of a mode that reads the three judged files.
pub fn command_of(alloc: Global, mode: &str, files: &Files<'_>) -> Result<String, OutOfMemory> {
    let mut told = String::from_str(alloc, mode)?;
    push_option(&mut told, " --program", files.name(File::Program))?;
    push_option(&mut told, " --property", files.name(File::Property))?;
    push_option(&mut told, " --witness", files.name(File::Witness))?;
    Ok(told)
}
