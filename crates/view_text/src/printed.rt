// Texts of files as they may be printed.
use std::alloc::Global;
use wv_base::OutOfMemory;

/// What stands for a character that isn't printed.
const OTHER: char = '\u{fffd}';

/// Whether a terminal or an editor may take a character for a command, or for a change of direction.
fn is_hidden(c: char) -> bool {
    match c {
        '\u{0}'..='\u{1f}' | '\u{7f}'..='\u{9f}' => true,
        '\u{61c}' | '\u{200b}'..='\u{200f}' | '\u{2028}'..='\u{202e}' => true,
        '\u{2060}'..='\u{206f}' | '\u{feff}' | '\u{fff9}'..='\u{fffb}' => true,
        _ => false,
    }
}

fn printable(c: char) -> char {
    if c != '\t' && is_hidden(c) { OTHER } else { c }
}

/// A line without a carriage return at its end.
fn without_return(line: &[u8]) -> &[u8] {
    match line {
        [front @ .., b'\r'] => front,
        _ => line,
    }
}

/// The bytes of a word or of a file's name that a message shows at most.
const LONGEST: usize = 80;

/// The front of a long text, without a part of a character.
pub fn shortened(text: &str) -> &str {
    if text.len() <= LONGEST {
        return text;
    }
    for back in 0..4 {
        if let Some(front) = text.get(..LONGEST.saturating_sub(back)) {
            return front;
        }
    }
    ""
}

/// Appends bytes as one line of text: a tab stays, a carriage return at the end isn't shown, and what isn't printable
/// or no UTF-8 is U+FFFD.
pub fn push_printable(alloc: Global, out: &mut String, bytes: &[u8]) -> Result<(), OutOfMemory> {
    let text = String::from_utf8_lossy(alloc, without_return(bytes))?;
    for c in text.as_str().chars() {
        out.push(printable(c))?;
    }
    Ok(())
}

/// A text of several lines as it may be printed: the ends of its lines stay.
pub fn printable_text(alloc: Global, text: &str) -> Result<String, OutOfMemory> {
    let mut out = String::new(alloc);
    for c in text.chars() {
        out.push(if c == '\n' { c } else { printable(c) })?;
    }
    Ok(out)
}

/// A JSON text in which no hidden character stands as itself: such a character stands in a string, so its escape (RFC
/// 8259 7) says the same.
pub fn escaped_json(alloc: Global, json: &str) -> Result<String, OutOfMemory> {
    let mut out = String::new(alloc);
    for c in json.chars() {
        if is_hidden(c) && c != '\n' {
            let number = u32::from(c);
            write!(out, "\\u{number:04x}")?;
        } else {
            out.push(c)?;
        }
    }
    Ok(out)
}
