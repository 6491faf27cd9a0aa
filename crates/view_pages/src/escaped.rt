// Texts as HTML, as messages of a log, and as references to files.
use std::alloc::Global;
use view_text::push_printable;
use wv_base::OutOfMemory;

/// Appends a character as HTML text, also between quotes.
fn push_character(out: &mut String, c: char) -> Result<(), OutOfMemory> {
    match c {
        '&' => out.push_str("&amp;")?,
        '<' => out.push_str("&lt;")?,
        '>' => out.push_str("&gt;")?,
        '"' => out.push_str("&quot;")?,
        '\'' => out.push_str("&#39;")?,
        _ => out.push(c)?,
    }
    Ok(())
}

/// Appends bytes of a file as HTML text.
pub fn push_html(alloc: Global, out: &mut String, bytes: &[u8]) -> Result<(), OutOfMemory> {
    let mut text = String::new(alloc);
    push_printable(alloc, &mut text, bytes)?;
    for c in text.as_str().chars() {
        push_character(out, c)?;
    }
    Ok(())
}

/// A text without hidden characters.
pub fn plain_text(alloc: Global, text: &str) -> Result<String, OutOfMemory> {
    let mut out = String::new(alloc);
    push_printable(alloc, &mut out, text.as_bytes())?;
    Ok(out)
}

/// A text as a message of a log (SARIF 2.1.0 3.11): a brace is written twice, so that nothing is put in its place
/// (3.11.5), and `](` is parted, so that nothing is a link (3.11.6).
pub fn logged_text(alloc: Global, text: &str) -> Result<String, OutOfMemory> {
    let plain = plain_text(alloc, text)?;
    let mut out = String::new(alloc);
    let mut before = ' ';
    for c in plain.as_str().chars() {
        match c {
            '{' => out.push_str("{{")?,
            '}' => out.push_str("}}")?,
            '(' if before == ']' => out.push_str(" (")?,
            _ => out.push(c)?,
        }
        before = c;
    }
    Ok(out)
}

/// Whether a byte stands for itself in a reference to a file (RFC 3986 2.3, and the slash between folders).
fn is_plain(byte: u8) -> bool {
    byte.is_ascii_alphanumeric()
        || byte == b'-'
        || byte == b'.'
        || byte == b'_'
        || byte == b'~'
        || byte == b'/'
}

/// A name without all slashes at its front but one: two would begin the name of a host (RFC 3986 4.2).
fn with_one_slash(name: &str) -> &str {
    let mut extra = 0usize;
    for (at, byte) in name.as_bytes().iter().enumerate() {
        if *byte != b'/' {
            break;
        }
        extra = at;
    }
    name.get(extra..).unwrap_or(name)
}

/// Whether some reader may take the front of a name for a scheme, a drive or a host, were it not behind a folder.
fn is_mistaken(name: &str) -> bool {
    for byte in name.as_bytes() {
        if *byte == b'/' {
            return false;
        }
        if *byte == b':' || *byte == b'\\' {
            return true;
        }
    }
    name.is_empty()
}

/// A file's name as a relative reference (RFC 3986 4.2), which no reader takes for a host's or for one with a scheme.
pub fn reference_to(alloc: Global, name: &str) -> Result<String, OutOfMemory> {
    let mut out = String::new(alloc);
    let name = with_one_slash(name);
    if is_mistaken(name) {
        out.push_str("./")?;
    }
    for byte in name.as_bytes() {
        if is_plain(*byte) {
            out.push(*byte as char)?;
        } else {
            let number = *byte;
            write!(out, "%{number:02X}")?;
        }
    }
    Ok(out)
}
