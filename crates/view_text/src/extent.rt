// How far the text goes that a message is about, where the message doesn't say it.
use crate::message::File;

/// Whether a byte belongs to a word: of a program to a name or a number, of other files to a key or a plain scalar.
fn is_part(file: File, byte: u8) -> bool {
    let is_joint = matches!(byte, b'-' | b'.') && file != File::Program;
    byte.is_ascii_alphanumeric() || byte == b'_' || byte >= 0x80 || is_joint
}

/// How many bytes stand before the first that belongs to no word.
fn word_length(file: File, rest: &[u8]) -> usize {
    for (at, byte) in rest.iter().enumerate() {
        if !is_part(file, *byte) {
            return at;
        }
    }
    rest.len()
}

/// The bytes up to the quote that closes a text, and with it; 1 where none does.
fn quoted_length(quote: u8, rest: &[u8]) -> usize {
    let mut is_escaped = true;
    for (at, byte) in rest.iter().enumerate() {
        if is_escaped {
            is_escaped = false;
        } else if *byte == quote {
            return at.saturating_add(1);
        } else {
            is_escaped = *byte == b'\\';
        }
    }
    1
}

/// The length of the word, or of the text in quotes, with which the rest of a line begins; 1 where it begins otherwise.
pub fn extent_of(file: File, rest: &[u8]) -> usize {
    match rest.first() {
        Some(quote) if matches!(*quote, b'"' | b'\'') => quoted_length(*quote, rest),
        _ => word_length(file, rest).max(1),
    }
}
