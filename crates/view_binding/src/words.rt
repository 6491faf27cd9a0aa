// Where a word stands in an expression.

fn is_part(byte: u8) -> bool {
    byte.is_ascii_alphanumeric() || byte == b'_'
}

/// Whether a word stands at an offset, and ends there.
fn is_word_at(bytes: &[u8], at: usize, word: &[u8]) -> bool {
    let end = at.saturating_add(word.len());
    if bytes.get(at..end) != Some(word) {
        return false;
    }
    match bytes.get(end) {
        Some(byte) => !is_part(*byte),
        None => true,
    }
}

/// How many bytes stand before a word of an expression; 0 where it isn't one of its words.
pub fn offset_of_word(expression: &str, word: &str) -> usize {
    let bytes = expression.as_bytes();
    let mut is_within = false;
    for (at, byte) in bytes.iter().enumerate() {
        if is_part(*byte) && !is_within && is_word_at(bytes, at, word.as_bytes()) {
            return at;
        }
        is_within = is_part(*byte);
    }
    0
}
