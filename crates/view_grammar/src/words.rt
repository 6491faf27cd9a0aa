// Words of programs.
use c_core::Spot;
use std::alloc::Global;
use view_text::offset_of;
use wv_base::OutOfMemory;

fn is_letter(byte: u8) -> bool {
    byte == b'_' || byte.is_ascii_alphanumeric()
}

/// The word that begins at an offset of a text; empty where none does.
fn word_at(text: &[u8], offset: usize) -> &[u8] {
    let rest = text.get(offset..).unwrap_or(&[]);
    for (at, byte) in rest.iter().enumerate() {
        if !is_letter(*byte) {
            return rest.get(..at).unwrap_or(&[]);
        }
    }
    rest
}

/// The word of a text that begins at a place; empty where none does.
pub fn word_text(alloc: Global, text: &[u8], spot: Spot) -> Result<String, OutOfMemory> {
    let word = word_at(text, offset_of(text, spot));
    Ok(String::from_utf8_lossy(alloc, word)?)
}
