// Fronts of a witness, read with what is open in them closed.
use crate::opened::{closing_brackets, closing_quote};
use std::alloc::Global;
use wv_base::OutOfMemory;
use wv_yaml::{Tree, YamlFault, read};

/// What may be wanting behind a front: nothing, a value, the rest of a pair, a first entry.
const MIDDLES: [&str; 4] = ["", " x", ": x", "- x"];

/// So many bytes of a front, cut before a character that isn't whole.
pub fn front_of(text: &[u8], length: usize) -> &[u8] {
    let mut end = length.min(text.len());
    for _ in 0..3 {
        match text.get(end) {
            Some(0x80..=0xbf) => end = end.saturating_sub(1),
            _ => break,
        }
    }
    text.get(..end).unwrap_or(text)
}

/// The tree of a text of four parts, where it spells one.
fn tree_of_parts(
    alloc: Global,
    front: &[u8],
    quote: &[u8],
    middle: &[u8],
    brackets: &[u8],
) -> Result<Option<Tree>, OutOfMemory> {
    let mut text = Vec::from_slice(alloc, front)?;
    text.extend_from_slice(quote)?;
    text.extend_from_slice(middle)?;
    text.extend_from_slice(brackets)?;
    match read(alloc, text.as_slice()) {
        Ok(tree) => Ok(Some(tree)),
        Err(YamlFault::OutOfMemory) => Err(OutOfMemory),
        Err(_) => Ok(None),
    }
}

/// The tree that a front spells with the first completion that makes it readable.
pub fn tree_of_front(alloc: Global, front: &[u8]) -> Result<Option<Tree>, OutOfMemory> {
    let quote = closing_quote(alloc, front)?;
    let brackets = closing_brackets(alloc, front)?;
    for middle in MIDDLES {
        let tree = tree_of_parts(alloc, front, quote, middle.as_bytes(), brackets.as_slice())?;
        if tree.is_some() {
            return Ok(tree);
        }
    }
    if quote.is_empty() && brackets.len() == 0 {
        return Ok(None);
    }
    tree_of_parts(alloc, front, &[], &[], &[])
}
