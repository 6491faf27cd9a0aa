// Where a witness stops to be readable.
use crate::fronts::{front_of, tree_of_front};
use c_core::Spot;
use std::alloc::Global;
use std::str;
use view_text::{Growing, last_holding, spot_at};
use wv_base::OutOfMemory;

/// Whether a character may stand in a witness, wherever it stands.
fn may_stand(c: char) -> bool {
    match c {
        '\t' | '\n' | '\u{20}'..='\u{7e}' | '\u{85}' => true,
        '\u{a0}'..='\u{fffd}' | '\u{10000}'..='\u{10ffff}' => true,
        _ => false,
    }
}

/// How many bytes stand before the first that may not.
pub fn first_bad(text: &[u8]) -> usize {
    let (valid, end) = match str::from_utf8(text) {
        Ok(valid) => (valid, text.len()),
        Err(fault) => {
            let end = fault.valid_up_to();
            let front = text.get(..end).unwrap_or(&[]);
            (str::from_utf8(front).unwrap_or(""), end)
        }
    };
    for (at, c) in valid.char_indices() {
        let is_return = c == '\r' && text.get(at.saturating_add(1)) == Some(&b'\n');
        if !may_stand(c) && !is_return {
            return at;
        }
    }
    end
}

/// The ends of the lines of a text, as lengths of fronts.
fn line_ends(alloc: Global, text: &[u8]) -> Result<Vec<usize>, OutOfMemory> {
    let mut ends = Vec::new(alloc);
    ends.push(0)?;
    for (at, byte) in text.iter().enumerate() {
        if *byte == b'\n' {
            ends.push(at.saturating_add(1))?;
        }
    }
    ends.push(text.len())?;
    Ok(ends)
}

/// What fronts of a witness may have in common. Where a front can't be read, nothing is known of it.
pub trait Fronts {
    /// Whether the front still has it.
    fn has(&self, alloc: Global, front: &[u8]) -> Result<bool, OutOfMemory>;
}

/// Fronts that end with a line.
#[derive(Drop)]
struct ByLine<'a, F> {
    text: &'a [u8],
    ends: &'a [usize],
    fronts: &'a F,
}

impl<F: Fronts> Growing for ByLine<'_, F> {
    fn holds(&self, alloc: Global, length: usize) -> Result<bool, OutOfMemory> {
        let end = self.ends.get(length).copied().unwrap_or(self.text.len());
        self.fronts.has(alloc, front_of(self.text, end))
    }
}

/// Fronts that end with a byte.
#[derive(Drop)]
struct ByByte<'a, F> {
    text: &'a [u8],
    fronts: &'a F,
}

impl<F: Fronts> Growing for ByByte<'_, F> {
    fn holds(&self, alloc: Global, length: usize) -> Result<bool, OutOfMemory> {
        self.fronts.has(alloc, front_of(self.text, length))
    }
}

/// The length of the longest front that has it: by lines, and then within the first line that hasn't.
pub fn longest_front<F: Fronts + Drop>(
    alloc: Global,
    text: &[u8],
    fronts: &F,
) -> Result<usize, OutOfMemory> {
    let ends = line_ends(alloc, text)?;
    let by_line = ByLine {
        text,
        ends: ends.as_slice(),
        fronts,
    };
    let last = last_holding(alloc, &by_line, 0, ends.len().saturating_sub(1))?;
    let low = ends.get(last).copied().unwrap_or(0);
    let high = ends
        .get(last.saturating_add(1))
        .copied()
        .unwrap_or(text.len());
    let by_byte = ByByte { text, fronts };
    last_holding(alloc, &by_byte, low, high)
}

/// Fronts that can be read.
#[derive(Drop)]
struct Readable;

impl Fronts for Readable {
    fn has(&self, alloc: Global, front: &[u8]) -> Result<bool, OutOfMemory> {
        Ok(tree_of_front(alloc, front)?.is_some())
    }
}

/// Where the word begins that ends at an offset.
fn word_start(text: &[u8], end: usize) -> usize {
    let mut start = end;
    for at in (0..end).rev() {
        match text.get(at) {
            Some(byte) if byte.is_ascii_alphanumeric() || *byte == b'_' => start = at,
            _ => break,
        }
    }
    start
}

/// The place in a witness of the key that stands twice in its map, by its second time.
pub fn repeated_at(alloc: Global, text: &[u8]) -> Result<Spot, OutOfMemory> {
    let length = longest_front(alloc, text, &Readable)?;
    Ok(spot_at(text, word_start(text, length)))
}

/// Whether a witness that can't be read is the front of one that can: at its end something is left open, or is wanting.
/// One such is read once for each completion, however long it is.
pub fn is_cut(alloc: Global, text: &[u8]) -> Result<bool, OutOfMemory> {
    Readable.has(alloc, text)
}

/// The place in a witness that can't be read behind which nothing that could follow makes it readable, as far as the
/// completions that are tried tell.
pub fn stopped_at(alloc: Global, text: &[u8]) -> Result<Spot, OutOfMemory> {
    let length = longest_front(alloc, text, &Readable)?;
    Ok(spot_at(text, length))
}
