// Lines and columns of a text, both from 1, columns in bytes.
use c_core::Spot;

/// The line of this number, without its end; empty where there is none.
pub fn line_of(text: &[u8], number: u32) -> &[u8] {
    let mut line = 1u32;
    let mut start = 0usize;
    for (at, byte) in text.iter().enumerate() {
        if *byte == b'\n' {
            if line == number {
                return text.get(start..at).unwrap_or(&[]);
            }
            line = line.saturating_add(1);
            start = at.saturating_add(1);
        }
    }
    if line == number {
        text.get(start..).unwrap_or(&[])
    } else {
        &[]
    }
}

/// How many bytes stand before a place; at most the length of the text.
pub fn offset_of(text: &[u8], spot: Spot) -> usize {
    let mut line = 1u32;
    let mut column = 1u32;
    for (at, byte) in text.iter().enumerate() {
        if line > spot.line || (line == spot.line && column >= spot.column) {
            return at;
        }
        if *byte == b'\n' {
            line = line.saturating_add(1);
            column = 1;
        } else {
            column = column.saturating_add(1);
        }
    }
    text.len()
}

/// The place after so many bytes.
pub fn spot_at(text: &[u8], offset: usize) -> Spot {
    let mut line = 1u32;
    let mut column = 1u32;
    for byte in text.get(..offset).unwrap_or(text) {
        if *byte == b'\n' {
            line = line.saturating_add(1);
            column = 1;
        } else {
            column = column.saturating_add(1);
        }
    }
    Spot { line, column }
}

/// The length of a text that stands at a place word for word; 0 where another does.
pub fn width_at(text: &[u8], spot: Spot, part: &str) -> usize {
    let start = offset_of(text, spot);
    let end = start.saturating_add(part.len());
    if text.get(start..end) == Some(part.as_bytes()) {
        part.len()
    } else {
        0
    }
}
