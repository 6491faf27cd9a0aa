// The part of a long line that is shown: round the text that is marked in it.
use crate::look::Look;
use crate::printed::push_printable;
use std::alloc::Global;
use wv_base::OutOfMemory;

/// What stands for a part of a line that isn't shown.
const CUT: &str = "...";

/// A line, and which of its bytes are shown.
#[derive(Clone, Copy, Debug)]
pub struct Window<'a> {
    line: &'a [u8],
    start: usize,
    end: usize,
}

/// The first byte of a character from an offset on.
fn character_from(line: &[u8], at: usize) -> usize {
    for further in 0..4usize {
        let place = at.saturating_add(further);
        match line.get(place) {
            Some(0x80..=0xbf) => {}
            _ => return place,
        }
    }
    at
}

impl<'a> Window<'a> {
    /// The whole of a line, or, of one for which there is no room, so much of it round the bytes from `column` to
    /// `behind`.
    pub fn of(line: &'a [u8], column: usize, behind: usize, room: usize) -> Window<'a> {
        if line.len() <= room {
            return Window {
                line,
                start: 0,
                end: line.len(),
            };
        }
        let room = room.saturating_sub(2 * CUT.len());
        let marked = behind.saturating_sub(column).min(room);
        let before = room.saturating_sub(marked) / 2;
        let end = column
            .saturating_sub(before)
            .saturating_add(room)
            .min(line.len());
        Window {
            line,
            start: character_from(line, end.saturating_sub(room)),
            end: character_from(line, end),
        }
    }

    /// Appends what is shown of the line.
    pub fn push_line(&self, alloc: Global, out: &mut String) -> Result<(), OutOfMemory> {
        if self.start > 0 {
            out.push_str(CUT)?;
        }
        push_printable(
            alloc,
            out,
            self.line.get(self.start..self.end).unwrap_or(&[]),
        )?;
        if self.end < self.line.len() {
            out.push_str(CUT)?;
        }
        Ok(())
    }

    /// Appends blanks up to a byte of the line, tabs for its tabs, and then a caret, with a tilde for each further
    /// character up to another byte.
    pub fn push_mark(
        &self,
        alloc: Global,
        out: &mut String,
        column: usize,
        behind: usize,
    ) -> Result<(), OutOfMemory> {
        if self.start > 0 {
            out.push_str("   ")?;
        }
        let before = self
            .line
            .get(self.start..column.min(self.line.len()))
            .unwrap_or(&[]);
        push_blanks(alloc, out, before)?;
        let marked = self.line.get(column..behind.min(self.end)).unwrap_or(&[]);
        push_tildes(alloc, out, marked)
    }
}

/// Appends a blank for each character of these bytes, and a tab for each tab.
pub fn push_blanks(alloc: Global, out: &mut String, before: &[u8]) -> Result<(), OutOfMemory> {
    let text = String::from_utf8_lossy(alloc, before)?;
    for c in text.as_str().chars() {
        out.push(if c == '\t' { '\t' } else { ' ' })?;
    }
    Ok(())
}

/// Appends a caret for the first character of these bytes, even where there is none, and a tilde for each other.
fn push_tildes(alloc: Global, out: &mut String, marked: &[u8]) -> Result<(), OutOfMemory> {
    let text = String::from_utf8_lossy(alloc, marked)?;
    let mut is_first = true;
    for _ in text.as_str().chars() {
        out.push(if is_first { '^' } else { '~' })?;
        is_first = false;
    }
    if is_first {
        out.push_str("^")?;
    }
    Ok(())
}
