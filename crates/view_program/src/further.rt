// All that isn't supported of a program: the fault that the reply names, and the first one of each further item. What
// was looked at is left out, with blanks in its place, and the stages are called again.
use crate::items::{Item, item_around, line_around};
use crate::refusals::first_fault;
use c_core::{DataModel, Property, Spot};
use std::alloc::Global;
use view_grammar::word_text;
use view_text::{File, Files, Message, Messages, offset_of};
use wv_base::OutOfMemory;

/// At most this many items are shown.
const MOST: usize = 50;

/// At most this many bytes are read for them, once for each.
const MOST_READ: usize = 524_288;

/// How many items are looked for in a program of this length.
fn most_in(length: usize) -> usize {
    match MOST_READ.checked_div(length) {
        Some(count) => count.max(1).min(MOST),
        None => MOST,
    }
}

/// The messages about an item, and where the first of them stands.
#[derive(Drop)]
struct Found {
    place: usize,
    messages: Messages,
}

/// What was looked at already, and what wasn't.
#[derive(Drop)]
struct Search {
    alloc: Global,
    /// The program, with blanks in the place of what was looked at.
    text: Vec<u8>,
    /// The declarations that are left out, whose names are no faults of other items.
    lost: Vec<(usize, usize)>,
    /// Where the items end that were looked at.
    ends: Vec<usize>,
    found: Vec<Found>,
}

/// A text with blanks in the place of the bytes from `start` to `end`; the ends of lines stay.
fn without(alloc: Global, text: &[u8], start: usize, end: usize) -> Result<Vec<u8>, OutOfMemory> {
    let mut left = Vec::new(alloc);
    for (at, byte) in text.iter().enumerate() {
        let is_left = at < start || at >= end || *byte == b'\n';
        left.push(if is_left { *byte } else { b' ' })?;
    }
    Ok(left)
}

fn is_part(byte: u8) -> bool {
    byte == b'_' || byte.is_ascii_alphanumeric()
}

/// Whether a word is one of the words of a text.
fn has_word(text: &[u8], word: &[u8]) -> bool {
    for piece in text.split(|byte| !is_part(*byte)) {
        if piece == word {
            return true;
        }
    }
    false
}

/// The item of a message, or the line of a directive.
fn item_of(text: &[u8], message: &Message, spot: Spot) -> Item {
    if message.code.as_str() == "directive" {
        line_around(text, spot)
    } else {
        item_around(text, spot)
    }
}

/// Whether a fault is of the program as a whole.
fn is_of_all(message: &Message) -> bool {
    let code = message.code.as_str();
    code == "check-main" || code == "check-cells"
}

impl Search {
    fn new(alloc: Global, text: &[u8]) -> Result<Search, OutOfMemory> {
        Ok(Search {
            alloc,
            text: Vec::from_slice(alloc, text)?,
            lost: Vec::new(alloc),
            ends: Vec::new(alloc),
            found: Vec::new(alloc),
        })
    }

    /// The first fault of what is left. What is said of it needs the text of the program alone.
    fn next_fault(&self, model: DataModel, property: Property) -> Result<Messages, OutOfMemory> {
        let text = self.text.as_slice();
        let left = Files {
            names: [""; 4],
            texts: [text; 4],
        };
        let mut messages = Messages::new(self.alloc);
        first_fault(self.alloc, &left, model, property, &mut messages)?;
        Ok(messages)
    }

    fn leave_out(&mut self, start: usize, end: usize) -> Result<(), OutOfMemory> {
        self.text = without(self.alloc, self.text.as_slice(), start, end)?;
        Ok(())
    }

    /// Leaves out the block of a function where a place stands in it, and else the whole item.
    fn leave_out_item(&mut self, item: Item, place: usize) -> Result<(), OutOfMemory> {
        self.ends.push(item.end)?;
        if item.has_in_body(place) {
            return self.leave_out(item.body_start, item.body_end);
        }
        self.lost.push((item.start, item.body_start.min(item.end)))?;
        self.leave_out(item.start, item.end)
    }

    /// Whether a word is declared in what is left out.
    fn is_lost(&self, program: &[u8], word: &str) -> bool {
        for range in self.lost.as_slice() {
            let (start, end) = *range;
            if has_word(program.get(start..end).unwrap_or(&[]), word.as_bytes()) {
                return true;
            }
        }
        false
    }

    /// Whether a message is about a name whose declaration is left out, or about a `main` that is.
    fn is_follow_up(
        &self,
        program: &[u8],
        message: &Message,
        spot: Spot,
    ) -> Result<bool, OutOfMemory> {
        if message.code.as_str() == "check-main" {
            return Ok(self.is_lost(program, "main"));
        }
        if message.code.as_str() != "check-name" {
            return Ok(false);
        }
        let word = word_text(self.alloc, program, spot)?;
        Ok(!word.is_empty() && self.is_lost(program, word.as_str()))
    }

    /// Looks for the next fault; whether there may be another one after it.
    fn look(
        &mut self,
        program: &[u8],
        model: DataModel,
        property: Property,
    ) -> Result<bool, OutOfMemory> {
        let messages = self.next_fault(model, property)?;
        let Some(first) = messages.as_slice().first() else {
            return Ok(false);
        };
        let Some(spot) = first.spot else {
            return Ok(false);
        };
        let item = item_of(program, first, spot);
        if self.ends.as_slice().contains(&item.end) {
            return Ok(false);
        }
        let place = offset_of(program, spot);
        let is_last = is_of_all(first);
        let is_follow_up = self.is_follow_up(program, first, spot)?;
        self.leave_out_item(item, place)?;
        if !is_follow_up {
            self.found.push(Found { place, messages })?;
        }
        Ok(!is_last)
    }

    /// Looks for the first faults of at most this many items; whether there are no others.
    fn look_for(
        &mut self,
        program: &[u8],
        model: DataModel,
        property: Property,
        most: usize,
    ) -> Result<bool, OutOfMemory> {
        for _ in 0..most {
            if !self.look(program, model, property)? {
                return Ok(true);
            }
        }
        Ok(false)
    }

    /// The places of what was found, each with its number: first that of the reply, and then in the order of the text.
    fn order(&self) -> Result<Vec<(usize, usize)>, OutOfMemory> {
        let mut places = Vec::new(self.alloc);
        for (index, found) in self.found.as_slice().iter().enumerate() {
            let place = if index == 0 { 0 } else { found.place };
            places.push((place, index))?;
        }
        places.sort_unstable();
        Ok(places)
    }

    /// What was found.
    fn show(&self, out: &mut Messages) -> Result<(), OutOfMemory> {
        let places = self.order()?;
        for place in places.as_slice() {
            let (_, index) = *place;
            if let Some(found) = self.found.get(index) {
                out.extend_from(found.messages.as_slice())?;
            }
        }
        Ok(())
    }
}

/// What there is to say of a program that isn't supported: the fault that the reply names, and the first one of each
/// further item.
pub fn explain_refused(
    alloc: Global,
    files: &Files<'_>,
    model: DataModel,
    property: Property,
    out: &mut Messages,
) -> Result<(), OutOfMemory> {
    let program = files.text(File::Program);
    let most = most_in(program.len());
    let mut search = Search::new(alloc, program)?;
    let are_all = search.look_for(program, model, property, most)?;
    search.show(out)?;
    if are_all {
        return Ok(());
    }
    out.remark(
        File::Program,
        None,
        "the search ends here: further items may have faults too",
    )
}
