// Messages by the lines that they are about, so that a file is gone through once.
use crate::message::{File, Message};
use std::alloc::Global;
use wv_base::OutOfMemory;

/// The messages that are about a place of a file: the line of each and its number among the messages, in the order of
/// lines.
pub fn by_line(
    alloc: Global,
    messages: &[Message],
    file: File,
) -> Result<Vec<(u32, usize)>, OutOfMemory> {
    let mut places = Vec::new(alloc);
    for (index, message) in messages.iter().enumerate() {
        if let Some(spot) = message.spot {
            if message.file == file {
                places.push((spot.line, index))?;
            }
        }
    }
    places.sort_unstable();
    Ok(places)
}

/// How many of these places stand on lines up to a number.
fn count_up_to(places: &[(u32, usize)], number: u32) -> usize {
    let mut count = 0usize;
    for place in places {
        let (line, _) = *place;
        if line > number {
            break;
        }
        count = count.saturating_add(1);
    }
    count
}

/// The places up to a line, and those behind it.
pub fn parted_at(places: &[(u32, usize)], number: u32) -> (&[(u32, usize)], &[(u32, usize)]) {
    let count = count_up_to(places, number);
    (
        places.get(..count).unwrap_or(places),
        places.get(count..).unwrap_or(&[]),
    )
}
