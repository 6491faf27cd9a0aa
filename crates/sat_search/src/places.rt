// Places on the trail, of which the latest is taken first.
use crate::cells::{at, filled, put};
use std::alloc::Global;
use wv_base::OutOfMemory;

/// A set of places: a bit for each.
#[derive(Drop)]
pub struct Places {
    words: Vec<u64>,
    /// the words from here on are 0
    end: usize,
}

impl Places {
    /// None of so many places.
    pub fn new(alloc: Global, many: usize) -> Result<Places, OutOfMemory> {
        Ok(Places {
            words: filled(alloc, many / 64 + 1, 0)?,
            end: 0,
        })
    }

    /// A place more.
    pub fn add(&mut self, place: u32) {
        let word = (place / 64) as usize;
        let bits = at(&self.words, word, 0);
        put(&mut self.words, word, bits | 1 << (place % 64));
        self.end = self.end.max(word + 1);
    }

    // the latest place of a word with a bit, which is left out
    fn take_from(&mut self, word: usize, bits: u64) -> usize {
        let place = 63 - bits.leading_zeros().min(63);
        put(&mut self.words, word, bits & !(1 << place));
        word.wrapping_mul(64).wrapping_add(place as usize)
    }

    /// Takes the latest place out, if there is one.
    pub fn take_latest(&mut self) -> Option<usize> {
        for _ in 0..self.end {
            let word = self.end.wrapping_sub(1);
            let bits = at(&self.words, word, 0);
            if bits != 0 {
                return Some(self.take_from(word, bits));
            }
            self.end = word;
        }
        None
    }
}
