// Numbers that are found again by a hash.
use std::alloc::Global;

/// Numbers counted from 1, each in a slot that its hash chooses or just after it. A hint: whoever finds a number looks
/// whether it is the one that is sought.
#[derive(Drop)]
pub struct Slots {
    /// a power of 2 of them, or none; 0 where no number is
    numbers: Vec<u32>,
}

/// How many slots are looked at, whatever the hash. Where at most half of them are taken, no more are wanted but by
/// hashes that were made for it.
pub const REACH: usize = 32;

impl Slots {
    /// No number is found.
    pub fn new(alloc: Global) -> Slots {
        Slots {
            numbers: Vec::new(alloc),
        }
    }

    // the slot that many steps after the first one, round the end
    fn slot(&self, hash: u64, step: usize) -> usize {
        ((hash >> 32) as usize).wrapping_add(step) & self.numbers.len().wrapping_sub(1)
    }

    /// The number that many steps after the first slot; 0 where none is.
    pub fn number(&self, hash: u64, step: usize) -> u32 {
        match self.numbers.get(self.slot(hash, step)) {
            Some(number) => *number,
            None => 0,
        }
    }

    /// Lets a number be found, where a slot is free.
    pub fn put(&mut self, hash: u64, number: u32) {
        for step in 0..REACH {
            let slot = self.slot(hash, step);
            if let Some(free) = self.numbers.get_mut(slot) {
                if *free == 0 {
                    *free = number;
                    break;
                }
            }
        }
    }

    /// Makes more room where so many numbers would take more than half: all are then forgotten.
    pub fn spread(&mut self, count: usize) -> bool {
        if count <= self.numbers.len() / 2 {
            return false;
        }
        let size = count.saturating_mul(3).checked_next_power_of_two();
        let Some(size) = size else {
            return false;
        };
        if self.numbers.resize(size, 0).is_err() {
            return false;
        }
        self.numbers.fill(0);
        true
    }
}
