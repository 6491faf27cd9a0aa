// What is seen of a run.
use c_core::Spot;
use c_meaning::{Event, Memory, Watcher};
use wv_base::OutOfMemory;

/// An event, with the number of cells of its moment and a sum over what some of them hold.
#[derive(Clone, Copy, PartialEq, Eq)]
pub struct Sight {
    event: Event,
    cells: usize,
    sum: i128,
}

/// Keeps all events.
#[derive(Drop)]
pub struct Events {
    pub seen: Vec<Sight>,
}

// Over the first elements of the first objects.
fn sum_of(memory: &Memory) -> i128 {
    let mut sum: i128 = 0;
    for object in 0..12 {
        for index in 0..4 {
            let value = memory.cell(object, index).unwrap_or(7);
            sum = sum.wrapping_mul(31).wrapping_add(value);
        }
    }
    sum
}

impl Watcher for Events {
    ghost Seen = { Unit {0} };

    ghost seen = { λ _. tt };

    ghost after = { λ event cells seen. tt };

    // it takes memory
    ghost sure = { ⊥ };

    fn see(&mut self, event: Event, memory: &Memory) -> Result<(), OutOfMemory> {
        self.seen.push(Sight {
            event,
            cells: memory.count(),
            sum: sum_of(memory),
        })?;
        Ok(())
    }

    // no event is left out
    fn skips(&mut self, _spot: Spot) -> bool {
        false
    }
}
