ghost use Rattle.std.specs.Prelude.{None};

use std::alloc::Global;
use wv_base::{Failed, Sink};

/// A reply as it is written, kept in memory. It tells none of its bytes.
#[derive(Drop)]
pub struct ReplySink {
    bytes: Vec<u8>,
    faults: u64,
}

impl ReplySink {
    /// Nothing is written yet.
    pub fn new(alloc: Global) -> ReplySink {
        ReplySink {
            bytes: Vec::new(alloc),
            faults: 0,
        }
    }

    /// What was written.
    pub fn into_bytes(self) -> Vec<u8> {
        self.bytes
    }

    /// Whether memory ran out for what was written.
    pub fn has_failed(&self) -> bool {
        self.faults > 0
    }
}

impl Sink for ReplySink {
    ghost state = { λ s. record { written = None; faults = s.faults } };

    fn write(&mut self, bytes: &[u8]) -> Result<usize, Failed> {
        match self.bytes.extend_from_slice(bytes) {
            Ok(()) => Ok(bytes.len()),
            Err(_) => {
                self.faults = self.faults.saturating_add(1);
                Err(Failed)
            }
        }
    }
}
