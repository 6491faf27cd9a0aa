ghost use Rattle.std.specs.Prelude.{None};

use std::io;
use std::io::Write;
use wv_base::{Failed, Sink};

/// Standard output. It tells none of its bytes. A write that takes nothing of a piece is a fault.
#[derive(Drop)]
pub struct OutSink<'a> {
    rt: &'a HostRuntime,
    faults: u64,
}

impl<'a> OutSink<'a> {
    /// The standard output of the process.
    pub fn new(rt: &'a HostRuntime) -> OutSink<'a> {
        OutSink { rt, faults: 0 }
    }
}

impl Sink for OutSink<'_> {
    ghost state = { λ s. record { written = None; faults = s.faults } };

    fn write(&mut self, bytes: &[u8]) -> Result<usize, Failed> {
        match io::writer(self.rt).write(bytes) {
            Ok(count) if count > 0 || bytes.is_empty() => Ok(count),
            _ => {
                self.faults = self.faults.saturating_add(1);
                Err(Failed)
            }
        }
    }
}
