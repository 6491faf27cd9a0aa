// A shelf that keeps what is read of its files: a pipe can be read once.
use std::alloc::Global;
use wv_base::{BeginFault, Failed, Shelf};

/// A shelf, and what was read of each file that was begun.
#[derive(Drop)]
pub struct Keeping<S> {
    shelf: S,
    kept: Vec<Vec<u8>>,
    is_lost: bool,
}

impl<S> Keeping<S> {
    /// No file is begun yet.
    pub fn new(alloc: Global, shelf: S) -> Keeping<S> {
        Keeping {
            shelf,
            kept: Vec::new(alloc),
            is_lost: false,
        }
    }

    /// What was read of the file that was begun at this number, from 0; nothing where none was.
    pub fn kept(&self, number: usize) -> &[u8] {
        match self.kept.get(number) {
            Some(bytes) => bytes.as_slice(),
            None => &[],
        }
    }

    /// Forgets what was read, before other files are begun.
    pub fn forget(&mut self, alloc: Global) {
        self.kept = Vec::new(alloc);
        self.is_lost = false;
    }

    /// Whether memory ran out for what was read.
    pub fn is_lost(&self) -> bool {
        self.is_lost
    }
}

/// Keeps bytes behind those of the last file; whether that could be done.
fn keep(kept: &mut Vec<Vec<u8>>, bytes: &[u8]) -> bool {
    match kept.last_mut() {
        Some(last) => last.extend_from_slice(bytes).is_ok(),
        None => false,
    }
}

impl<S: Shelf> Shelf for Keeping<S> {
    ghost state = { λ s. S.state s.shelf };

    fn begin(&mut self, alloc: Global, name: &str) -> Result<(), BeginFault> {
        if self.kept.push(Vec::new(alloc)).is_err() {
            self.is_lost = true;
        }
        self.shelf.begin(alloc, name)
    }

    fn read(&mut self, into: &mut [u8]) -> Result<usize, Failed> {
        match self.shelf.read(into) {
            Ok(count) => {
                if !keep(&mut self.kept, into.get(..count).unwrap_or(&[])) {
                    self.is_lost = true;
                }
                Ok(count)
            }
            Err(fault) => Err(fault),
        }
    }
}
