ghost use Rattle.std.specs.Prelude.{[], Some, None, is_some, if◌then◌else◌};

use std::alloc::Global;
use std::fs::File;
use std::io::Read;
use wv_base::{BeginFault, Failed, Shelf, Text};

/// The files of the file system. It tells none of their bytes: what a file holds is known only by reading it.
#[derive(Drop)]
pub struct FileShelf<'a> {
    rt: &'a HostRuntime,
    file: Option<File>,
    taken: u64,
    begins: u64,
    asked: Text,
    faults: u64,
    mark: u64,
}

impl<'a> FileShelf<'a> {
    /// No file is begun yet.
    pub fn new(rt: &'a HostRuntime, alloc: Global) -> FileShelf<'a> {
        FileShelf {
            rt,
            file: None,
            taken: 0,
            begins: 0,
            asked: Text::new(alloc),
            faults: 0,
            mark: 0,
        }
    }
}

impl Shelf for FileShelf<'_> {
    ghost state = { λ s. record {
      files = None;
      rest = (if is_some s.file then None else Some []);
      taken = s.taken;
      begins = s.begins;
      asked = s.asked;
      faults = s.faults;
      mark = s.mark;
    } };

    fn begin(&mut self, alloc: Global, name: &str) -> Result<(), BeginFault> {
        self.begins = self.begins.saturating_add(1);
        self.mark = self.faults;
        self.taken = 0;
        self.file = None;
        match Text::of(alloc, name) {
            Ok(asked) => self.asked = asked,
            Err(_) => return Err(BeginFault::OutOfMemory),
        }
        match File::open(self.rt, name) {
            Ok(file) => {
                self.file = Some(file);
                Ok(())
            }
            Err(_) => {
                self.faults = self.faults.saturating_add(1);
                Err(BeginFault::Failed)
            }
        }
    }

    fn read(&mut self, into: &mut [u8]) -> Result<usize, Failed> {
        // The proof knows the range of a field behind a reference once it is read.
        let _taken = self.taken;
        let Some(file) = &mut self.file else {
            return Ok(0);
        };
        match file.read(into) {
            Ok(count) => {
                self.taken = self.taken.saturating_add(count as u64);
                Ok(count)
            }
            Err(_) => {
                self.faults = self.faults.saturating_add(1);
                Err(Failed)
            }
        }
    }
}
