use crate::reached::Reached;
use c_core::Spot;
use std::alloc::Global;
use wv_base::OutOfMemory;

/// The files that are judged.
#[derive(Clone, Copy, Debug, PartialEq, Eq)]
pub enum File {
    Program,
    Property,
    Witness,
    Certificate,
}

/// How grave a message is. A note belongs to the message before it.
#[derive(Clone, Copy, Debug, PartialEq, Eq)]
pub enum Level {
    Error,
    Warning,
    Note,
}

impl Level {
    /// Its word, in the form of compilers and of SARIF.
    pub fn word(self) -> &'static str {
        match self {
            Level::Error => "error",
            Level::Warning => "warning",
            Level::Note => "note",
        }
    }
}

/// A text of the witness that is to stand in the place of another one.
#[derive(Debug, Drop)]
pub struct Change {
    pub spot: Spot,
    /// How many bytes it replaces, from its place on.
    pub width: u32,
    pub text: String,
}

/// One message about a file, at a place of it where it has one. The code is that of the reply, and empty at a note.
#[derive(Debug, Drop)]
pub struct Message {
    pub level: Level,
    pub code: String,
    pub file: File,
    pub spot: Option<Spot>,
    /// How many bytes it is about, from its place on; 0 where that is the word that stands there.
    pub width: u32,
    pub text: String,
    /// Where the change is known that mends the witness, what it consists of.
    pub changes: Vec<Change>,
}

/// Messages in the order in which they are shown; of a confirmation, notes; and of a run how often each line of the
/// program was reached.
#[derive(Debug, Drop)]
pub struct Messages {
    alloc: Global,
    list: Vec<Message>,
    /// The number of the last error or warning.
    last_grave: usize,
    counts: Vec<Reached>,
    is_confirmed: bool,
}

impl Messages {
    /// No message yet, and no memory taken.
    pub fn new(alloc: Global) -> Messages {
        Messages {
            alloc,
            list: Vec::new(alloc),
            last_grave: 0,
            counts: Vec::new(alloc),
            is_confirmed: false,
        }
    }

    /// The messages so far.
    pub fn as_slice(&self) -> &[Message] {
        self.list.as_slice()
    }

    /// How often the run came to each line of the program, from line 1; empty where nothing was run.
    pub fn counts(&self) -> &[Reached] {
        self.counts.as_slice()
    }

    /// Whether what is shown is a confirmation.
    pub fn is_confirmed(&self) -> bool {
        self.is_confirmed
    }

    /// The run came to each line so often.
    pub fn count(&mut self, counts: Vec<Reached>) {
        self.counts = counts;
    }

    /// What is shown is a confirmation.
    pub fn confirm(&mut self) {
        self.is_confirmed = true;
    }

    fn push(
        &mut self,
        level: Level,
        code: &str,
        file: File,
        spot: Option<Spot>,
        text: String,
    ) -> Result<(), OutOfMemory> {
        let code = String::from_str(self.alloc, code)?;
        if level != Level::Note {
            self.last_grave = self.list.len();
        }
        self.list.push(Message {
            level,
            code,
            file,
            spot,
            width: 0,
            text,
            changes: Vec::new(self.alloc),
        })?;
        Ok(())
    }

    /// The last message is about so many bytes from its place on.
    pub fn mark(&mut self, width: usize) {
        if let Some(last) = self.list.last_mut() {
            last.width = u32::try_from(width).unwrap_or(u32::MAX);
        }
    }

    /// What the last error or warning is about is mended by this change of the witness, together with those before it.
    pub fn mend(&mut self, spot: Spot, width: usize, text: &str) -> Result<(), OutOfMemory> {
        let text = String::from_str(self.alloc, text)?;
        if let Some(last) = self.list.get_mut(self.last_grave) {
            last.changes.push(Change {
                spot,
                width: u32::try_from(width).unwrap_or(u32::MAX),
                text,
            })?;
        }
        Ok(())
    }

    /// Adds messages after these, without the changes that mend them.
    pub fn extend_from(&mut self, others: &[Message]) -> Result<(), OutOfMemory> {
        for other in others {
            self.list.push(Message {
                level: other.level,
                code: other.code.clone()?,
                file: other.file,
                spot: other.spot,
                width: other.width,
                text: other.text.clone()?,
                changes: Vec::new(self.alloc),
            })?;
        }
        Ok(())
    }

    /// What is refused.
    pub fn error(
        &mut self,
        code: &str,
        file: File,
        spot: Option<Spot>,
        text: String,
    ) -> Result<(), OutOfMemory> {
        self.push(Level::Error, code, file, spot, text)
    }

    /// What isn't confirmed, or not decided.
    pub fn warning(
        &mut self,
        code: &str,
        file: File,
        spot: Option<Spot>,
        text: String,
    ) -> Result<(), OutOfMemory> {
        self.push(Level::Warning, code, file, spot, text)
    }

    /// What belongs to the message before.
    pub fn note(
        &mut self,
        file: File,
        spot: Option<Spot>,
        text: String,
    ) -> Result<(), OutOfMemory> {
        self.push(Level::Note, "", file, spot, text)
    }

    /// The same for a text that stands in the program.
    pub fn remark(
        &mut self,
        file: File,
        spot: Option<Spot>,
        text: &str,
    ) -> Result<(), OutOfMemory> {
        let text = String::from_str(self.alloc, text)?;
        self.note(file, spot, text)
    }
}
