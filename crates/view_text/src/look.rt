// How messages are laid out for their reader: the width of their lines, and colours.
use crate::message::Level;
use wv_base::OutOfMemory;

/// So wide are the lines of files and pipes: hardly any line of a program is wider.
const PLAIN_WIDTH: u32 = 240;

/// What a line is cut to at least.
const LEAST_WIDTH: u32 = 40;

/// How a reader's terminal shows messages.
#[derive(Clone, Copy, Debug, PartialEq, Eq)]
pub struct Look {
    /// Lines of files are cut to so many bytes, what stands before them included.
    pub width: u32,
    /// Whether colours are asked for, by the sequences of ECMA-48 8.3.117 (SGR).
    pub is_coloured: bool,
    /// Whether the lines of the program are shown with their counts where a run isn't confirmed, too.
    pub has_counts: bool,
    /// Whether a terminal reads it: then the reply, too, is shown without hidden characters.
    pub is_terminal: bool,
}

/// A part of a message that has a colour of its own.
#[derive(Clone, Copy, Debug)]
pub enum Paint {
    /// The name of a file, with line and column.
    Place,
    Level(Level),
    /// The number of a line.
    Number,
}

impl Paint {
    /// The parameters of its colour: bold, red, magenta, cyan, blue.
    fn sequence(self) -> &'static str {
        match self {
            Paint::Place => "\x1b[1m",
            Paint::Level(Level::Error) => "\x1b[1;31m",
            Paint::Level(Level::Warning) => "\x1b[1;35m",
            Paint::Level(Level::Note) => "\x1b[1;36m",
            Paint::Number => "\x1b[34m",
        }
    }
}

impl Look {
    /// Without colours, and as wide as files and pipes have it.
    pub fn plain() -> Look {
        Look {
            width: PLAIN_WIDTH,
            is_coloured: false,
            has_counts: false,
            is_terminal: false,
        }
    }

    /// How many bytes of a line are shown behind so many others, at least some.
    pub fn room(&self, before: usize) -> usize {
        (self.width.max(LEAST_WIDTH) as usize)
            .saturating_sub(before)
            .max(20)
    }

    /// A painted part begins.
    pub fn begin(&self, out: &mut String, paint: Paint) -> Result<(), OutOfMemory> {
        if self.is_coloured {
            out.push_str(paint.sequence())?;
        }
        Ok(())
    }

    /// A painted part ends.
    pub fn end(&self, out: &mut String) -> Result<(), OutOfMemory> {
        if self.is_coloured {
            out.push_str("\x1b[0m")?;
        }
        Ok(())
    }
}
