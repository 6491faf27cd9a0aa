// The items of a program's text, by its brackets and semicolons alone: a text that isn't supported has no others.
use c_core::Spot;
use view_text::offset_of;

/// The bytes of an item.
#[derive(Clone, Copy, Debug)]
pub struct Item {
    pub start: usize,
    /// Where the block of a function begins and ends, without its braces; both are the item's end where it has none.
    pub body_start: usize,
    pub body_end: usize,
    pub end: usize,
}

impl Item {
    /// Whether a place stands in the block of a function, or at the brace that closes it.
    pub fn has_in_body(&self, place: usize) -> bool {
        place >= self.body_start && place <= self.body_end && self.body_end < self.end
    }
}

/// What a byte belongs to.
#[derive(Clone, Copy, Debug, PartialEq, Eq)]
enum Part {
    Code,
    /// A comment or a directive, to the end of its line.
    Line,
    Comment,
    Quoted(u8),
    /// What follows a backslash between quotes.
    Escaped(u8),
}

/// A walk over a text, which stands in one of its items.
#[derive(Clone, Copy)]
struct Walk {
    part: Part,
    /// The byte before, and the last byte before that is no blank.
    before: u8,
    last: u8,
    depth: u32,
    item: Item,
}

fn item_from(start: usize, length: usize) -> Item {
    Item {
        start,
        body_start: length,
        body_end: length,
        end: length,
    }
}

/// What the byte after this one belongs to, where this one belongs to code.
fn part_behind(before: u8, byte: u8) -> Part {
    match byte {
        b'"' | b'\'' => Part::Quoted(byte),
        b'#' => Part::Line,
        b'/' if before == b'/' => Part::Line,
        b'*' if before == b'/' => Part::Comment,
        _ => Part::Code,
    }
}

fn is_blank(byte: u8) -> bool {
    matches!(byte, b' ' | b'\t' | b'\n' | b'\r' | 0x0b | 0x0c)
}

impl Walk {
    fn new(length: usize) -> Walk {
        Walk {
            part: Part::Code,
            before: b'\n',
            last: b'\n',
            depth: 0,
            item: item_from(0, length),
        }
    }

    fn open(&mut self, at: usize) {
        if self.depth == 0 && self.last == b')' {
            self.item.body_start = at.saturating_add(1);
        }
        self.depth = self.depth.saturating_add(1);
    }

    /// Whether the brace at a place ends the item, as that of a function does.
    fn close(&mut self, at: usize, length: usize) -> bool {
        self.depth = self.depth.saturating_sub(1);
        if self.depth > 0 || self.item.body_start >= length {
            return false;
        }
        self.item.body_end = at;
        true
    }

    /// Whether a byte of code ends the item.
    fn pass_code(&mut self, at: usize, byte: u8, length: usize) -> bool {
        let ends = match byte {
            b'{' => {
                self.open(at);
                false
            }
            b'}' => self.close(at, length),
            b';' => self.depth == 0,
            _ => false,
        };
        self.part = part_behind(self.before, byte);
        if !is_blank(byte) {
            self.last = byte;
        }
        ends
    }

    /// Whether a byte ends the item.
    fn pass(&mut self, at: usize, byte: u8, length: usize) -> bool {
        let ends = match self.part {
            Part::Code => self.pass_code(at, byte, length),
            Part::Line => {
                if byte == b'\n' && self.before != b'\\' {
                    self.part = Part::Code;
                }
                false
            }
            Part::Comment => {
                if byte == b'/' && self.before == b'*' {
                    self.part = Part::Code;
                }
                false
            }
            Part::Quoted(quote) => {
                self.part = quoted_behind(quote, byte);
                false
            }
            Part::Escaped(quote) => {
                self.part = Part::Quoted(quote);
                false
            }
        };
        self.before = byte;
        ends
    }

    fn begin(&mut self, start: usize, length: usize) {
        self.item = item_from(start, length);
        self.last = b'\n';
    }
}

/// What the byte after this one belongs to, where this one stands between quotes.
fn quoted_behind(quote: u8, byte: u8) -> Part {
    if byte == quote || byte == b'\n' {
        Part::Code
    } else if byte == b'\\' {
        Part::Escaped(quote)
    } else {
        Part::Quoted(quote)
    }
}

/// The item in which a place stands.
pub fn item_around(text: &[u8], spot: Spot) -> Item {
    let place = offset_of(text, spot);
    let length = text.len();
    let mut walk = Walk::new(length);
    for (at, byte) in text.iter().enumerate() {
        if walk.pass(at, *byte, length) {
            let end = at.saturating_add(1);
            if place < end {
                walk.item.end = end;
                return walk.item;
            }
            walk.begin(end, length);
        }
    }
    walk.item
}

/// The line in which a place stands, as an item of its own.
pub fn line_around(text: &[u8], spot: Spot) -> Item {
    let start = offset_of(
        text,
        Spot {
            line: spot.line,
            column: 1,
        },
    );
    let next = Spot {
        line: spot.line.saturating_add(1),
        column: 1,
    };
    let end = offset_of(text, next);
    Item {
        start,
        body_start: end,
        body_end: end,
        end,
    }
}
