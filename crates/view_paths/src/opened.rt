// What is open at the end of a front of a witness: quotes and flow collections.
use std::alloc::Global;
use wv_base::OutOfMemory;

/// Where a walk over bytes stands.
#[derive(Drop)]
struct Walk {
    /// The closing brackets that are owed, the innermost last.
    closing: Vec<u8>,
    /// The quote of the scalar that is open.
    quote: Option<u8>,
    /// Whether a backslash stands before, between double quotes.
    escaped: bool,
    in_comment: bool,
    before: u8,
}

/// Whether a quoted scalar or a flow collection may begin behind this byte.
fn may_begin_behind(byte: u8) -> bool {
    match byte {
        b'\n' | b' ' | b'\t' | b'[' | b'{' | b',' | b':' | b'-' | b'\'' | b'"' => true,
        _ => false,
    }
}

fn is_gap(byte: u8) -> bool {
    byte == b'\n' || byte == b' ' || byte == b'\t'
}

impl Walk {
    fn new(alloc: Global) -> Walk {
        Walk {
            closing: Vec::new(alloc),
            quote: None,
            escaped: false,
            in_comment: false,
            before: b'\n',
        }
    }

    fn pass_quoted(&mut self, quote: u8, byte: u8) {
        if self.escaped {
            self.escaped = false;
        } else if quote == b'"' && byte == b'\\' {
            self.escaped = true;
        } else if byte == quote {
            self.quote = None;
        }
    }

    fn pass_bracket(&mut self, byte: u8) -> Result<(), OutOfMemory> {
        let opens = self.closing.len() > 0 || may_begin_behind(self.before);
        match byte {
            b'[' if opens => self.closing.push(b']')?,
            b'{' if opens => self.closing.push(b'}')?,
            b']' | b'}' if self.closing.last() == Some(&byte) => {
                let _ = self.closing.pop();
            }
            _ => {}
        }
        Ok(())
    }

    fn pass_plain(&mut self, byte: u8) -> Result<(), OutOfMemory> {
        match byte {
            b'#' if is_gap(self.before) => {
                self.in_comment = true;
                Ok(())
            }
            b'"' | b'\'' if may_begin_behind(self.before) => {
                self.quote = Some(byte);
                Ok(())
            }
            _ => self.pass_bracket(byte),
        }
    }

    fn pass(&mut self, byte: u8) -> Result<(), OutOfMemory> {
        if self.in_comment {
            self.in_comment = byte != b'\n';
        } else if let Some(quote) = self.quote {
            self.pass_quoted(quote, byte);
        } else {
            self.pass_plain(byte)?;
        }
        self.before = byte;
        Ok(())
    }
}

/// The quote that closes the open scalar, if one is open.
pub fn closing_quote(alloc: Global, front: &[u8]) -> Result<&'static [u8], OutOfMemory> {
    let mut walk = Walk::new(alloc);
    for byte in front {
        walk.pass(*byte)?;
    }
    Ok(match walk.quote {
        Some(b'"') if walk.escaped => b"n\"",
        Some(b'"') => b"\"",
        Some(_) => b"'",
        None => b"",
    })
}

/// The brackets that close what is open at the end of a front, the innermost first.
pub fn closing_brackets(alloc: Global, front: &[u8]) -> Result<Vec<u8>, OutOfMemory> {
    let mut walk = Walk::new(alloc);
    for byte in front {
        walk.pass(*byte)?;
    }
    let mut brackets = Vec::new(alloc);
    for byte in walk.closing.as_slice().iter().rev() {
        brackets.push(*byte)?;
    }
    Ok(brackets)
}
