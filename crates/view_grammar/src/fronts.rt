// Fronts of an item, and whether something completes them to items.
use crate::brackets::Walk;
use crate::sources::{Spelling, read_source};
use c_parser::ParseFault;
use c_tokens::{Punct, Token, TokenFault, TokenKind};
use std::alloc::Global;
use wv_base::OutOfMemory;

/// So many bytes are read while a front grows.
const MOST_BYTES: usize = 16_777_216;

/// What may be wanting at the end of a front, before what is open in it is closed.
const WANTING: [&str; 8] = ["", "0", "x", "0 : 0", ": 0", "(0)", "(;;)", "int x"];

/// What may be wanting behind the parentheses that are open at the end of a front.
const BEHIND: [&str; 5] = [";", "", "{}", "0;", "; while (0);"];

/// What may be wanting behind a statement.
const BEHIND_STATEMENT: [&str; 3] = ["", "while (0);", ";"];

/// A front of an item.
#[derive(Drop)]
pub struct Front {
    text: Vec<u8>,
    walk: Walk,
    /// How much of the text stands before and in each bracket that is open.
    opened: Vec<usize>,
    /// How many bytes may still be read.
    left: usize,
}

fn push_part(text: &mut Vec<u8>, part: &str) -> Result<(), OutOfMemory> {
    text.extend_from_slice(part.as_bytes())?;
    text.push(b' ')?;
    Ok(())
}

/// Whether a front is a source with what is wanting, what closes its parentheses, what is wanting behind them, what
/// closes its blocks.
fn is_spelled(
    alloc: Global,
    front: &[u8],
    wanting: &str,
    inner: &str,
    behind: &str,
    outer: &str,
) -> Result<bool, OutOfMemory> {
    let mut text = Vec::from_slice(alloc, front)?;
    text.push(b'\n')?;
    push_part(&mut text, wanting)?;
    push_part(&mut text, inner)?;
    push_part(&mut text, behind)?;
    push_part(&mut text, outer)?;
    match read_source(alloc, text.as_slice()) {
        Spelling::Source(_) => Ok(true),
        Spelling::NoTokens(TokenFault::OutOfMemory) => Err(OutOfMemory),
        Spelling::NoSource(ParseFault::OutOfMemory) => Err(OutOfMemory),
        Spelling::NoTokens(_) | Spelling::NoSource(_) => Ok(false),
    }
}

fn ends_statement(token: &Token) -> bool {
    matches!(
        &token.kind,
        TokenKind::Punct(Punct::Semicolon | Punct::BraceClose)
    )
}

/// Whether a statement that ended before a token may go on with it.
fn goes_on(next: Option<&Token>) -> bool {
    match next {
        Some(token) => match &token.kind {
            TokenKind::Word(word) => word.as_str() == "else" || word.as_str() == "while",
            _ => false,
        },
        None => false,
    }
}

impl Front {
    pub fn new(alloc: Global) -> Front {
        Front {
            text: Vec::new(alloc),
            walk: Walk::new(alloc),
            opened: Vec::new(alloc),
            left: MOST_BYTES,
        }
    }

    /// The front of this text, with what its tokens leave open.
    pub fn of(alloc: Global, text: &[u8], walk: Walk) -> Result<Front, OutOfMemory> {
        Ok(Front {
            text: Vec::from_slice(alloc, text)?,
            walk,
            opened: Vec::new(alloc),
            left: MOST_BYTES,
        })
    }

    /// Adds a token, with its text.
    pub fn pass(&mut self, token: &Token, piece: &[u8]) -> Result<(), OutOfMemory> {
        self.walk.pass(token)?;
        self.text.extend_from_slice(piece)?;
        Ok(())
    }

    fn pass_bracket(&mut self) -> Result<(), OutOfMemory> {
        if self.walk.depth() > self.opened.len() {
            self.opened.push(self.text.len())?;
        } else if self.walk.depth() < self.opened.len() {
            let _ = self.opened.pop();
        }
        Ok(())
    }

    /// Adds a token, and leaves out the statements of the innermost block where the last of them is whole before the
    /// next token.
    pub fn pass_shortened(
        &mut self,
        token: &Token,
        piece: &[u8],
        next: Option<&Token>,
    ) -> Result<(), OutOfMemory> {
        let was_between = self.walk.is_between_statements();
        self.pass(token, piece)?;
        self.pass_bracket()?;
        let is_between = was_between && self.walk.is_between_statements();
        if is_between && ends_statement(token) && !goes_on(next) {
            let kept = self.opened.last().copied().unwrap_or(self.text.len());
            self.text.truncate(kept);
        }
        Ok(())
    }

    /// Whether something completes a front that ends with a statement.
    pub fn is_whole(&self, alloc: Global) -> Result<bool, OutOfMemory> {
        let outer = self.walk.outer(alloc)?;
        for behind in BEHIND_STATEMENT {
            if is_spelled(alloc, self.text.as_slice(), "", "", behind, outer.as_str())? {
                return Ok(true);
            }
        }
        Ok(false)
    }

    /// Whether bytes are left to read a front with its completion.
    fn may_read(&mut self, inner: &str, outer: &str) -> bool {
        let closing = inner.len().saturating_add(outer.len());
        let size = self.text.len().saturating_add(closing);
        let has_room = size <= self.left;
        self.left = self.left.saturating_sub(size);
        has_room
    }

    fn is_completed_by(
        &mut self,
        alloc: Global,
        inner: &str,
        behind: &str,
        outer: &str,
    ) -> Result<bool, OutOfMemory> {
        for wanting in WANTING {
            if !self.may_read(inner, outer) {
                return Ok(false);
            }
            if is_spelled(alloc, self.text.as_slice(), wanting, inner, behind, outer)? {
                return Ok(true);
            }
        }
        Ok(false)
    }

    /// Whether something completes the front to items, as far as bytes are left to read it.
    pub fn is_completed(&mut self, alloc: Global) -> Result<bool, OutOfMemory> {
        let inner = self.walk.inner(alloc)?;
        let outer = self.walk.outer(alloc)?;
        for behind in BEHIND {
            if self.is_completed_by(alloc, inner.as_str(), behind, outer.as_str())? {
                return Ok(true);
            }
        }
        Ok(false)
    }
}
