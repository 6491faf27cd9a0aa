// The brackets that are open behind some tokens, and what closes them.
use c_tokens::{Punct, Token, TokenKind};
use std::alloc::Global;
use wv_base::OutOfMemory;

/// What stands before a bracket that is open.
#[derive(Clone, Copy)]
enum Before {
    Do,
    For,
    Assign,
    Other,
}

/// A bracket that is open.
#[derive(Clone, Copy)]
struct Open {
    bracket: Punct,
    before: Before,
    semicolons: u32,
}

/// The brackets that are open behind some tokens, the innermost last.
#[derive(Drop)]
pub struct Walk {
    open: Vec<Open>,
    before: Before,
}

fn before_of_word(word: &str) -> Before {
    if word == "do" {
        Before::Do
    } else if word == "for" {
        Before::For
    } else {
        Before::Other
    }
}

fn before_of(token: &Token) -> Before {
    match &token.kind {
        TokenKind::Word(word) => before_of_word(word.as_str()),
        TokenKind::Punct(Punct::Assign) => Before::Assign,
        _ => Before::Other,
    }
}

impl Walk {
    pub fn new(alloc: Global) -> Walk {
        Walk {
            open: Vec::new(alloc),
            before: Before::Other,
        }
    }

    fn pass_semicolon(&mut self) {
        if let Some(last) = self.open.last_mut() {
            last.semicolons = last.semicolons.saturating_add(1);
        }
    }

    fn pass_sign(&mut self, sign: Punct) -> Result<(), OutOfMemory> {
        match sign {
            Punct::ParenOpen | Punct::BraceOpen | Punct::BracketOpen => self.open.push(Open {
                bracket: sign,
                before: self.before,
                semicolons: 0,
            })?,
            Punct::ParenClose | Punct::BraceClose | Punct::BracketClose => {
                let _ = self.open.pop();
            }
            Punct::Semicolon => self.pass_semicolon(),
            _ => {}
        }
        Ok(())
    }

    pub fn pass(&mut self, token: &Token) -> Result<(), OutOfMemory> {
        if let TokenKind::Punct(sign) = &token.kind {
            self.pass_sign(*sign)?;
        }
        self.before = before_of(token);
        Ok(())
    }

    /// Whether no parenthesis, no index and no list of initializers is open inside the innermost block.
    pub fn is_between_statements(&self) -> bool {
        match self.open.as_slice().last() {
            Some(last) => last.is_block(),
            None => true,
        }
    }

    /// How many brackets are open.
    pub fn depth(&self) -> usize {
        self.open.len()
    }

    /// What closes the brackets inside the innermost block, the innermost first.
    pub fn inner(&self, alloc: Global) -> Result<String, OutOfMemory> {
        let mut text = String::new(alloc);
        for bracket in self.open.as_slice().iter().rev() {
            if matches!(bracket.bracket, Punct::BraceOpen) {
                break;
            }
            text.push_str(bracket.closing())?;
        }
        Ok(text)
    }

    /// What closes the blocks and what is open round them, the innermost first.
    pub fn outer(&self, alloc: Global) -> Result<String, OutOfMemory> {
        let mut text = String::new(alloc);
        let mut is_inside = true;
        for bracket in self.open.as_slice().iter().rev() {
            is_inside = is_inside && !matches!(bracket.bracket, Punct::BraceOpen);
            if !is_inside {
                text.push_str(bracket.closing())?;
            }
        }
        Ok(text)
    }
}

impl Open {
    fn is_block(&self) -> bool {
        matches!(self.bracket, Punct::BraceOpen) && !matches!(self.before, Before::Assign)
    }

    fn closing_parenthesis(&self) -> &'static str {
        match self.before {
            Before::For => match self.semicolons {
                0 => ";;)",
                1 => ";)",
                _ => ")",
            },
            _ => ")",
        }
    }

    fn closing_brace(&self) -> &'static str {
        match self.before {
            Before::Do => "} while (0);",
            Before::Assign => "};",
            _ => "}",
        }
    }

    fn closing(&self) -> &'static str {
        match self.bracket {
            Punct::ParenOpen => self.closing_parenthesis(),
            Punct::BracketOpen => "]",
            _ => self.closing_brace(),
        }
    }
}
