// Rows of tokens: a source, and after it its tokens, or the place where it has none.
use c_tokens::{Token, TokenFault, TokenKind, plain_tokens, tokens};
use row_files::{Files, NotTried, Row, program};
use std::alloc::{AllocError, Global};
use wv_base::Seq;

fn suffix(unsigned: bool, longs: u8) -> &'static str {
    let texts = if unsigned {
        ["u", "ul", "ull"]
    } else {
        ["", "l", "ll"]
    };
    match texts.get(usize::from(longs)) {
        Some(text) => text,
        None => texts[2],
    }
}

/// A token: its place, then a word as it is, a number as `#` with `d` where it is decimal and its suffix, a character
/// as `'` and its value, a string as `"`, a sign by its name.
fn shown_token(alloc: Global, token: &Token) -> Result<String, AllocError> {
    let line = token.spot.line;
    let column = token.spot.column;
    match &token.kind {
        TokenKind::Word(text) => format!(in alloc; "{line}:{column} {}", text.as_str()),
        TokenKind::Number {
            value,
            decimal,
            unsigned,
            longs,
        } => {
            let radix = if *decimal { "d" } else { "" };
            let suffix = suffix(*unsigned, *longs);
            format!(in alloc; "{line}:{column} #{value}{radix}{suffix}")
        }
        TokenKind::Char(value) => format!(in alloc; "{line}:{column} '{value}"),
        TokenKind::Str => format!(in alloc; "{line}:{column} \""),
        TokenKind::Punct(sign) => format!(in alloc; "{line}:{column} {sign:?}"),
    }
}

fn shown_tokens(alloc: Global, found: &Seq<Token>) -> Result<String, AllocError> {
    let mut all = String::new(alloc);
    for token in found.as_slice() {
        if all.len() > 0 {
            all.push_str(", ")?;
        }
        all.push_str(shown_token(alloc, token)?.as_str())?;
    }
    if all.len() == 0 {
        all.push_str("nothing")?;
    }
    Ok(all)
}

fn shown(alloc: Global, answer: Result<Seq<Token>, TokenFault>) -> Result<String, AllocError> {
    match answer {
        Ok(found) => shown_tokens(alloc, &found),
        Err(TokenFault::Token { line, column }) => format!(in alloc; "token {line}:{column}"),
        Err(TokenFault::Directive { line }) => format!(in alloc; "directive {line}"),
        Err(TokenFault::OutOfMemory) => Err(AllocError),
    }
}

/// The tokens of a row's source, or the fault.
pub fn told(files: &Files<'_>, row: &Row) -> Result<String, NotTried> {
    let Some(text) = program(files, row)? else {
        return Err(NotTried::Lacks("source"));
    };
    Ok(shown(files.alloc(), tokens(files.alloc(), text.as_slice()))?)
}

/// The same where no directive may stand.
pub fn told_plain(files: &Files<'_>, row: &Row) -> Result<String, NotTried> {
    let Some(text) = program(files, row)? else {
        return Err(NotTried::Lacks("source"));
    };
    Ok(shown(files.alloc(), plain_tokens(files.alloc(), text.as_slice()))?)
}
