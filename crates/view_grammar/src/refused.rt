// A text that is no program: the place at which no token begins, or the token that the grammar can't take.
use crate::grammar::untaken;
use crate::words::word_text;
use c_core::Spot;
use c_parser::ParseFault;
use c_tokens::TokenFault;
use std::alloc::Global;
use view_text::{File, Files, Messages, advice, offset_of, spot_at};
use wv_base::OutOfMemory;

/// What may be wrong where a byte begins no token.
fn byte_text(alloc: Global, byte: u8) -> Result<String, OutOfMemory> {
    let rule = advice("token");
    match byte {
        b'0'..=b'9' | b'.' => Ok(format!(in alloc;
            "{rule}: floating point, or a constant that no type holds?"
        )?),
        b'"' | b'\'' => Ok(format!(in alloc;
            "{rule}: this text or character isn't closed, or has an escape that isn't read"
        )?),
        b'/' => Ok(format!(in alloc; "{rule}: this comment isn't closed")?),
        _ => Ok(format!(in alloc; "{rule}: the byte is {byte:#04x}")?),
    }
}

/// A place of a program at which no token begins.
fn token_text(alloc: Global, text: &[u8], spot: Spot) -> Result<String, OutOfMemory> {
    match text.get(offset_of(text, spot)) {
        Some(byte) => byte_text(alloc, *byte),
        None => Ok(String::from_str(alloc, advice("token"))?),
    }
}

/// A text with a place at which no token begins, or with a directive that is refused.
pub fn explain_tokens(
    alloc: Global,
    files: &Files<'_>,
    fault: TokenFault,
    out: &mut Messages,
) -> Result<(), OutOfMemory> {
    match fault {
        TokenFault::Token { line, column } => {
            let spot = Spot { line, column };
            let told = token_text(alloc, files.text(File::Program), spot)?;
            out.error("token", File::Program, Some(spot), told)
        }
        TokenFault::Directive { line } => {
            let spot = Spot { line, column: 1 };
            let told = String::from_str(alloc, advice("directive"))?;
            out.error("directive", File::Program, Some(spot), told)
        }
        TokenFault::OutOfMemory => Err(OutOfMemory),
    }
}

/// The token at a place, which the grammar can't take.
fn syntax_text(alloc: Global, text: &[u8], spot: Spot) -> Result<String, OutOfMemory> {
    let found = word_text(alloc, text, spot)?;
    let word = found.as_str();
    let rule = advice("syntax");
    if word.is_empty() {
        Ok(String::from_str(alloc, rule)?)
    } else {
        Ok(format!(in alloc; "`{word}` can't stand here")?)
    }
}

/// The place behind the text; behind its last line, where that one ends.
fn end_of(text: &[u8]) -> Spot {
    let last = spot_at(text, text.len());
    let first = Spot {
        line: last.line,
        column: 1,
    };
    if last.line == 1 || offset_of(text, first) < text.len() {
        last
    } else {
        spot_at(text, text.len().saturating_sub(1))
    }
}

/// Where an item that begins at a place can't be taken any more.
fn explain_item(
    alloc: Global,
    text: &[u8],
    item: Spot,
    out: &mut Messages,
) -> Result<(), OutOfMemory> {
    match untaken(alloc, text, item)? {
        Some(spot) => {
            let told = syntax_text(alloc, text, spot)?;
            out.error("syntax", File::Program, Some(spot), told)
        }
        None => {
            let told = String::from_str(
                alloc,
                "the file ends before this item does, or the item is too long to be looked into",
            )?;
            out.error("syntax", File::Program, Some(end_of(text)), told)
        }
    }
}

/// Tokens that spell no source.
pub fn explain_syntax(
    alloc: Global,
    files: &Files<'_>,
    fault: ParseFault,
    out: &mut Messages,
) -> Result<(), OutOfMemory> {
    match fault {
        ParseFault::Syntax { line, column } => {
            let item = Spot { line, column };
            explain_item(alloc, files.text(File::Program), item, out)?;
            out.remark(
                File::Program,
                Some(item),
                "it stands in the item that begins here; no pointers, struct, union, enum, typedef, goto, sizeof or floating point are read",
            )
        }
        ParseFault::OutOfMemory => Err(OutOfMemory),
    }
}
