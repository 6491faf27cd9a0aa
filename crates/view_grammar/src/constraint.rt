// Where an expression of a witness stops to be one.
use c_parser::{ExprFault, parse_expr, parse_result};
use c_tokens::{Token, TokenFault, TokenKind, plain_tokens};
use std::alloc::Global;
use wv_base::{OutOfMemory, Text};

/// Longer texts aren't looked into.
const LONGEST: usize = 256;

/// What may be wanting behind a front of an expression.
const WANTING: [&str; 6] = ["", "0", "x", ": 0", "0 : 0", ")0"];

/// And of a comparison of a result.
const WANTING_OF_RESULT: [&str; 4] = ["", "0", "== 0", "\\result == 0"];

/// The fault of a text as an expression, or as a comparison of a result.
fn fault_of(alloc: Global, is_result: bool, text: &[u8]) -> Option<ExprFault> {
    if is_result {
        parse_result(alloc, text).err()
    } else {
        parse_expr(alloc, text).err()
    }
}

/// Whether a text is an expression, or a comparison of a result.
pub fn is_read(alloc: Global, is_result: bool, text: &[u8]) -> Result<bool, OutOfMemory> {
    match fault_of(alloc, is_result, text) {
        None => Ok(true),
        Some(ExprFault::OutOfMemory) => Err(OutOfMemory),
        Some(_) => Ok(false),
    }
}

/// What closes the brackets that are open behind a front.
fn closing(alloc: Global, front: &[u8]) -> Result<Vec<u8>, OutOfMemory> {
    let mut open = Vec::new(alloc);
    for byte in front {
        match *byte {
            b'(' => open.push(b')')?,
            b'[' => open.push(b']')?,
            b')' | b']' => {
                let _ = open.pop();
            }
            _ => {}
        }
    }
    open.as_mut_slice().reverse();
    Ok(open)
}

fn completes(
    alloc: Global,
    is_result: bool,
    front: &[u8],
    wanting: &str,
) -> Result<bool, OutOfMemory> {
    let mut text = Vec::from_slice(alloc, front)?;
    text.extend_from_slice(wanting.as_bytes())?;
    let closing = closing(alloc, text.as_slice())?;
    text.extend_from_slice(closing.as_slice())?;
    is_read(alloc, is_result, text.as_slice())
}

fn is_front_of_expression(alloc: Global, front: &[u8]) -> Result<bool, OutOfMemory> {
    for wanting in WANTING {
        if completes(alloc, false, front, wanting)? {
            return Ok(true);
        }
    }
    Ok(false)
}

fn is_front_of_result(alloc: Global, front: &[u8]) -> Result<bool, OutOfMemory> {
    for wanting in WANTING_OF_RESULT {
        if completes(alloc, true, front, wanting)? {
            return Ok(true);
        }
    }
    Ok(false)
}

fn is_front(alloc: Global, is_result: bool, front: &[u8]) -> Result<bool, OutOfMemory> {
    if is_result {
        is_front_of_result(alloc, front)
    } else {
        is_front_of_expression(alloc, front)
    }
}

/// What is wrong with an expression.
#[derive(Drop)]
pub enum Lack {
    /// It is one, so it breaks a rule on types.
    Types,
    /// It stops to be one behind so many bytes.
    Grammar(usize),
    /// It is too long to be looked into.
    Unknown,
}

/// The length of the longest front of an expression that something completes.
fn longest_front(alloc: Global, is_result: bool, bytes: &[u8]) -> Result<usize, OutOfMemory> {
    let mut last = 0usize;
    for (before, _) in bytes.iter().enumerate() {
        let length = before.saturating_add(1);
        let front = bytes.get(..length).unwrap_or(bytes);
        if is_front(alloc, is_result, front)? {
            last = length;
        }
    }
    Ok(last)
}

/// How far an expression of a witness is one.
pub fn lack_of(alloc: Global, is_result: bool, text: &str) -> Result<Lack, OutOfMemory> {
    let bytes = text.as_bytes();
    if is_read(alloc, is_result, bytes)? {
        return Ok(Lack::Types);
    }
    if bytes.len() > LONGEST {
        return Ok(Lack::Unknown);
    }
    Ok(Lack::Grammar(longest_front(alloc, is_result, bytes)?))
}

/// The words among tokens.
fn words_in(alloc: Global, tokens: &[Token]) -> Result<Vec<Text>, OutOfMemory> {
    let mut words = Vec::new(alloc);
    for token in tokens {
        if let TokenKind::Word(word) = &token.kind {
            words.push(Text::of(alloc, word.as_str())?)?;
        }
    }
    Ok(words)
}

/// The words of an expression that name something.
pub fn words_of(alloc: Global, text: &str) -> Result<Vec<Text>, OutOfMemory> {
    match plain_tokens(alloc, text.as_bytes()) {
        Ok(tokens) => words_in(alloc, tokens.as_slice()),
        Err(TokenFault::OutOfMemory) => Err(OutOfMemory),
        Err(_) => Ok(Vec::new(alloc)),
    }
}
