// Texts of programs, read as the validator reads them.
use c_parser::{ParseFault, Source, parse};
use c_tokens::{Token, TokenFault, tokens};
use std::alloc::Global;
use wv_base::{OutOfMemory, Seq};

/// No text that is read here is longer.
const MAX_LENGTH: usize = 1 << 21;

/// What a text spells.
#[derive(Drop)]
pub enum Spelling {
    Source(Source),
    NoTokens(TokenFault),
    NoSource(ParseFault),
}

/// The tokens of a text, and the source that they spell.
pub fn read_source(alloc: Global, text: &[u8]) -> Spelling {
    if text.len() > MAX_LENGTH {
        return Spelling::NoTokens(TokenFault::OutOfMemory);
    }
    match tokens(alloc, text) {
        Ok(found) => match parse(alloc, &found) {
            Ok(source) => Spelling::Source(source),
            Err(fault) => Spelling::NoSource(fault),
        },
        Err(fault) => Spelling::NoTokens(fault),
    }
}

/// The tokens alone; an empty list where the text has none.
pub fn tokens_of(alloc: Global, text: &[u8]) -> Result<Seq<Token>, OutOfMemory> {
    match tokens(alloc, text) {
        Ok(found) => Ok(found),
        Err(TokenFault::OutOfMemory) => Err(OutOfMemory),
        Err(_) => Ok(Seq::new(alloc)),
    }
}
