// The specifiers of declarations and the attributes after parameters (C11 6.7, 6.7.2).
ghost use Rattle.std.specs.Prelude.{◌≡◌, length};
ghost use Rattle.std.specs.Option.{option_copied};
ghost use Rattle.c_parser.specs.Signs.{word_at, is_word};
ghost use Rattle.c_parser.specs.Words.{is_specifier, is_storage, is_attribute, may_specify};
ghost use Rattle.c_parser.specs.Declarations.{part_of, part_at, begins_declaration, is_spelled_attribute, name_at, behind_pair, behind_attributes, read_specifiers, read_type};
ghost use Rattle.c_parser.specs.Gives.{Reads};
ghost use Rattle.c_parser.specs.Passes.{Passes, part_view, Specified};

use crate::brackets::behind_closing;
use crate::cursor::Read;
use crate::fault::Unread;
use crate::look::{behind, is_sign};
use crate::type_words::{TypeWord, WordCounts, count, type_of, type_word};
use crate::words::{is_among, is_name, is_spelled};
use c_core::IntType;
use c_tokens::{Punct, Token, TokenKind};

const SPECIFIERS: [&str; 9] = [
    "const",
    "__const",
    "inline",
    "__inline",
    "__inline__",
    "_Noreturn",
    "register",
    "auto",
    "__extension__",
];

const STORAGE_WORDS: [&str; 2] = ["extern", "static"];

const ATTRIBUTE_WORDS: [&str; 2] = ["__attribute__", "__asm__"];

/// What a word is among specifiers.
#[derive(Clone, Copy, Debug)]
pub enum Part {
    Absent,
    Type(TypeWord),
    Other,
    Attribute,
}

/// The word that stands first.
pub fn word_at(tokens: &[Token]) -> Option<&str>
    ensures { option_copied result ≡ word_at tokens.now }
{
    match tokens {
        [first, ..] => match &first.kind {
            TokenKind::Word(word) => Some(word.as_str()),
            _ => None,
        },
        [] => None,
    }
}

/// Whether this word stands first.
pub fn is_word(tokens: &[Token], spelling: &[u8]) -> bool
    ensures { result ≡ is_word spelling.now tokens.now }
{
    match word_at(tokens) {
        Some(word) => is_spelled(spelling, word.as_bytes()),
        None => false,
    }
}

/// The name that stands first.
pub fn name_at(tokens: &[Token]) -> Option<&str>
    ensures { option_copied result ≡ name_at tokens.now }
{
    match word_at(tokens) {
        Some(word) => {
            if is_name(word.as_bytes()) {
                Some(word)
            } else {
                None
            }
        }
        None => None,
    }
}

fn may_specify(outside: bool, word: &[u8]) -> bool
    ensures { result ≡ may_specify outside word.now }
{
    is_among(&SPECIFIERS, word) || (outside && is_among(&STORAGE_WORDS, word))
}

/// Whether a word begins an attribute.
pub fn is_attribute(word: &[u8]) -> bool
    ensures { result ≡ is_attribute word.now }
{
    is_among(&ATTRIBUTE_WORDS, word)
}

fn part_of(outside: bool, word: &str) -> Part
    ensures { part_view result ≡ part_of outside (Some word.now) }
{
    match type_word(word) {
        Some(word) => Part::Type(word),
        None => {
            if may_specify(outside, word.as_bytes()) {
                Part::Other
            } else if is_attribute(word.as_bytes()) {
                Part::Attribute
            } else {
                Part::Absent
            }
        }
    }
}

fn part_at(outside: bool, tokens: &[Token]) -> Part
    ensures { part_view result ≡ part_at outside tokens.now }
{
    match word_at(tokens) {
        Some(word) => part_of(outside, word),
        None => Part::Absent,
    }
}

/// Whether a declaration in a function begins here.
pub fn begins_declaration(tokens: &[Token]) -> bool
    ensures { result ≡ begins_declaration tokens.now }
{
    match part_at(false, tokens) {
        Part::Absent => false,
        Part::Type(_) | Part::Other | Part::Attribute => true,
    }
}

fn is_attribute_at(tokens: &[Token]) -> bool
    ensures { result ≡ is_spelled_attribute (word_at tokens.now) }
{
    match word_at(tokens) {
        Some(word) => is_attribute(word.as_bytes()),
        None => false,
    }
}

/// The tokens after a pair of parentheses that begins here.
fn behind_pair(tokens: &[Token], brackets: usize) -> Result<&[Token], Unread>
    ensures { Passes result (behind_pair brackets tokens.now) }
{
    if is_sign(tokens, Punct::ParenOpen) {
        let rest = behind_closing(behind(tokens), brackets, Punct::ParenClose)?;
        Ok(rest)
    } else {
        Err(Unread::Unspelled)
    }
}

/// The tokens after the attributes that stand here.
pub fn behind_attributes(tokens: &[Token], brackets: usize) -> Result<&[Token], Unread>
    ensures { Passes result (behind_attributes brackets (length tokens.now) tokens.now) }
{
    let mut more = tokens.len();
    let mut rest = tokens;
    while more > 0 && is_attribute_at(rest) {
        more -= 1;
        rest = behind_pair(behind(rest), brackets)?;
    }
    Ok(rest)
}

/// How often each type word stands among the specifiers at the front of tokens.
fn specifiers_at(outside: bool, tokens: &[Token], brackets: usize) -> Read<'_, WordCounts>
    ensures { Specified result (read_specifiers brackets (length tokens.now) outside tokens.now) }
{
    let mut counts = [0; 8];
    let mut more = tokens.len();
    let mut rest = tokens;
    while more > 0 {
        more -= 1;
        match part_at(outside, rest) {
            Part::Absent => return Ok((counts, rest)),
            Part::Type(word) => {
                count(&mut counts, word);
                rest = behind(rest);
            }
            Part::Other => rest = behind(rest),
            Part::Attribute => rest = behind_pair(behind(rest), brackets)?,
        }
    }
    Ok((counts, rest))
}

/// The type that the specifiers at the front of tokens spell, where none is void.
pub fn type_at(outside: bool, tokens: &[Token], brackets: usize) -> Read<'_, Option<IntType>>
    ensures { Reads (λ ty. ty) result (read_type brackets outside tokens.now) }
{
    let (counts, rest) = specifiers_at(outside, tokens, brackets)?;
    match type_of(&counts) {
        Some(ty) => Ok((ty, rest)),
        None => Err(Unread::Unspelled),
    }
}
