ghost use Rattle.std.specs.Prelude.{◌≡◌, IfOk, IsTrue};
ghost use Rattle.std.specs.List.{list_all};
ghost use Rattle.c_core.specs.Types.{signed_of};
ghost use Rattle.c_tokens.specs.Bytes;
ghost use Rattle.c_tokens.specs.Scan;

use crate::bytes::{is_digit, is_letter, number_run, word_run};
use crate::number::constant;
use crate::quoted::{character_end, string_end};
use crate::sign::sign_at;
use crate::token::TokenKind;
use std::alloc::Global;
use wv_base::{OutOfMemory, Text};

/// The longest token here, and its length.
pub fn token_at(alloc: Global, text: &[u8]) -> Result<Option<(usize, TokenKind)>, OutOfMemory>
    ensures { IfOk result (λ found. found ≡ Scan.good (Scan.scan text.now)) }
{
    let Some(first) = text.first() else {
        return Ok(None);
    };
    if is_letter(*first) {
        return word_token(alloc, text);
    }
    if is_digit(*first) {
        return Ok(number_token(text));
    }
    match *first {
        b'\'' => Ok(character_token(&text[1..])),
        b'"' => Ok(string_token(&text[1..])),
        _ => Ok(sign_token(text)),
    }
}

/// A word, of which the first letter stands here.
fn word_token(alloc: Global, text: &[u8]) -> Result<Option<(usize, TokenKind)>, OutOfMemory>
    requires { IsTrue (Scan.begins_word text.now) }
    ensures { IfOk result (λ found. found ≡ Scan.good (Scan.word_scan text.now)) }
{
    let length = word_run(&text[1..]) + 1;
    let word = word_of(alloc, &text[..length])?;
    Ok(Some((length, TokenKind::Word(word))))
}

fn word_of(alloc: Global, word: &[u8]) -> Result<Text, OutOfMemory>
    requires { IsTrue (list_all Bytes.is_word_byte word.now) }
    ensures { IfOk result (λ text. text ≡ word.now) }
{
    match str::from_utf8(word) {
        Ok(word) => {
            let text = Text::of(alloc, word)?;
            Ok(text)
        }
        Err(_) => unreachable!(),
    }
}

/// A number, of which the first digit stands here.
fn number_token(text: &[u8]) -> Option<(usize, TokenKind)>
    ensures { result ≡ Scan.good (Scan.number_scan text.now) }
{
    if text.is_empty() {
        return None;
    }
    let length = number_run(&text[1..]) + 1;
    let kind = constant(&text[..length])?;
    Some((length, kind))
}

/// A character after its first quote.
fn character_token(text: &[u8]) -> Option<(usize, TokenKind)>
    ensures { result ≡ Scan.good (Scan.character_scan text.now) }
{
    let (length, byte) = character_end(text)?;
    Some((length + 1, TokenKind::Char(char_value(byte))))
}

/// A string after its first quote.
fn string_token(text: &[u8]) -> Option<(usize, TokenKind)>
    ensures { result ≡ Scan.good (Scan.string_scan text.now) }
{
    let length = string_end(text)?;
    Some((length + 1, TokenKind::Str))
}

fn sign_token(text: &[u8]) -> Option<(usize, TokenKind)>
    ensures { result ≡ Scan.good (Scan.sign_scan text.now) }
{
    let (length, sign) = sign_at(text)?;
    Some((length, TokenKind::Punct(sign)))
}

/// A byte fitted to `char`.
#[tactic(auto, unfolding(c_core::specs::Types::signed_of))]
fn char_value(byte: u8) -> i32
    ensures { result ≡ signed_of 8 byte }
{
    if byte < 128 {
        i32::from(byte)
    } else {
        i32::from(byte) - 256
    }
}
