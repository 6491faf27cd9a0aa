// Characters and strings, after their first quote.
ghost use Rattle.std.specs.Prelude.{◌≡◌, ◌<◌, ◌≤◌, ◌+◌, ◌-◌, ◌^◌, false, length, IfSome};
ghost use Rattle.c_tokens.specs.Scan;
ghost use Rattle.c_tokens.specs.Characters.{simple_escapes};

use crate::bytes::{begins_with, hexadecimal_run, is_octal_digit, is_plain, octal_run};
use crate::number::number_in;

/// The length of a string with its closing quote, where one stands on the line.
pub fn string_end(text: &[u8]) -> Option<usize>
    ensures end { result ≡ Scan.string_end false text.now }
    ensures within { IfSome result (λ n. n ≤ length text.now) }
{
    let mut passing = false;
    for (at, byte) in text.iter().enumerate() {
        if *byte == b'\n' {
            return None;
        }
        if !passing && *byte == b'"' {
            return Some(at + 1);
        }
        passing = !passing && *byte == b'\\';
    }
    None
}

/// The length of a character with its closing quote, and its value, where one stands here.
pub fn character_end(text: &[u8]) -> Option<(usize, u8)>
    ensures end { result ≡ Scan.character_end text.now }
    ensures within { IfSome result (λ found. found.0 ≤ length text.now) }
{
    match text {
        [b'\\', rest @ ..] => escape_end(rest),
        [byte, rest @ ..] if is_plain(*byte) => closed_after(1, rest, Some(*byte)),
        _ => None,
    }
}

fn closed_after(body: usize, text: &[u8], value: Option<u8>) -> Option<(usize, u8)>
    requires { body < 2 ^ 64 - 1 }
    ensures closing { result ≡ Scan.closed_after body text.now value }
    ensures within { IfSome result (λ found. found.0 ≤ body + length text.now) }
{
    match value {
        Some(byte) if begins_with(b'\'', text) => Some((body + 1, byte)),
        _ => None,
    }
}

/// What a backslash begins.
fn escape_end(text: &[u8]) -> Option<(usize, u8)>
    ensures end { result ≡ Scan.escape_end text.now }
    ensures within { IfSome result (λ found. found.0 ≤ length text.now + 1) }
{
    match text {
        [b'x', rest @ ..] => {
            let length = hexadecimal_run(rest);
            closed_after(length + 2, &rest[length..], byte_in(16, 2, &rest[..length]))
        }
        [byte, ..] if is_octal_digit(*byte) => {
            let length = octal_run(text);
            closed_after(length + 1, &text[length..], byte_in(8, 3, &text[..length]))
        }
        [byte, rest @ ..] => closed_after(2, rest, simple_escape(*byte)),
        [] => None,
    }
}

/// The value of at least one and at most this many digits.
fn byte_in(radix: u64, most: usize, digits: &[u8]) -> Option<u8>
    requires { 0 < radix }
    ensures { result ≡ Scan.byte_in radix most digits.now }
{
    if digits.is_empty() || digits.len() > most {
        return None;
    }
    let number = number_in(radix, digits)?;
    if number < 256 {
        Some(number as u8)
    } else {
        None
    }
}

/// The value of an escape of one letter or sign.
fn simple_escape(byte: u8) -> Option<u8>
    ensures { result ≡ Scan.value_among simple_escapes byte }
{
    match byte {
        b'a' => Some(7),
        b'b' => Some(8),
        b't' => Some(9),
        b'n' => Some(10),
        b'v' => Some(11),
        b'f' => Some(12),
        b'r' => Some(13),
        b'\\' | b'\'' | b'"' | b'?' => Some(byte),
        _ => None,
    }
}
