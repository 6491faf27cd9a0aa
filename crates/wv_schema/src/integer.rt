// Integers as texts.
#![tactic(auto, unfolding(crate::specs::Judging::is_integer, crate::specs::Judging::integer_in))]

ghost use Rattle.std.specs.Prelude.{◌≡◌, true};
ghost use Rattle.std.specs.Str.Parse.{signed_digits_value};
ghost use Rattle.wv_schema.specs.Judging.{integer_in, is_integer, is_numeral};

use crate::rule::are_digits;

fn is_numeral(bytes: &[u8]) -> bool
    ensures { result ≡ is_numeral bytes.now }
{
    1 <= bytes.len() && bytes.len() <= 20 && are_digits(bytes)
}

fn is_signed_numeral(bytes: &[u8]) -> bool
    ensures { result ≡ is_integer bytes.now }
{
    if !bytes.is_empty() && bytes[0] == b'-' {
        is_numeral(&bytes[1..])
    } else {
        is_numeral(bytes)
    }
}

/// Whether a text is an optional minus sign and 1 to 20 digits.
pub fn is_integer(text: &str) -> bool
    ensures { result ≡ is_integer text.now }
{
    is_signed_numeral(text.as_bytes())
}

fn integer_of(text: &str) -> i128
    requires { is_integer text.now ≡ true }
    ensures { result ≡ signed_digits_value 10 text.now }
{
    match text.parse::<i128>() {
        Ok(number) => number,
        Err(_) => unreachable!(),
    }
}

/// The integer that a text writes.
pub fn integer_in(text: &str) -> Option<i128>
    ensures { result ≡ integer_in text.now }
{
    if is_integer(text) {
        Some(integer_of(text))
    } else {
        None
    }
}
