ghost use Rattle.std.specs.Prelude.{◌≡◌, ◌∷◌, [], ◌<◌, ◌≤◌, ◌+◌, ◌*◌, ◌^◌, length, nat_lt, SomeIff, None, if◌then◌else◌};
ghost use Rattle.std.specs.Option.{option_map};
ghost use Rattle.c_tokens.specs.Numbers;

use crate::bytes::{digit_run, digit_value, hexadecimal_run, octal_run};
use crate::token::TokenKind;

/// The number that digits spell, where it fits.
pub fn number_in(radix: u64, digits: &[u8]) -> Option<u64>
    requires { 1 ≤ radix }
    ensures { SomeIff result (Numbers.number_in radix digits.now < 2 ^ 64) (Numbers.number_in radix digits.now) }
{
    let mut number = 0;
    for digit in digits {
        number = one_more_digit(number, radix, digit_value(*digit))?;
    }
    Some(number)
}

fn one_more_digit(number: u64, radix: u64, digit: u8) -> Option<u64>
    ensures { SomeIff result (number * radix + digit < 2 ^ 64) (number * radix + digit) }
{
    number.checked_mul(radix)?.checked_add(u64::from(digit))
}

/// Whether a suffix has a `u`, and how many `l`.
fn suffix_of(text: &[u8]) -> Option<(bool, u8)>
    ensures { result ≡ Numbers.suffix_of text.now }
{
    match text {
        [] => Some((false, 0)),
        [b'u' | b'U'] => Some((true, 0)),
        [b'l' | b'L'] => Some((false, 1)),
        [b'l', b'l'] | [b'L', b'L'] => Some((false, 2)),
        [b'u' | b'U', b'l' | b'L'] | [b'l' | b'L', b'u' | b'U'] => Some((true, 1)),
        [b'u' | b'U', b'l', b'l'] | [b'u' | b'U', b'L', b'L'] => Some((true, 2)),
        [b'l', b'l', b'u' | b'U'] | [b'L', b'L', b'u' | b'U'] => Some((true, 2)),
        _ => None,
    }
}

/// The constant of these digits and this suffix, if it is one.
fn constant_of(decimal: bool, radix: u64, digits: &[u8], suffix: &[u8]) -> Option<TokenKind>
    requires { 1 ≤ radix }
    ensures { result ≡ (if nat_lt 0 (length digits.now) then Numbers.with_suffix decimal radix digits.now
        (Numbers.suffix_of suffix.now) else None) }
{
    if digits.is_empty() {
        return None;
    }
    let (unsigned, longs) = suffix_of(suffix)?;
    let value = number_in(radix, digits)?;
    Some(TokenKind::Number {
        value,
        decimal,
        unsigned,
        longs,
    })
}

/// The token that a number is, if it is one.
pub fn constant(number: &[u8]) -> Option<TokenKind>
    ensures { result ≡ Numbers.constant number.now }
{
    match number {
        [b'0', b'x' | b'X', rest @ ..] => {
            let length = hexadecimal_run(rest);
            constant_of(false, 16, &rest[..length], &rest[length..])
        }
        [b'0', ..] => {
            let length = octal_run(number);
            constant_of(false, 8, &number[..length], &number[length..])
        }
        _ => {
            let length = digit_run(number);
            constant_of(true, 10, &number[..length], &number[length..])
        }
    }
}
