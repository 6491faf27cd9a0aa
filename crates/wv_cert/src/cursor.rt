// What is left of a text, read from its front.
ghost use Rattle.std.specs.Prelude.{◌≡◌, ◌+◌, ◌*◌, ◌-◌, ◌<◌, ◌≤◌, ◌^◌, ◌==◌, ◌++◌, ◌↔◌, ℕ, List, IsTrue, SomeIff, true, length, drop, slice_index, decimal};
ghost use Rattle.std.specs.Bool.{MatchBool};
ghost use Rattle.std.specs.Str.Parse.{digits_value};
ghost use Rattle.std.specs.Str.{all_ascii_digits};
ghost use Rattle.std.specs.Char.{is_ascii_digit};
ghost use Rattle.std.specs.List.{prefix_len};
ghost use Rattle.wv_cert.specs.Reading.{Passes, Reads};

use std::marker::Model;

/// What is left of a text. Contracts see the list of its bytes.
#[derive(Drop)]
pub struct Cursor<'a> {
    left: &'a [u8],
}

impl<'a> Model for Cursor<'a> {
    ghost use Rattle.std.specs.Prelude.{ℕ, List};
    ghost use Rattle.std.specs.Coded.{coded_ℕ, coded_list};

    ghost Value = { List ℕ };

    ghost coded = { coded_list coded_ℕ };

    ghost view = { λ c. c.left.now };
}

fn begins(text: &[u8], word: &[u8]) -> bool
    ensures within { IsTrue result → length word.now ≤ length text.now }
    ensures here { MatchBool result (text.now ≡ word.now ++ drop (length word.now) text.now)
        ((rest : List ℕ) → text.now ≡ word.now ++ rest → ⊥) }
{
    if text.len() < word.len() {
        return false;
    }
    let front = &text[..word.len()];
    front == word
}

/// How many digits stand at the front of a text.
fn digit_run(text: &[u8]) -> usize
    ensures run { result ≡ prefix_len is_ascii_digit text.now }
    ensures within { result ≤ length text.now }
{
    text.iter().take_while(|byte| byte.is_ascii_digit()).count()
}

/// Whether a zero stands before other digits.
fn has_leading_zero(digits: &[u8]) -> bool
    ensures { IsTrue result ↔ (1 < length digits.now) × (slice_index digits.now 0 ≡ 48) }
{
    digits.len() > 1 && digits[0] == b'0'
}

fn one_more_digit(number: u64, digit: u8) -> Option<u64>
    requires { is_ascii_digit digit ≡ true }
    ensures { SomeIff result (number * 10 + (digit - 48) < 2 ^ 64) (number * 10 + (digit - 48)) }
{
    number
        .checked_mul(10)?
        .checked_add(u64::from(digit.saturating_sub(48)))
}

/// The number that digits spell, where it has 64 bits.
fn value_of(digits: &[u8]) -> Option<u64>
    requires { all_ascii_digits digits.now ≡ true }
    ensures { SomeIff result (digits_value 10 digits.now < 2 ^ 64) (digits_value 10 digits.now) }
{
    let mut number = 0;
    for digit in digits {
        number = one_more_digit(number, *digit)?;
    }
    Some(number)
}

impl<'a> Cursor<'a> {
    /// A cursor before the first byte.
    pub fn of(text: &'a [u8]) -> Cursor<'a>
        ensures { result ≡ text.now }
    {
        Cursor { left: text }
    }

    /// Whether no byte is left.
    pub fn is_at_end(&self) -> bool
        ensures { result ≡ (length self.now == 0) }
    {
        self.left.is_empty()
    }

    /// Passes these bytes, if the text begins with them.
    pub fn passes(&mut self, word: &[u8]) -> bool
        ensures { Passes word.now self.old result self.new }
    {
        if !begins(self.left, word) {
            return false;
        }
        self.left = &self.left[word.len()..];
        true
    }

    /// The decimal number at the front, which has no zero before its other digits.
    pub fn number(&mut self) -> Option<u64>
        ensures { Reads (λ n. n < 2 ^ 64) decimal self.old result self.new }
    {
        let count = digit_run(self.left);
        let digits = &self.left[..count];
        if count == 0 {
            return None;
        }
        if has_leading_zero(digits) {
            return None;
        }
        let number = value_of(digits)?;
        self.left = &self.left[count..];
        Some(number)
    }
}
