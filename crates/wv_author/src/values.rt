// Values for the inputs of a program, read from a text of lines.
ghost use Rattle.std.specs.Prelude.{◌≡◌, ◌+◌, ◌*◌, ◌-◌, ◌<◌, ◌≤◌, ◌^◌, ◌↔◌, IfSome, IsTrue, neg_ℤ, option_map, pos, SomeIff, length, slice_index, true};
ghost use Rattle.std.specs.Char.{is_ascii_digit};
ghost use Rattle.std.specs.Str.Parse.{digits_value};
ghost use Rattle.wv_author.specs.Values.{AreDigits, FindsLine, OneListOfValues, ReadsNumber, ReadsValues};

use std::alloc::Global;
use wv_base::{OutOfMemory, Seq};

/// The bytes aren't such lines; or memory ran out.
#[derive(Clone, Copy, Debug, PartialEq, Eq)]
pub enum ValuesFault {
    Form,
    OutOfMemory,
}

impl From<OutOfMemory> for ValuesFault {
    ghost use Rattle.std.specs.Prelude.{◌≡◌};
    ghost use Rattle.wv_author.specs.declared.values.ValuesFault.TheVariants.{OutOfMemory as NoMemory};

    ghost from_gives = { λ _ fault. fault ≡ NoMemory };

    fn from(_: OutOfMemory) -> Self {
        ValuesFault::OutOfMemory
    }
}

/// A number with one more digit.
fn one_more_digit(number: u128, digit: u8) -> u128
    requires small { number < 10 ^ 19 }
    requires digit { is_ascii_digit digit ≡ true }
    ensures { result ≡ number * 10 + (digit - 48) }
{
    number * 10 + u128::from(digit.saturating_sub(48))
}

/// The number that one to twenty digits write.
fn whole_number(digits: &[u8]) -> Option<u128>
    ensures value { SomeIff result (AreDigits digits.now) (digits_value 10 digits.now) }
    ensures small { IfSome result (λ n. n < 10 ^ 20) }
{
    if digits.is_empty() || digits.len() > 20 {
        return None;
    }
    let mut number = 0;
    for digit in digits {
        if !digit.is_ascii_digit() {
            return None;
        }
        number = one_more_digit(number, *digit);
    }
    Some(number)
}

fn has_minus(line: &[u8]) -> bool
    ensures { IsTrue result ↔ (0 < length line.now) × (slice_index line.now 0 ≡ 45) }
{
    !line.is_empty() && line[0] == b'-'
}

fn from_zero(size: Option<u128>) -> Option<i128>
    requires { IfSome size (λ n. n < 10 ^ 20) }
    ensures { result ≡ option_map (λ n. pos n) size }
{
    match size {
        Some(size) => Some(size as i128),
        None => None,
    }
}

fn below_zero(size: Option<u128>) -> Option<i128>
    requires { IfSome size (λ n. n < 10 ^ 20) }
    ensures { result ≡ option_map (λ n. neg_ℤ (pos n)) size }
{
    match size {
        Some(size) => Some(-(size as i128)),
        None => None,
    }
}

/// The number of a line that begins with a minus.
fn number_below_zero(line: &[u8]) -> Option<i128>
    requires some { 0 < length line.now }
    requires minus { slice_index line.now 0 ≡ 45 }
    ensures { ReadsNumber line.now result }
{
    let size = whole_number(&line[1..]);
    below_zero(size)
}

/// The number of a line that doesn't begin with a minus.
fn number_from_zero(line: &[u8]) -> Option<i128>
    requires { 0 < length line.now → slice_index line.now 0 ≡ 45 → ⊥ }
    ensures { ReadsNumber line.now result }
{
    let size = whole_number(line);
    from_zero(size)
}

/// The number that a line writes.
fn number_in(line: &[u8]) -> Option<i128>
    ensures { ReadsNumber line.now result }
{
    if has_minus(line) {
        number_below_zero(line)
    } else {
        number_from_zero(line)
    }
}

/// The number of bytes before the first line feed.
fn line_size(text: &[u8]) -> Option<usize>
    ensures { FindsLine text.now result }
{
    for size in 0..text.len() {
        if text[size] == b'\n' {
            return Some(size);
        }
    }
    None
}

/// The numbers that stand in a text, each on a line of its own: an optional minus, one to twenty digits and a line
/// feed.
pub fn read_values(alloc: Global, bytes: &[u8]) -> Result<Seq<i128>, ValuesFault>
    ensures { ReadsValues bytes.now result }
{
    let mut values = Seq::new(alloc);
    let mut text = bytes;
    while !text.is_empty() {
        let Some(size) = line_size(text) else {
            return Err(ValuesFault::Form);
        };
        let Some(value) = number_in(&text[..size]) else {
            return Err(ValuesFault::Form);
        };
        values.push(value)?;
        text = &text[size + 1..];
    }
    Ok(values)
}

/// A text has one list of values at most.
pub fn one_list_of_values()
    ensures { OneListOfValues }
{}
