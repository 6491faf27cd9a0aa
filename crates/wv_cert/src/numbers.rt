// Numbers of a certificate, of the size that their types have.
ghost use Rattle.std.specs.Prelude.{◌≡◌, ◌<◌, ◌^◌, SomeIff, decimal};
ghost use Rattle.std.specs.Fmt.{signed_decimal};
ghost use Rattle.clauses.specs.Clause.{IsNumber};
ghost use Rattle.clauses.specs.Tseitin.{number_of};
ghost use Rattle.wv_cert.specs.Reading.{Reads};
ghost use Rattle.wv_cert.specs.Text.{IsSmall, IsStep, number_text, step_text};

use crate::cursor::Cursor;
use clauses::Resolve;

fn to_small(number: u64) -> Option<u32>
    ensures { SomeIff result (IsSmall number) number }
{
    u32::try_from(number).ok()
}

/// A number of 32 bits.
pub fn small(text: &mut Cursor<'_>) -> Option<u32>
    ensures { Reads IsSmall decimal text.old result text.new }
{
    let number = text.number()?;
    let small = to_small(number)?;
    Some(small)
}

/// The number of a variable, or its opposite.
fn signed(negated: bool, size: u32) -> i32
    requires { size < 2 ^ 31 }
    ensures { result ≡ number_of negated size }
{
    let number = size as i32;
    if negated { -number } else { number }
}

fn to_literal(negated: bool, size: u64) -> Option<i32>
    ensures { SomeIff result ((0 < size) × (size < 2 ^ 31)) (number_of negated size) }
{
    if 0 < size && size < 1 << 31 {
        return Some(signed(negated, size as u32));
    }
    None
}

/// The number of a variable or its opposite, in its shortest form.
fn literal(text: &mut Cursor<'_>) -> Option<i32>
    ensures { Reads IsNumber signed_decimal text.old result text.new }
{
    let negated = text.passes(b"-");
    let size = text.number()?;
    to_literal(negated, size)
}

/// A blank and a number of a clause.
pub fn number(text: &mut Cursor<'_>) -> Option<i32>
    ensures { Reads IsNumber number_text text.old result text.new }
{
    if !text.passes(b" ") {
        return None;
    }
    literal(text)
}

/// A blank and a resolution.
pub fn step(text: &mut Cursor<'_>) -> Option<Resolve>
    ensures { Reads IsStep step_text text.old result text.new }
{
    if !text.passes(b" ") {
        return None;
    }
    let with = small(text)?;
    if !text.passes(b":") {
        return None;
    }
    let on = small(text)?;
    Some(Resolve { with, on })
}
