// Quoted scalars, over the text of a value with its line breaks.
ghost use Rattle.std.specs.Prelude.{◌≡◌, ◌≤◌, ◌<◌, ◌+◌, ◌-◌, ◌*◌, ◌++◌, ◌∷◌, [], ◌^◌, length, drop, take, true, false, IfOk, OnOk, IfSome, ℕ, List, string_bytes, IsTrue, Option, Some, None};
ghost use Rattle.std.specs.Str.{encode_utf8_all};
ghost use Rattle.yaml_lines.specs.Marks.{count_of};
ghost use Rattle.yaml_scalars.specs.Quoted.{white, white_front, white_stands, is_feed, simple, digits_of, digit, number, if_character, if_simple, escape, white_step, Step, Refused, Closed, Stands, step_in, first_step, white_run, begins_white, quoted};
ghost use Rattle.yaml_lines.specs.Lines.{break_before, after_breaks, joined};
ghost use Rattle.yaml_scalars.specs.Gives.{Gives, behind, stepped, with_text};

use crate::fault::YamlFault;
use crate::plain::{push_breaks, push_chars, push_fold};
use std::alloc::AllocError;
use yaml_lines::{Characters, does_begin_with, from_place, is_blank};

/// A space or a tab.
pub fn is_white(c: char) -> bool
    ensures { result ≡ white c }
{
    is_blank(c) || c == '\n'
}

/// How many blanks and line breaks a text begins with.
fn white_len(text: &Characters<'_, '_>) -> usize
    ensures within { result ≤ length text.now }
    ensures front { take result text.now ≡ white_front text.now }
    ensures count { result ≡ length (white_front text.now) }
{
    let mut at = 0;
    let mut left = text.again();
    while does_begin_white(&left) {
        left = left.rest();
        at += 1;
    }
    at
}

/// How many of the first n characters are line breaks.
fn feeds_in(text: &Characters<'_, '_>, len: usize) -> usize
    requires { len ≤ length text.now }
    ensures count { result ≡ count_of is_feed (take len text.now) }
    ensures within { result ≤ len }
{
    let mut count = 0;
    let mut left = text.again();
    let mut more = len;
    while more > 0 {
        let c = left.first();
        left = left.rest();
        more -= 1;
        if c != '\n' {
            continue;
        }
        count += 1;
    }
    count
}

/// Appends what this many characters of white space within quotes stand for.
fn push_white(out: &mut String, text: &Characters<'_, '_>, len: usize) -> Result<(), AllocError>
    requires { len ≤ length text.now }
    ensures { OnOk result (string_bytes out.new ≡ string_bytes out.old ++ encode_utf8_all
        (white_stands (take len text.now) (count_of is_feed (take len text.now)))) }
{
    let feeds = feeds_in(text, len);
    if feeds == 0 {
        push_chars(out, text, len)?;
        return Ok(());
    }
    push_fold(out, feeds - 1)?;
    Ok(())
}

/// The character of an escape with one character (YAML 1.2.2 5.7).
fn simple_escape(c: char) -> Option<char>
    ensures { result ≡ simple c }
{
    match c {
        '0' => Some('\0'),
        'a' => Some('\u{7}'),
        'b' => Some('\u{8}'),
        't' | '\t' => Some('\t'),
        'n' => Some('\n'),
        'v' => Some('\u{b}'),
        'f' => Some('\u{c}'),
        'r' => Some('\r'),
        'e' => Some('\u{1b}'),
        ' ' | '"' | '/' | '\\' => Some(c),
        'N' => Some('\u{85}'),
        '_' => Some('\u{a0}'),
        'L' => Some('\u{2028}'),
        'P' => Some('\u{2029}'),
        _ => None,
    }
}

fn digits_after(c: char) -> usize
    ensures value { result ≡ digits_of c }
    ensures few { result ≤ 8 }
{
    match c {
        'x' => 2,
        'u' => 4,
        'U' => 8,
        _ => 0,
    }
}

fn hex_digit(c: char) -> Option<u32>
    ensures value { result ≡ digit c }
    ensures small { IfSome result (λ d. d < 16) }
{
    match c {
        '0'..='9' => Some(c as u32 - 48),
        'a'..='f' => Some(c as u32 - 87),
        'A'..='F' => Some(c as u32 - 55),
        _ => None,
    }
}

/// The number of this many hexadecimal digits.
fn hex_number(count: usize, text: &Characters<'_, '_>) -> Option<u32>
    requires { count ≤ 8 }
    ensures value { result ≡ number count 0 text.now }
    ensures enough { IfSome result (λ _. count ≤ length text.now) }
{
    let mut value: u32 = 0;
    let mut left = text.again();
    let mut at = 0;
    while at < count {
        if left.is_empty() {
            return None;
        }
        let Some(d) = hex_digit(left.first()) else {
            return None;
        };
        value = 16 * value + d;
        left = left.rest();
        at += 1;
    }
    Some(value)
}

/// Appends the character of a number, if it is one.
fn push_number(
    out: &mut String,
    count: usize,
    text: &Characters<'_, '_>,
) -> Result<Option<usize>, YamlFault>
    requires { count ≤ 8 }
    ensures value { Gives (λ (r : Option ℕ). (r, string_bytes out.new)) result
        (stepped (string_bytes out.old) (if_character (number count 0 text.now) (count + 1))) }
    ensures within { IfOk result (λ r. IfSome r (λ more. more ≤ length text.now + 1)) }
{
    let Some(code) = hex_number(count, text) else {
        return Err(YamlFault::Grammar);
    };
    let Some(c) = char::from_u32(code) else {
        return Err(YamlFault::Grammar);
    };
    out.push(c)?;
    Ok(Some(count + 1))
}

/// Appends what an escape stands for. The text follows its `\`.
fn push_escape(out: &mut String, text: &Characters<'_, '_>) -> Result<Option<usize>, YamlFault>
    ensures value { Gives (λ (r : Option ℕ). (r, string_bytes out.new)) result
        (stepped (string_bytes out.old) (escape text.now)) }
    ensures within { IfOk result (λ r. IfSome r (λ more. more ≤ length text.now)) }
{
    if text.is_empty() {
        return Err(YamlFault::Grammar);
    }
    let first = text.first();
    let rest = text.rest();
    if first == '\n' {
        let len = white_len(&rest);
        push_breaks(out, feeds_in(&rest, len))?;
        return Ok(Some(1 + len));
    }
    let count = digits_after(first);
    if count > 0 {
        return push_number(out, count, &rest);
    }
    let Some(c) = simple_escape(first) else {
        return Err(YamlFault::Grammar);
    };
    out.push(c)?;
    Ok(Some(1))
}

/// Appends what the run of white space at the front stands for.
fn push_white_run(out: &mut String, text: &Characters<'_, '_>) -> Result<Option<usize>, YamlFault>
    requires { IsTrue (begins_white text.now) }
    ensures value { Gives (λ (r : Option ℕ). (r, string_bytes out.new)) result
        (stepped (string_bytes out.old) (white_run text.now)) }
    ensures within { IfOk result (λ r. IfSome r (λ more. more + 1 ≤ length text.now)) }
{
    let len = white_len(text);
    push_white(out, text, len)?;
    Ok(Some(len - 1))
}

fn does_begin_white(text: &Characters<'_, '_>) -> bool
    ensures { result ≡ begins_white text.now }
{
    !text.is_empty() && is_white(text.first())
}

/// Appends what the front of a text between quotes stands for, and says how many more characters that takes; or says
/// that the closing quote stands there.
fn push_step(
    out: &mut String,
    is_double: bool,
    text: &Characters<'_, '_>,
) -> Result<Option<usize>, YamlFault>
    requires { 0 < length text.now }
    ensures value { Gives (λ (r : Option ℕ). (r, string_bytes out.new)) result
        (stepped (string_bytes out.old) (first_step is_double text.now)) }
    ensures within { IfOk result (λ r. IfSome r (λ more. more + 1 ≤ length text.now)) }
{
    let c = text.first();
    if is_double && c == '"' {
        return Ok(None);
    }
    if is_double && c == '\\' {
        return push_escape(out, &text.rest());
    }
    if !is_double && c == '\'' {
        if !does_begin_with(&text.rest(), '\'') {
            return Ok(None);
        }
        out.push(c)?;
        return Ok(Some(1));
    }
    if c == '\r' {
        return Err(YamlFault::Grammar);
    }
    if does_begin_white(text) {
        return push_white_run(out, text);
    }
    out.push(c)?;
    Ok(Some(0))
}

/// Appends the value of a quoted scalar, whose text follows the opening quote, and says how many characters it has
/// there.
pub fn push_quoted(
    out: &mut String,
    is_double: bool,
    text: &Characters<'_, '_>,
) -> Result<usize, YamlFault>
    ensures value { Gives (λ (n : ℕ). (string_bytes out.new, n)) result
        (with_text (string_bytes out.old) (quoted (step_in is_double) 0 text.now)) }
    ensures within { IfOk result (λ n. n ≤ length text.now) }
{
    let mut at = 0;
    let mut left = text.again();
    loop {
        if left.is_empty() {
            return Err(YamlFault::Grammar);
        }
        match push_step(out, is_double, &left)? {
            None => return Ok(at + 1),
            Some(more) => {
                left = from_place(&left, 1 + more);
                at += 1 + more;
            }
        }
    }
}
