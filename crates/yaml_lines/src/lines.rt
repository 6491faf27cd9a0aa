// Characters, and the lines that they make.
ghost use Rattle.std.specs.Prelude.{◌≡◌, ◌≤◌, ◌+◌, [], length, drop, take, IfOk, All, true, ◌^◌, false};
ghost use Rattle.std.specs.Str.{chars};
ghost use Rattle.yaml_lines.specs.Line.{IsSmall, line_at};
ghost use Rattle.yaml_lines.specs.Marks.{begins_with};
ghost use Rattle.yaml_lines.specs.Lines.{may_stand, allowed, unmarked, lines_in, within, spaces, unspaced, without_return, ended_line};

use crate::characters::{first_of, is_end, rest_of};
use crate::line::Line;
use std::alloc::{AllocError, Global};

/// The characters of a text.
pub fn characters_of(alloc: Global, text: &str) -> Result<Vec<char>, AllocError>
    ensures { IfOk result (λ v. v.items ≡ chars text.now) }
{
    text.chars().collect(alloc)
}

fn does_begin(text: &str, c: char) -> bool
    ensures { result ≡ begins_with c (chars text.now) }
{
    !is_end(text) && first_of(text) == c
}

/// A text without its byte order mark.
pub fn without_mark(text: &str) -> &str
    ensures { chars result.now ≡ unmarked (chars text.now) }
{
    if does_begin(text, '\u{feff}') {
        rest_of(text)
    } else {
        text
    }
}

/// Whether a character lies between two others, both included.
pub fn is_within(low: char, high: char, c: char) -> bool
    ensures { result ≡ within low high c }
{
    low <= c && c <= high
}

fn may_stand_before(c: char, rest: &str) -> bool
    ensures { result ≡ may_stand c (chars rest.now) }
{
    c == '\t'
        || c == '\n'
        || (c == '\r' && does_begin(rest, '\n'))
        || is_within(' ', '~', c)
        || c == '\u{85}'
        || is_within('\u{a0}', '\u{fffd}', c)
        || '\u{10000}' <= c
}

/// Whether each character may stand in a document.
pub fn are_allowed(text: &str) -> bool
    ensures { result ≡ allowed (chars text.now) }
{
    let mut left = text;
    while !is_end(left) {
        let rest = rest_of(left);
        if !may_stand_before(first_of(left), rest) {
            return false;
        }
        left = rest;
    }
    true
}

/// A line's text without the CR of a CR LF.
fn without_cr(text: &str) -> &str
    ensures value { chars result.now ≡ without_return (chars text.now) }
    ensures within { length (chars result.now) ≤ length (chars text.now) }
{
    match text.strip_suffix('\r') {
        Some(front) => front,
        None => text,
    }
}

/// The line that a text is.
fn line_of(text: &str, is_ended: bool) -> Line<'_>
    ensures value { result ≡ ended_line (chars text.now) is_ended }
    ensures small { result.indent + length result.text ≤ length (chars text.now) }
{
    let mut left = text;
    let mut indent = 0;
    while does_begin(left, ' ') {
        left = rest_of(left);
        indent += 1;
    }
    Line::new(indent, left, is_ended)
}

/// The lines of a text.
pub fn read_lines(alloc: Global, text: &str) -> Result<Vec<Line<'_>>, AllocError>
    ensures value { IfOk result (λ v. v.items ≡ lines_in (chars text.now)) }
    ensures small { IfOk result (λ v. All IsSmall v.items) }
{
    let mut lines = Vec::new(alloc);
    let mut left = text;
    while !is_end(left) {
        let Some((front, rest)) = left.split_once('\n') else {
            lines.push(line_of(left, false))?;
            return Ok(lines);
        };
        lines.push(line_of(without_cr(front), true))?;
        left = rest;
    }
    Ok(lines)
}
