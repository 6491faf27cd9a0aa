// Plain scalars, and how they go on over lines.
ghost use Rattle.std.specs.Prelude.{◌≡◌, ◌≤◌, ◌<◌, ◌+◌, ◌++◌, length, drop, take, true, false, OnOk, ℕ, List, string_bytes, Option, Some};
ghost use Rattle.std.specs.Str.{encode_utf8_all};
ghost use Rattle.yaml_lines.specs.Marks.{breaks, folded};
ghost use Rattle.yaml_scalars.specs.Plain.{flow_sign, is_sign, plain_start, parted_in, stops_in, cut, goes_on, plain_lines, flow_parted};
ghost use Rattle.yaml_lines.specs.Line.{Line as SourceLine};
ghost use Rattle.yaml_scalars.specs.Gives.{Gives, behind};

use crate::fault::YamlFault;
use std::alloc::AllocError;
use yaml_lines::{
    Characters, Line, are_quiet, from_place, is_blank, is_nothing, is_parted, len_without_end,
    lines_from, without_gap,
};

/// A sign of flow collections, which ends a plain scalar there (YAML 1.2.2, 5.3).
pub fn is_flow_sign(c: char) -> bool
    ensures { result ≡ flow_sign c }
{
    c == ',' || c == '[' || c == ']' || c == '{' || c == '}'
}

fn is_sign_char(c: char) -> bool
    ensures { result ≡ is_sign c }
{
    is_flow_sign(c)
        || c == '#'
        || c == '&'
        || c == '*'
        || c == '!'
        || c == '|'
        || c == '>'
        || c == '\''
        || c == '"'
        || c == '%'
        || c == '@'
        || c == '`'
}

fn is_flow_parted(text: &Characters<'_, '_>) -> bool
    ensures { result ≡ flow_parted text.now }
{
    if text.is_empty() {
        return true;
    }
    let c = text.first();
    is_blank(c) || c == '\n' || c == '\r' || is_flow_sign(c)
}

fn is_parted_in(is_flow: bool, text: &Characters<'_, '_>) -> bool
    ensures { result ≡ parted_in is_flow text.now }
{
    if is_flow {
        is_flow_parted(text)
    } else {
        is_parted(text)
    }
}

/// Whether a plain scalar begins with a text, in flow or in block context.
pub fn is_plain_start(is_flow: bool, text: &Characters<'_, '_>) -> bool
    ensures { result ≡ plain_start (parted_in is_flow) text.now }
{
    if text.is_empty() {
        return false;
    }
    let c = text.first();
    let is_indicator = (c == '-' || c == '?' || c == ':') && is_parted_in(is_flow, &text.rest());
    !(is_sign_char(c) || is_blank(c)) && !is_indicator
}

fn does_stop_flow(is_behind: bool, c: char, rest: &Characters<'_, '_>) -> bool
    ensures { result ≡ stops_in true is_behind c rest.now }
{
    c == '\n'
        || c == '\r'
        || is_flow_sign(c)
        || (c == ':' && is_flow_parted(rest))
        || (c == '#' && is_behind)
}

fn does_stop(is_flow: bool, is_behind: bool, c: char, rest: &Characters<'_, '_>) -> bool
    ensures { result ≡ stops_in is_flow is_behind c rest.now }
{
    if is_flow {
        does_stop_flow(is_behind, c, rest)
    } else {
        (c == ':' && is_parted(rest)) || (c == '#' && is_behind)
    }
}

/// How far a plain scalar goes on a line, with the blanks at its end.
pub fn cut_len(is_flow: bool, text: &Characters<'_, '_>) -> usize
    ensures within { result ≤ length text.now }
    ensures front { take result text.now ≡ (cut (stops_in is_flow) false text.now).0 }
    ensures rest { drop result text.now ≡ (cut (stops_in is_flow) false text.now).1 }
{
    let mut is_behind = false;
    let mut at = 0;
    let mut left = text.again();
    while !left.is_empty() {
        let c = left.first();
        let rest = left.rest();
        if does_stop(is_flow, is_behind, c, &rest) {
            return at;
        }
        is_behind = is_blank(c);
        left = rest;
        at += 1;
    }
    at
}

/// Appends this many characters.
pub fn push_chars(
    out: &mut String,
    text: &Characters<'_, '_>,
    count: usize,
) -> Result<(), AllocError>
    requires { count ≤ length text.now }
    ensures { OnOk result (string_bytes out.new ≡ string_bytes out.old ++ encode_utf8_all (take count text.now)) }
{
    let mut left = text.again();
    let mut more = count;
    while more > 0 {
        out.push(left.first())?;
        left = left.rest();
        more -= 1;
    }
    Ok(())
}

/// Adds line feeds.
pub fn push_breaks(out: &mut String, count: usize) -> Result<(), AllocError>
    ensures { OnOk result (string_bytes out.new ≡ string_bytes out.old ++ encode_utf8_all (breaks count)) }
{
    let mut left = count;
    while left > 0 {
        out.push('\n')?;
        left -= 1;
    }
    Ok(())
}

/// A line break with this many empty lines after it, folded.
pub fn push_fold(out: &mut String, empties: usize) -> Result<(), AllocError>
    ensures { OnOk result (string_bytes out.new ≡ string_bytes out.old ++ encode_utf8_all (folded empties)) }
{
    if empties == 0 {
        out.push(' ')?;
        return Ok(());
    }
    push_breaks(out, empties)?;
    Ok(())
}

/// Appends what the lines after a plain scalar add to it.
fn push_continued(out: &mut String, indent: usize, lines: &[Line<'_>]) -> Result<(), YamlFault>
    ensures { Gives (λ (_ : Unit {0}). string_bytes out.new) result
        (behind (string_bytes out.old) (goes_on indent 0 lines.now)) }
{
    let mut empties = 0;
    let mut left = lines;
    loop {
        if left.is_empty() {
            return Ok(());
        }
        let line = &left[0];
        let text = without_gap(&line.text());
        let rest = lines_from(left, 1);
        if text.is_empty() {
            empties += 1;
            left = rest;
            continue;
        }
        if is_nothing(&text) {
            if !are_quiet(rest) {
                return Err(YamlFault::Grammar);
            }
            return Ok(());
        }
        if line.indent() <= indent {
            return Err(YamlFault::Grammar);
        }
        let len = cut_len(false, &text);
        let tail = from_place(&text, len);
        if !is_nothing(&tail) {
            return Err(YamlFault::Grammar);
        }
        push_fold(out, empties)?;
        push_chars(out, &text, len_without_end(&text, len))?;
        if !tail.is_empty() {
            if !are_quiet(rest) {
                return Err(YamlFault::Grammar);
            }
            return Ok(());
        }
        empties = 0;
        left = rest;
    }
}

/// Appends a plain scalar after an indicator, with what the lines after it add to it.
pub fn push_plain(
    out: &mut String,
    indent: usize,
    text: &Characters<'_, '_>,
    body: &[Line<'_>],
) -> Result<(), YamlFault>
    ensures { Gives (λ (_ : Unit {0}). string_bytes out.new) result
        (behind (string_bytes out.old) (plain_lines indent text.now body.now)) }
{
    if !is_plain_start(false, text) {
        return Err(YamlFault::Grammar);
    }
    let len = cut_len(false, text);
    let tail = from_place(text, len);
    let count = len_without_end(text, len);
    if tail.is_empty() {
        push_chars(out, text, count)?;
        push_continued(out, indent, body)?;
        return Ok(());
    }
    if !is_nothing(&tail) || !are_quiet(body) {
        return Err(YamlFault::Grammar);
    }
    push_chars(out, text, count)?;
    Ok(())
}
