// Block scalars.
ghost use Rattle.std.specs.Prelude.{◌≡◌, ◌≤◌, ◌<◌, ◌+◌, ◌-◌, ◌++◌, [], ◌^◌, length, drop, take, map, OnOk, IfSome, if◌then◌else◌, ℕ, List, All, Bool, string_bytes, Option, Some, None};
ghost use Rattle.std.specs.Str.{encode_utf8_all, chars};
ghost use Rattle.yaml_lines.specs.Line.{IsSmall};
ghost use Rattle.yaml_lines.specs.Marks.{indented, is_end as end_of_list, begins_blank};
ghost use Rattle.yaml_scalars.specs.BlockScalar.{header_by, is_digit, is_chomp, chomp_of, after_digit, after_sign, header_of, between, chomped, content, row_in, extra_in, text_in, content_of, is_spaces, belongs, while, past, no_deeper, rows_at, rows_found, rows_of, block_scalar};
ghost use Rattle.yaml_scalars.specs.Gives.{Gives, behind};

use crate::fault::YamlFault;
use crate::header::{Chomp, Header};
use crate::plain::{push_breaks, push_fold};
use std::alloc::AllocError;
use yaml_lines::{
    Characters, Line, are_quiet, first_of, is_blank, is_end, is_tail_text, lines_from, lines_to,
};

fn header_with(folds: bool, digit: usize, chomp: Chomp, rest: &Characters<'_, '_>) -> Option<Header>
    ensures value { result ≡ header_by folds digit chomp rest.now }
    ensures digit { IfSome result (λ h. h.digit ≡ digit) }
{
    if is_tail_text(rest) {
        Some(Header {
            folds,
            digit,
            chomp,
        })
    } else {
        None
    }
}

fn is_digit_char(c: char) -> bool
    ensures { result ≡ is_digit c }
{
    '1' <= c && c <= '9'
}

fn is_sign_char(c: char) -> bool
    ensures { result ≡ is_chomp c }
{
    c == '+' || c == '-'
}

fn chomp_with(c: char) -> Chomp
    ensures { result ≡ chomp_of c }
{
    if c == '+' { Chomp::Keep } else { Chomp::Strip }
}

fn header_after_digit(folds: bool, digit: usize, text: &Characters<'_, '_>) -> Option<Header>
    ensures value { result ≡ after_digit folds digit text.now }
    ensures digit { IfSome result (λ h. h.digit ≡ digit) }
{
    if !text.is_empty() && is_sign_char(text.first()) {
        return header_with(folds, digit, chomp_with(text.first()), &text.rest());
    }
    header_with(folds, digit, Chomp::Clip, text)
}

fn header_after_sign(folds: bool, chomp: Chomp, text: &Characters<'_, '_>) -> Option<Header>
    ensures value { result ≡ after_sign folds chomp text.now }
    ensures digit { IfSome result (λ h. h.digit ≤ 9) }
{
    if !text.is_empty() && is_digit_char(text.first()) {
        let digit = text.first() as usize - 48;
        return header_with(folds, digit, chomp, &text.rest());
    }
    header_with(folds, 0, chomp, text)
}

/// The header after `|` or `>`.
fn header_in(folds: bool, text: &Characters<'_, '_>) -> Option<Header>
    ensures value { result ≡ header_of folds text.now }
    ensures digit { IfSome result (λ h. h.digit ≤ 9) }
{
    if !text.is_empty() && is_digit_char(text.first()) {
        let digit = text.first() as usize - 48;
        return header_after_digit(folds, digit, &text.rest());
    }
    if !text.is_empty() && is_sign_char(text.first()) {
        return header_after_sign(folds, chomp_with(text.first()), &text.rest());
    }
    header_with(folds, 0, Chomp::Clip, text)
}

fn does_begin_blank(text: &str) -> bool
    ensures { result ≡ begins_blank (chars text.now) }
{
    !is_end(text) && is_blank(first_of(text))
}

fn push_spaces(out: &mut String, count: usize) -> Result<(), AllocError>
    ensures { OnOk result (string_bytes out.new ≡ string_bytes out.old ++ encode_utf8_all (indented count [])) }
{
    let mut left = count;
    while left > 0 {
        out.push(' ')?;
        left -= 1;
    }
    Ok(())
}

/// Appends what stands between two content lines, or before the first.
fn push_between(
    out: &mut String,
    folds: bool,
    before: Option<bool>,
    breaks: usize,
    is_blank: bool,
) -> Result<(), AllocError>
    ensures { OnOk result (string_bytes out.new ≡ string_bytes out.old ++ encode_utf8_all
        (between folds before breaks is_blank)) }
{
    if let Some(was_blank) = before {
        if folds && !(was_blank || is_blank) {
            return push_fold(out, breaks.saturating_sub(1));
        }
    }
    push_breaks(out, breaks)
}

/// Appends what the line breaks at the end leave.
fn push_chomped(
    out: &mut String,
    chomp: Chomp,
    before: Option<bool>,
    breaks: usize,
) -> Result<(), AllocError>
    ensures { OnOk result (string_bytes out.new ≡ string_bytes out.old ++ encode_utf8_all
        (chomped chomp before breaks)) }
{
    match chomp {
        Chomp::Strip => Ok(()),
        Chomp::Clip => {
            if before.is_none() {
                return Ok(());
            }
            push_breaks(out, breaks.min(1))
        }
        Chomp::Keep => push_breaks(out, breaks),
    }
}

/// How many spaces of a line belong to its content.
fn extra_spaces(column: Option<usize>, line: &Line<'_>) -> usize
    ensures { result ≡ extra_in column line.now }
{
    match column {
        None => 0,
        Some(at) => line.indent().saturating_sub(at),
    }
}

fn row_text<'a>(column: Option<usize>, line: &Line<'a>) -> &'a str
    ensures { chars result.now ≡ text_in column line.now }
{
    match column {
        None => "",
        Some(_) => line.slice(),
    }
}

fn is_empty_row(extra: usize, text: &str) -> bool
    ensures { result ≡ end_of_list (indented extra (chars text.now)) }
{
    extra == 0 && is_end(text)
}

fn does_row_begin_blank(extra: usize, text: &str) -> bool
    ensures { result ≡ begins_blank (indented extra (chars text.now)) }
{
    extra > 0 || does_begin_blank(text)
}

fn break_count(line: &Line<'_>) -> usize
    ensures value { result ≡ (if line.now.ended then 1 else 0) }
    ensures few { result ≤ 1 }
{
    if line.is_ended() { 1 } else { 0 }
}

/// Appends the text of a row of content: this many spaces, and what follows them.
fn push_row(out: &mut String, extra: usize, text: &str) -> Result<(), AllocError>
    ensures { OnOk result (string_bytes out.new ≡ string_bytes out.old ++ encode_utf8_all
        (indented extra (chars text.now))) }
{
    push_spaces(out, extra)?;
    out.push_str(text)?;
    Ok(())
}

/// Appends the text of content lines, whose content stands at a column.
fn push_content(
    out: &mut String,
    header: Header,
    column: Option<usize>,
    lines: &[Line<'_>],
) -> Result<(), AllocError>
    ensures { OnOk result (string_bytes out.new ≡ string_bytes out.old ++ encode_utf8_all
        (content header.folds header.chomp None 0 (map (row_in column) lines.now))) }
{
    let mut before = None;
    let mut breaks: usize = 0;
    for line in lines {
        let extra = extra_spaces(column, line);
        let text = row_text(column, line);
        let has_break = break_count(line);
        if is_empty_row(extra, text) {
            breaks += has_break;
            continue;
        }
        let is_blank_row = does_row_begin_blank(extra, text);
        push_between(out, header.folds, before, breaks, is_blank_row)?;
        push_row(out, extra, text)?;
        before = Some(is_blank_row);
        breaks = has_break;
    }
    push_chomped(out, header.chomp, before, breaks)
}

fn does_belong(column: usize, line: &Line<'_>) -> bool
    ensures { result ≡ belongs column line.now }
{
    is_end(line.slice()) || column <= line.indent()
}

/// How many lines of content stand first.
fn content_len(column: usize, lines: &[Line<'_>]) -> usize
    ensures within { result ≤ length lines.now }
    ensures front { take result lines.now ≡ while (belongs column) lines.now }
    ensures rest { drop result lines.now ≡ past (belongs column) lines.now }
{
    let mut at = 0;
    while at < lines.len() && does_belong(column, &lines[at]) {
        at += 1;
    }
    at
}

/// How many lines of spaces alone stand first.
fn spaces_lines(lines: &[Line<'_>]) -> usize
    ensures within { result ≤ length lines.now }
    ensures front { take result lines.now ≡ while is_spaces lines.now }
    ensures rest { drop result lines.now ≡ past is_spaces lines.now }
{
    let mut at = 0;
    while at < lines.len() && is_end(lines[at].slice()) {
        at += 1;
    }
    at
}

fn are_no_deeper(column: usize, lines: &[Line<'_>]) -> bool
    ensures { result ≡ no_deeper column lines.now }
{
    for line in lines {
        if line.indent() > column {
            return false;
        }
    }
    true
}

/// Appends the content that stands at a column, after which nothing may stand.
fn push_rows_at(
    out: &mut String,
    header: Header,
    column: usize,
    body: &[Line<'_>],
) -> Result<(), YamlFault>
    ensures { Gives (λ (_ : Unit {0}). string_bytes out.new) result
        (behind (string_bytes out.old) (content_of header (rows_at column body.now))) }
{
    let len = content_len(column, body);
    if !are_quiet(lines_from(body, len)) {
        return Err(YamlFault::Grammar);
    }
    push_content(out, header, Some(column), lines_to(body, len))?;
    Ok(())
}

/// Appends the content that stands where its first line says, after an indicator.
fn push_rows_found(
    out: &mut String,
    header: Header,
    indent: usize,
    body: &[Line<'_>],
) -> Result<(), YamlFault>
    ensures { Gives (λ (_ : Unit {0}). string_bytes out.new) result
        (behind (string_bytes out.old) (content_of header (rows_of indent 0 body.now))) }
{
    let len = spaces_lines(body);
    let rest = lines_from(body, len);
    let spaces = lines_to(body, len);
    if rest.is_empty() {
        push_content(out, header, None, spaces)?;
        return Ok(());
    }
    let column = rest[0].indent();
    if column <= indent {
        if !are_quiet(rest) {
            return Err(YamlFault::Grammar);
        }
        push_content(out, header, None, spaces)?;
        return Ok(());
    }
    if !are_no_deeper(column, spaces) {
        return Err(YamlFault::Grammar);
    }
    push_rows_at(out, header, column, body)
}

/// Appends a block scalar, whose header follows `|` or `>` after an indicator.
pub fn push_block(
    out: &mut String,
    folds: bool,
    indent: usize,
    text: &Characters<'_, '_>,
    body: &[Line<'_>],
) -> Result<(), YamlFault>
    requires { indent < 2 ^ 63 }
    ensures { Gives (λ (_ : Unit {0}). string_bytes out.new) result
        (behind (string_bytes out.old) (block_scalar folds indent text.now body.now)) }
{
    let Some(header) = header_in(folds, text) else {
        return Err(YamlFault::Grammar);
    };
    if header.digit == 0 {
        return push_rows_found(out, header, indent, body);
    }
    push_rows_at(out, header, indent + header.digit, body)
}
