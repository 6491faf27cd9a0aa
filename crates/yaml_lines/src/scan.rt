// The marks of YAML within one line.
ghost use Rattle.std.specs.Prelude.{◌≡◌, ◌≤◌, ◌<◌, ◌^◌, length, drop, take};
ghost use Rattle.yaml_lines.specs.Marks.{begins_blank, begins_with, gap, trimmed, without_end, nothing, quiet, is_tail, parted, dash, all_quiet};

use crate::characters::{Characters, is_blank};
use crate::line::Line;

/// What is left of a text from a place on.
pub fn from_place<'a, 'b>(text: &Characters<'a, 'b>, at: usize) -> Characters<'a, 'b>
    ensures value { result ≡ drop at text.now }
    ensures small { length text.now < 2 ^ 63 }
{
    let mut left = text.again();
    let mut more = at;
    while more > 0 && !left.is_empty() {
        left = left.rest();
        more -= 1;
    }
    left
}

/// Whether a text begins with a blank.
pub fn does_begin_blank(text: &Characters<'_, '_>) -> bool
    ensures { result ≡ begins_blank text.now }
{
    !text.is_empty() && is_blank(text.first())
}

/// Whether a text begins with this character.
pub fn does_begin_with(text: &Characters<'_, '_>, c: char) -> bool
    ensures { result ≡ begins_with c text.now }
{
    !text.is_empty() && text.first() == c
}

/// How many blanks a text begins with.
pub fn gap_len(text: &Characters<'_, '_>) -> usize
    ensures count { result ≡ length (gap text.now) }
    ensures within { result ≤ length text.now }
    ensures front { take result text.now ≡ gap text.now }
    ensures rest { drop result text.now ≡ trimmed text.now }
{
    let mut at = 0;
    let mut left = text.again();
    while does_begin_blank(&left) {
        left = left.rest();
        at += 1;
    }
    at
}

/// A text without the blanks that it begins with.
pub fn without_gap<'a, 'b>(text: &Characters<'a, 'b>) -> Characters<'a, 'b>
    ensures { result ≡ trimmed text.now }
{
    let mut left = text.again();
    while does_begin_blank(&left) {
        left = left.rest();
    }
    left
}

/// Whether nothing but blanks is left.
pub fn is_nothing(text: &Characters<'_, '_>) -> bool
    ensures { result ≡ nothing text.now }
{
    text.is_empty() || text.first() == '#'
}

/// Whether nothing but blanks and a comment is left.
pub fn is_quiet(text: &Characters<'_, '_>) -> bool
    ensures { result ≡ quiet text.now }
{
    is_nothing(&without_gap(text))
}

/// Whether what is left may follow a token: nothing, or a blank and then a comment or blanks.
pub fn is_tail_text(text: &Characters<'_, '_>) -> bool
    ensures { result ≡ is_tail text.now }
{
    text.is_empty() || (is_blank(text.first()) && is_quiet(&text.rest()))
}

/// Whether a text ends or begins with a blank.
pub fn is_parted(text: &Characters<'_, '_>) -> bool
    ensures { result ≡ parted text.now }
{
    text.is_empty() || is_blank(text.first())
}

/// Whether a text begins with the indicator of an item: `-` and then a blank or the end.
pub fn is_dash(text: &Characters<'_, '_>) -> bool
    ensures { result ≡ dash text.now }
{
    !text.is_empty() && text.first() == '-' && is_parted(&text.rest())
}

/// How many of the first n characters stand before the blanks at their end.
pub fn len_without_end(text: &Characters<'_, '_>, len: usize) -> usize
    requires { len ≤ length text.now }
    ensures within { result ≤ len }
    ensures value { take result text.now ≡ without_end (take len text.now) }
{
    let mut left = text.again();
    let mut end = 0;
    let mut at = 0;
    while at < len {
        let c = left.first();
        left = left.rest();
        at += 1;
        if is_blank(c) {
            continue;
        }
        end = at;
    }
    end
}

/// Whether all lines have nothing but blanks and comments.
pub fn are_quiet(lines: &[Line<'_>]) -> bool
    ensures { result ≡ all_quiet lines.now }
{
    for line in lines {
        if !is_quiet(&line.text()) {
            return false;
        }
    }
    true
}

/// What is left of lines from a place on.
pub fn lines_from<'a, 'b>(lines: &'b [Line<'a>], at: usize) -> &'b [Line<'a>]
    requires { at ≤ length lines.now }
    ensures { result.now ≡ drop at lines.now }
{
    &lines[at..]
}

/// The lines before an index.
pub fn lines_to<'a, 'b>(lines: &'b [Line<'a>], end: usize) -> &'b [Line<'a>]
    requires { end ≤ length lines.now }
    ensures { result.now ≡ take end lines.now }
{
    &lines[..end]
}
