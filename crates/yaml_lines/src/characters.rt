// Characters of a document, where they stand in the text that was read.
ghost use Rattle.std.specs.Prelude.{◌≡◌, ◌≤◌, ◌<◌, ◌^◌, ◌==◌, ◌∷◌, length, drop, IsTrue, IfSome};
ghost use Rattle.std.specs.Str.{chars};
ghost use Rattle.yaml_lines.specs.Lines.{joined, break_before, after_breaks};
ghost use Rattle.yaml_lines.specs.Marks.{blank, trimmed, is_empty, is_end as end_of_list};
ghost use Rattle.yaml_lines.specs.Line.{line_at};

use crate::line::Line;
use std::marker::Model;

/// Whether nothing is left of a text.
#[inline(always)]
pub fn is_end(text: &str) -> bool
    ensures { result ≡ (length (chars text.now) == 0) }
{
    text.is_empty()
}

/// The first character of a text that has one.
#[inline(always)]
pub fn first_of(text: &str) -> char
    requires { 0 < length (chars text.now) }
    ensures { chars text.now ≡ result ∷ drop 1 (chars text.now) }
{
    match text.chars().next() {
        Some(c) => c,
        None => '\0',
    }
}

/// What follows the first character.
#[inline(always)]
pub fn rest_of(text: &str) -> &str
    requires { 0 < length (chars text.now) }
    ensures { chars result.now ≡ drop 1 (chars text.now) }
{
    let mut left = text.chars();
    match left.next() {
        Some(_) => left.as_str(),
        None => text,
    }
}

/// What follows this many characters.
pub fn slice_from(text: &str, count: usize) -> &str
    requires { count ≤ length (chars text.now) }
    ensures { chars result.now ≡ drop count (chars text.now) }
{
    let mut left = text;
    let mut more = count;
    while more > 0 {
        left = rest_of(left);
        more -= 1;
    }
    left
}

/// A space or a tab (YAML 1.2.2, 5.5).
#[inline(always)]
pub fn is_blank(c: char) -> bool
    ensures { result ≡ blank c }
{
    c == ' ' || c == '\t'
}

/// A text without the blanks at its front.
pub fn without_blanks(text: &str) -> &str
    ensures { chars result.now ≡ trimmed (chars text.now) }
{
    let mut left = text;
    while !is_end(left) && is_blank(first_of(left)) {
        left = rest_of(left);
    }
    left
}

/// Whether a text is blanks alone.
fn is_blank_text(text: &str) -> bool
    ensures { result ≡ end_of_list (trimmed (chars text.now)) }
{
    is_end(without_blanks(text))
}

/// A number that no text's characters exceed: that of its bytes.
fn most_characters(text: &str) -> usize
    ensures few { length (chars text.now) ≤ result }
    ensures small { result < 2 ^ 63 }
{
    text.len()
}

/// Whether the text of a value over lines is one that memory could hold.
fn is_small(column: usize, text: &str, lines: &[Line<'_>]) -> bool
    ensures { IsTrue result → length (joined column (chars text.now) lines.now) < 2 ^ 63 }
{
    let mut room = 0x8000_0000_0000_0000 - most_characters(text);
    for line in lines {
        let most = most_characters(line.slice());
        if room <= most + 1 {
            return false;
        }
        room -= most + 1;
    }
    true
}

/// The text of a value that may go on over lines which are indented by a column or more: the rest of its first line,
/// and the lines after that, each with its break in front. Contracts see it as the list of its characters.
#[derive(Drop)]
pub struct Characters<'a, 'b> {
    here: &'a str,
    column: usize,
    lines: &'b [Line<'a>],
}

impl<'a, 'b> Model for Characters<'a, 'b> {
    ghost use Rattle.std.specs.Prelude.{ℕ, ◌<◌, ◌^◌, List, length};
    ghost use Rattle.std.specs.Coded.{coded_ℕ, coded_list};
    ghost use Rattle.std.specs.Str.{chars};
    ghost use Rattle.yaml_lines.specs.Lines.{joined};

    ghost Value = { List ℕ };

    ghost coded = { coded_list coded_ℕ };

    ghost view = { λ t. joined t.column (chars t.here.now) t.lines.now };

    ghost invariant = { λ t. length (joined t.column (chars t.here.now) t.lines.now) < 2 ^ 63 };
}

impl<'a, 'b> Characters<'a, 'b> {
    /// The characters of a text of one line.
    pub fn of(text: &'a str) -> Characters<'a, 'b>
        ensures { result ≡ chars text.now }
    {
        Characters {
            here: text,
            column: 0,
            lines: &[],
        }
    }

    /// The text of a value, unless it is one that no memory holds.
    pub fn over(column: usize, text: &'a str, lines: &'b [Line<'a>]) -> Option<Characters<'a, 'b>>
        ensures { IfSome result (λ t. t ≡ joined column (chars text.now) lines.now) }
    {
        if !is_small(column, text, lines) {
            return None;
        }
        Some(Characters {
            here: text,
            column,
            lines,
        })
    }

    /// The same characters again.
    #[inline(always)]
    pub fn again(&self) -> Characters<'a, 'b>
        ensures same { result ≡ self.now }
        ensures small { length self.now < 2 ^ 63 }
    {
        Characters {
            here: self.here,
            column: self.column,
            lines: self.lines,
        }
    }

    /// Whether no character is left.
    #[inline(always)]
    pub fn is_empty(&self) -> bool
        ensures { result ≡ (length self.now == 0) }
    {
        is_end(self.here) && self.lines.is_empty()
    }

    /// The next character, where one is left.
    #[inline(always)]
    pub fn first(&self) -> char
        requires { 0 < length self.now }
        ensures { self.now ≡ result ∷ drop 1 self.now }
    {
        if !is_end(self.here) {
            return first_of(self.here);
        }
        break_char(self.column, &self.lines[0])
    }

    /// What follows the first character.
    #[inline(always)]
    pub fn rest(&self) -> Characters<'a, 'b>
        requires { 0 < length self.now }
        ensures value { result ≡ drop 1 self.now }
        ensures small { length self.now < 2 ^ 63 }
    {
        if !is_end(self.here) {
            return Characters {
                here: rest_of(self.here),
                column: self.column,
                lines: self.lines,
            };
        }
        Characters {
            here: self.lines[0].slice(),
            column: self.column,
            lines: &self.lines[1..],
        }
    }
}

/// The break before a line.
#[inline(never)]
fn break_char(column: usize, line: &Line<'_>) -> char
    ensures { result ≡ break_before column line.now }
{
    if is_blank_text(line.slice()) || column <= line.indent() {
        '\n'
    } else {
        '\r'
    }
}
