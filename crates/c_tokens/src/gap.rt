// What stands between tokens.
ghost use Rattle.std.specs.Prelude.{◌≡◌, ◌≤◌, ◌+◌, length, IfSome, IsTrue};
ghost use Rattle.c_tokens.specs.Gaps;
ghost use Rattle.c_tokens.specs.Scan.{Within};

use crate::bytes::{blank_run, is_digit, line_length, word_run};

/// What stands at a place before a token may.
#[derive(Clone, Copy, Debug)]
pub enum Gap {
    /// This many bytes that are passed over.
    Space(usize),
    /// A directive that is not passed over.
    Refused,
    /// A comment that nothing closes.
    Unclosed,
    /// A token, or the text's end.
    Absent,
}

/// What stands between two tokens here: a blank, a comment, a line passed over, or none of these. A
/// directive stands only on a fresh line.
pub fn gap_at(fresh: bool, text: &[u8]) -> Gap
    ensures here { result ≡ Gaps.gap fresh text.now }
    ensures within { Within result (length text.now) }
{
    match text {
        [b' ' | b'\t' | b'\n' | 12, ..] => Gap::Space(1),
        [b'\r', b'\n', ..] => Gap::Space(2),
        [b'#', rest @ ..] if fresh => directive(rest),
        [b'/', rest @ ..] => comment(rest),
        _ => Gap::Absent,
    }
}

/// What a slash begins.
fn comment(text: &[u8]) -> Gap
    ensures here { result ≡ Gaps.comment text.now }
    ensures within { Within result (length text.now + 1) }
{
    match text {
        [b'/', rest @ ..] => Gap::Space(line_length(rest) + 2),
        [b'*', rest @ ..] => match close_length(rest) {
            Some(length) => Gap::Space(length + 2),
            None => Gap::Unclosed,
        },
        _ => Gap::Absent,
    }
}

/// How many bytes there are up to the first `*/` and with it.
fn close_length(text: &[u8]) -> Option<usize>
    ensures length { result ≡ Gaps.close_length text.now }
    ensures within { IfSome result (λ n. n ≤ length text.now) }
{
    for at in 0..text.len() {
        if closes(&text[at..]) {
            return Some(at + 2);
        }
    }
    None
}

fn closes(text: &[u8]) -> bool
    ensures here { result ≡ Gaps.closes text.now }
    ensures within { IsTrue result → 2 ≤ length text.now }
{
    matches!(text, [b'*', b'/', ..])
}

/// What a `#` begins.
fn directive(text: &[u8]) -> Gap
    ensures here { result ≡ Gaps.directive text.now }
    ensures within { Within result (length text.now + 1) }
{
    if is_passed_over(text) {
        Gap::Space(line_length(text) + 1)
    } else {
        Gap::Refused
    }
}

fn is_passed_over(line: &[u8]) -> bool
    ensures { result ≡ Gaps.is_passed_over line.now }
{
    let first = &line[blank_run(line)..];
    begins_with_digit(first) || is_passed_name(&first[..word_run(first)])
}

fn begins_with_digit(text: &[u8]) -> bool
    ensures { result ≡ Gaps.begins_with_digit text.now }
{
    match text {
        [first, ..] => is_digit(*first),
        [] => false,
    }
}

fn is_passed_name(name: &[u8]) -> bool
    ensures { result ≡ Gaps.is_passed_name name.now }
{
    matches!(name, b"include" | b"line" | b"pragma")
}
