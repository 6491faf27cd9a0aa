// Flow collections as tokens.
ghost use Rattle.std.specs.Prelude.{◌≡◌, ◌≤◌, ◌<◌, ◌+◌, ◌-◌, ◌++◌, ◌^◌, [], length, drop, take, true, false, IfOk, IsTrue, ◌&&◌, Bool, nat_le, ℕ, List, string_bytes, Option, Some, None};
ghost use Rattle.std.specs.Str.{encode_utf8_all, chars};
ghost use Rattle.std.specs.declared.vec.Vec.{Vec};
ghost use Rattle.std.specs.Global.{Global};
ghost use Rattle.yaml_scalars.specs.declared.token.Token.{Token};
ghost use Rattle.yaml_lines.specs.Marks.{trimmed};
ghost use Rattle.yaml_lines.specs.Lines.{is_break};
ghost use Rattle.yaml_scalars.specs.Tokens.{sign_of, is_quote, word, line_parted, key_colon, on_one_line, is_key, token_of, comment_front, tokens, first_word, first_quote, word_token, token_step, advanced, max_key};
ghost use Rattle.yaml_scalars.specs.Gives.{Gives, with_text};

use crate::fault::YamlFault;
use crate::plain::{cut_len, is_flow_sign, is_plain_start, push_chars};
use crate::quoted::{is_white, push_quoted};
use crate::token::Token;
use std::alloc::Global;
use wv_base::Text;
use yaml_lines::{
    Characters, does_begin_with, from_place, gap_len, is_blank, len_without_end, without_gap,
};

fn is_break_char(c: char) -> bool
    ensures { result ≡ is_break c }
{
    c == '\n' || c == '\r'
}

fn sign_token(c: char) -> Token
    ensures { result ≡ sign_of c }
{
    match c {
        '[' => Token::OpenList,
        ']' => Token::CloseList,
        '{' => Token::OpenMap,
        '}' => Token::CloseMap,
        _ => Token::Comma,
    }
}

/// A single or a double quote.
pub fn is_quote_char(c: char) -> bool
    ensures { result ≡ is_quote c }
{
    c == '"' || c == '\''
}

/// Appends the scalar at the front of a text, and says how many characters it has there.
fn push_word(out: &mut String, text: &Characters<'_, '_>) -> Result<usize, YamlFault>
    requires { 0 < length text.now }
    ensures value { Gives (λ (n : ℕ). (string_bytes out.new, n)) result
        (with_text (string_bytes out.old) (first_word text.now)) }
    ensures within { IfOk result (λ n. n ≤ length text.now) }
{
    if is_quote_char(text.first()) {
        let count = push_quoted(out, text.first() == '"', &text.rest())?;
        return Ok(count + 1);
    }
    if !is_plain_start(true, text) {
        return Err(YamlFault::Grammar);
    }
    let count = len_without_end(text, cut_len(true, text));
    push_chars(out, text, count)?;
    Ok(count)
}

/// Whether none of the first n characters is a line break.
fn is_on_one_line(text: &Characters<'_, '_>, count: usize) -> bool
    requires { count ≤ length text.now }
    ensures { result ≡ on_one_line (take count text.now) }
{
    let mut left = text.again();
    let mut more = count;
    while more > 0 {
        if is_break_char(left.first()) {
            return false;
        }
        left = left.rest();
        more -= 1;
    }
    true
}

fn is_line_parted(text: &Characters<'_, '_>) -> bool
    ensures { result ≡ line_parted text.now }
{
    text.is_empty() || is_blank(text.first()) || is_break_char(text.first())
}

fn is_key_colon(is_quoted: bool, text: &Characters<'_, '_>) -> bool
    ensures { result ≡ key_colon is_quoted text.now }
{
    !text.is_empty() && text.first() == ':' && (is_quoted || is_line_parted(&text.rest()))
}

fn comment_len(text: &Characters<'_, '_>) -> usize
    ensures within { result ≤ length text.now }
    ensures count { result ≡ length (comment_front text.now) }
{
    let mut at = 0;
    let mut left = text.again();
    while !left.is_empty() {
        if is_break_char(left.first()) {
            return at;
        }
        left = left.rest();
        at += 1;
    }
    at
}

/// Whether a text is short enough for a key.
pub fn is_short(text: &str) -> bool
    ensures { result ≡ nat_le (length (chars text.now)) max_key }
{
    text.chars().count() <= 1024
}

/// Whether a text begins with a quote.
pub fn is_quoted_start(text: &Characters<'_, '_>) -> bool
    ensures { result ≡ first_quote text.now }
{
    !text.is_empty() && is_quote_char(text.first())
}

/// Whether a scalar is a key, by its characters, its value and what follows it.
fn does_make_key(
    is_quoted: bool,
    text: &Characters<'_, '_>,
    count: usize,
    value: &str,
    rest: &Characters<'_, '_>,
) -> bool
    requires { count ≤ length text.now }
    ensures value { result ≡ (on_one_line (take count text.now) &&
        (nat_le (length (chars value.now)) max_key && key_colon is_quoted (trimmed rest.now))) }
    ensures more { IsTrue result → 0 < length (trimmed rest.now) }
{
    is_on_one_line(text, count) && is_short(value) && is_key_colon(is_quoted, &without_gap(rest))
}

/// The token of the scalar at the front of a text, and how many characters it has after its first.
fn scalar_token(alloc: Global, text: &Characters<'_, '_>) -> Result<(Token, usize), YamlFault>
    requires { 0 < length text.now }
    ensures value { Gives (λ (x : Token × ℕ). x) result (word_token text.now) }
    ensures within { IfOk result (λ x. x.1 + 1 ≤ length text.now) }
{
    let mut out = String::new(alloc);
    let count = push_word(&mut out, text)?;
    let rest = from_place(text, count);
    let value = Text::of(alloc, out.as_str())?;
    if does_make_key(is_quoted_start(text), text, count, out.as_str(), &rest) {
        return Ok((Token::Key(value), count + gap_len(&rest)));
    }
    Ok((Token::Word(value), count.saturating_sub(1)))
}

/// Appends the tokens at the front of a text, and says whether it leaves a blank or a line break behind, and how many
/// characters it has after its first.
fn push_token(
    alloc: Global,
    out: &mut Vec<Token>,
    is_behind: bool,
    text: &Characters<'_, '_>,
) -> Result<(bool, usize), YamlFault>
    requires { 0 < length text.now }
    ensures value { Gives (λ (x : Bool × ℕ). (x, out.new.items)) result
        (advanced out.old.items (token_step is_behind text.now)) }
    ensures within { IfOk result (λ x. x.1 + 1 ≤ length text.now) }
{
    let c = text.first();
    let rest = text.rest();
    if is_white(c) {
        return Ok((true, 0));
    }
    if c == '\r' {
        if !does_begin_with(&without_gap(&rest), '#') {
            return Err(YamlFault::Grammar);
        }
        return Ok((true, 0));
    }
    if c == '#' {
        if !is_behind {
            return Err(YamlFault::Grammar);
        }
        return Ok((true, comment_len(&rest)));
    }
    if is_flow_sign(c) {
        out.push(sign_token(c))?;
        return Ok((false, 0));
    }
    let (token, more) = scalar_token(alloc, text)?;
    out.push(token)?;
    Ok((false, more))
}

/// The tokens of a text.
pub fn read_tokens(alloc: Global, text: &Characters<'_, '_>) -> Result<Vec<Token>, YamlFault>
    ensures { Gives (λ (v : Vec Token Global). v.items) result (tokens false 0 text.now) }
{
    let mut out = Vec::new(alloc);
    let mut is_behind = false;
    let mut left = text.again();
    while !left.is_empty() {
        match push_token(alloc, &mut out, is_behind, &left) {
            Ok((is_behind_next, more)) => {
                is_behind = is_behind_next;
                left = from_place(&left, 1 + more);
            }
            Err(fault) => return Err(fault),
        }
    }
    Ok(out)
}
