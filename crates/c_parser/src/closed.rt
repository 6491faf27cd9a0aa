// Items of no other form, as those of system headers: up to the first `;` outside brackets, of which the name alone is
// kept.
ghost use Rattle.std.specs.Prelude.{◌≡◌, ◌+◌, ◌<◌, ◌^◌, ℕ, []};
ghost use Rattle.std.specs.List.{list_all};
ghost use Rattle.c_parser.specs.Gives.{Reads};
ghost use Rattle.c_parser.specs.Passes.{bracket_view, named, name_here};
ghost use Rattle.c_parser.specs.SourceView.{item_if};
ghost use Rattle.c_parser.specs.Items.{may_be_closed, is_closed_sign, depth_behind, outside, closed_name};
ghost use Rattle.c_parser.specs.ReadItems.{to_semicolon, is_closed, read_closed};

use crate::brackets::{Bracket, behind_closing, bracket_at};
use crate::cursor::Read;
use crate::fault::Unread;
use crate::item::Item;
use crate::look::{behind, is_sign, place_at};
use crate::specifiers::{is_attribute, is_word, word_at};
use c_core::Spot;
use c_tokens::{Punct, Token, TokenKind};
use std::alloc::Global;
use wv_base::Text;

/// The tokens before the first `;` outside brackets, and those after it.
fn to_semicolon(tokens: &[Token], brackets: usize) -> Read<'_, &[Token]>
    ensures { Reads (λ front. front.now) result (to_semicolon brackets [] tokens.now) }
{
    let mut rest = tokens;
    while !rest.is_empty() {
        if is_sign(rest, Punct::Semicolon) {
            return Ok((&tokens[..tokens.len() - rest.len()], behind(rest)));
        }
        match bracket_at(rest) {
            Bracket::Absent => rest = behind(rest),
            Bracket::Opening(close) => rest = behind_closing(behind(rest), brackets, close)?,
            Bracket::Closing(_) => return Err(Unread::Unspelled),
        }
    }
    Err(Unread::Unspelled)
}

fn is_closed_sign(sign: Punct) -> bool
    ensures { result ≡ is_closed_sign sign }
{
    matches!(
        sign,
        Punct::Semicolon
            | Punct::ParenOpen
            | Punct::ParenClose
            | Punct::BracketOpen
            | Punct::BracketClose
            | Punct::Star
            | Punct::Comma
            | Punct::Ellipsis
    )
}

fn may_be_closed(kind: &TokenKind) -> bool
    ensures { result ≡ may_be_closed kind.now }
{
    match kind {
        TokenKind::Word(_) => true,
        TokenKind::Number { .. } => true,
        TokenKind::Char(_) => false,
        TokenKind::Str => true,
        TokenKind::Punct(sign) => is_closed_sign(*sign),
    }
}

fn is_closed(front: &[Token]) -> bool
    ensures { result ≡ is_closed front.now }
{
    !is_word(front, b"typedef") && are_closed(front)
}

/// Whether a closed item may hold each of the tokens.
fn are_closed(front: &[Token]) -> bool
    ensures { result ≡ list_all (λ t. may_be_closed t.kind) front.now }
{
    for token in front {
        if !may_be_closed(&token.kind) {
            return false;
        }
    }
    true
}

/// The word that stands first, where it may be the name of a closed item, and its place.
fn name_here(tokens: &[Token]) -> Option<(&str, Spot)>
    ensures { named result ≡ name_here tokens.now }
{
    if !is_sign(behind(tokens), Punct::ParenOpen) {
        return None;
    }
    match word_at(tokens) {
        Some(word) => {
            if is_attribute(word.as_bytes()) {
                None
            } else {
                Some((word, place_at(tokens)))
            }
        }
        None => None,
    }
}

fn depth_behind(depth: usize, bracket: Bracket) -> usize
    requires { depth + 1 < 2 ^ 64 }
    ensures { result ≡ depth_behind depth (bracket_view bracket) }
{
    match bracket {
        Bracket::Absent => depth,
        Bracket::Opening(_) => depth + 1,
        Bracket::Closing(_) => depth.saturating_sub(1),
    }
}

/// The first word outside brackets that stands directly before a parenthesis and begins no attribute, and its place.
fn closed_name(front: &[Token]) -> Option<(&str, Spot)>
    ensures { named result ≡ closed_name (outside 0 front.now) }
{
    let mut depth = 0;
    let mut more = front.len();
    let mut rest = front;
    while more > 0 {
        more -= 1;
        if depth == 0 && name_here(rest).is_some() {
            return name_here(rest);
        }
        depth = depth_behind(depth, bracket_at(rest));
        rest = behind(rest);
    }
    None
}

/// A closed item with its name.
pub fn closed_at<'a>(alloc: Global, tokens: &'a [Token], brackets: usize) -> Read<'a, Option<Item>>
    ensures { (h : ℕ) → Reads item_if result (read_closed h brackets tokens.now) }
{
    let (front, rest) = to_semicolon(tokens, brackets)?;
    let Some((word, spot)) = closed_name(front) else {
        return Err(Unread::Unspelled);
    };
    if !is_closed(front) {
        return Err(Unread::Unspelled);
    }
    let name = Text::of(alloc, word)?;
    Ok((Some(Item::Closed { spot, name }), rest))
}
