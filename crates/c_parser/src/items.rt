// Items: the forms in their order. No form reads further than the item that a later one takes, so each token is read a
// bounded number of times.
ghost use Rattle.std.specs.Prelude.{◌≡◌, ◌≤◌, ◌^◌, ℕ, [], ◌∷◌};
ghost use Rattle.c_parser.specs.Gives.{Reads};
ghost use Rattle.c_parser.specs.SourceView.{stmt_view, item_if};
ghost use Rattle.c_parser.specs.ReadItems.{read_reach, read_body, read_function, read_prototype, read_global, read_closed, read_nothing, first_form, read_item};

use crate::brackets::behind_closing;
use crate::closed::closed_at;
use crate::cursor::Read;
use crate::declarations::declaration_at;
use crate::fault::Unread;
use crate::item::Item;
use crate::look::{behind, closed, place_at};
use crate::parameters::{parameters_at, types_at};
use crate::specifiers::{behind_attributes, name_at, type_at};
use crate::statements::braced_at;
use crate::tree::{RawForm, RawStmt};
use crate::words::is_spelled;
use c_tokens::{Punct, Token};
use std::alloc::Global;
use wv_base::Text;

/// What the program calls where its property is violated; its body is passed.
const REACH_ERROR: &[u8] = b"reach_error";

/// `reach_error` with any body.
fn reach_at(tokens: &[Token], brackets: usize) -> Read<'_, Option<Item>>
    ensures { (h : ℕ) → Reads item_if result (read_reach h brackets tokens.now) }
{
    let (_result, rest) = type_at(true, tokens, brackets)?;
    let Some(word) = name_at(rest) else {
        return Err(Unread::Unspelled);
    };
    if !is_spelled(REACH_ERROR, word.as_bytes()) {
        return Err(Unread::Unspelled);
    }
    let rest = closed(behind(rest), Punct::ParenOpen)?;
    let rest = behind_closing(rest, brackets, Punct::ParenClose)?;
    let rest = behind_attributes(rest, brackets)?;
    let rest = closed(rest, Punct::BraceOpen)?;
    let rest = behind_closing(rest, brackets, Punct::BraceClose)?;
    Ok((None, rest))
}

/// The body of a function.
fn body_at<'a>(
    alloc: Global,
    tokens: &'a [Token],
    brackets: usize,
    height: usize,
) -> Read<'a, RawStmt>
    requires brackets { brackets ≤ 2 ^ 15 }
    requires height { height ≤ 2 ^ 15 }
    ensures { Reads stmt_view result (read_body height brackets height tokens.now) }
{
    if height == 0 {
        return Err(Unread::Unspelled);
    }
    let spot = place_at(tokens);
    let rest = closed(tokens, Punct::BraceOpen)?;
    let (stmts, rest) = braced_at(alloc, rest, brackets, height - 1)?;
    let rest = closed(rest, Punct::BraceClose)?;
    let form = RawForm::Block(stmts);
    Ok((RawStmt { spot, form }, rest))
}

fn function_at<'a>(
    alloc: Global,
    tokens: &'a [Token],
    brackets: usize,
    height: usize,
) -> Read<'a, Option<Item>>
    requires brackets { brackets ≤ 2 ^ 15 }
    requires height { height ≤ 2 ^ 15 }
    ensures { Reads item_if result (read_function height brackets tokens.now) }
{
    let (result, rest) = type_at(true, tokens, brackets)?;
    let Some(word) = name_at(rest) else {
        return Err(Unread::Unspelled);
    };
    let spot = place_at(rest);
    let rest = closed(behind(rest), Punct::ParenOpen)?;
    let (params, rest) = parameters_at(alloc, rest, brackets)?;
    let rest = closed(rest, Punct::ParenClose)?;
    let rest = behind_attributes(rest, brackets)?;
    let (body, rest) = body_at(alloc, rest, brackets, height)?;
    let name = Text::of(alloc, word)?;
    let item = Item::Function {
        spot,
        name,
        result,
        params,
        body,
    };
    Ok((Some(item), rest))
}

/// A prototype; one of `reach_error` is passed over.
fn prototype_at<'a>(alloc: Global, tokens: &'a [Token], brackets: usize) -> Read<'a, Option<Item>>
    ensures { (h : ℕ) → Reads item_if result (read_prototype h brackets tokens.now) }
{
    let (result, rest) = type_at(true, tokens, brackets)?;
    let Some(word) = name_at(rest) else {
        return Err(Unread::Unspelled);
    };
    let spot = place_at(rest);
    let rest = closed(behind(rest), Punct::ParenOpen)?;
    let (params, rest) = types_at(alloc, rest, brackets)?;
    let rest = closed(rest, Punct::ParenClose)?;
    let rest = behind_attributes(rest, brackets)?;
    let rest = closed(rest, Punct::Semicolon)?;
    if is_spelled(REACH_ERROR, word.as_bytes()) {
        return Ok((None, rest));
    }
    let name = Text::of(alloc, word)?;
    let item = Item::Prototype {
        spot,
        name,
        result,
        params,
    };
    Ok((Some(item), rest))
}

fn global_at<'a>(
    alloc: Global,
    tokens: &'a [Token],
    brackets: usize,
    height: usize,
) -> Read<'a, Option<Item>>
    requires brackets { brackets ≤ 2 ^ 15 }
    requires height { height ≤ 2 ^ 15 }
    ensures { Reads item_if result (read_global height brackets tokens.now) }
{
    let (names, rest) = declaration_at(alloc, tokens, true, brackets, height)?;
    Ok((Some(Item::Global(names)), rest))
}

fn nothing_at(tokens: &[Token]) -> Read<'_, Option<Item>>
    ensures { (h b : ℕ) → Reads item_if result (read_nothing h b tokens.now) }
{
    let rest = closed(tokens, Punct::Semicolon)?;
    Ok((None, rest))
}

fn closed_or_nothing_at<'a>(
    alloc: Global,
    tokens: &'a [Token],
    brackets: usize,
    height: usize,
) -> Read<'a, Option<Item>>
    requires brackets { brackets ≤ 2 ^ 15 }
    requires height { height ≤ 2 ^ 15 }
    ensures { Reads item_if result (first_form height brackets (read_closed height brackets ∷ read_nothing height
        brackets ∷ []) tokens.now) }
{
    match closed_at(alloc, tokens, brackets) {
        Ok(item) => Ok(item),
        Err(Unread::OutOfMemory) => Err(Unread::OutOfMemory),
        Err(Unread::Unspelled) => nothing_at(tokens),
    }
}

fn global_or_later_at<'a>(
    alloc: Global,
    tokens: &'a [Token],
    brackets: usize,
    height: usize,
) -> Read<'a, Option<Item>>
    requires brackets { brackets ≤ 2 ^ 15 }
    requires height { height ≤ 2 ^ 15 }
    ensures { Reads item_if result (first_form height brackets (read_global height brackets ∷ read_closed height
        brackets ∷ read_nothing height brackets ∷ []) tokens.now) }
{
    match global_at(alloc, tokens, brackets, height) {
        Ok(item) => Ok(item),
        Err(Unread::OutOfMemory) => Err(Unread::OutOfMemory),
        Err(Unread::Unspelled) => closed_or_nothing_at(alloc, tokens, brackets, height),
    }
}

fn prototype_or_later_at<'a>(
    alloc: Global,
    tokens: &'a [Token],
    brackets: usize,
    height: usize,
) -> Read<'a, Option<Item>>
    requires brackets { brackets ≤ 2 ^ 15 }
    requires height { height ≤ 2 ^ 15 }
    ensures { Reads item_if result (first_form height brackets (read_prototype height brackets ∷ read_global height
        brackets ∷ read_closed height brackets ∷ read_nothing height brackets ∷ []) tokens.now) }
{
    match prototype_at(alloc, tokens, brackets) {
        Ok(item) => Ok(item),
        Err(Unread::OutOfMemory) => Err(Unread::OutOfMemory),
        Err(Unread::Unspelled) => global_or_later_at(alloc, tokens, brackets, height),
    }
}

fn function_or_later_at<'a>(
    alloc: Global,
    tokens: &'a [Token],
    brackets: usize,
    height: usize,
) -> Read<'a, Option<Item>>
    requires brackets { brackets ≤ 2 ^ 15 }
    requires height { height ≤ 2 ^ 15 }
    ensures { Reads item_if result (first_form height brackets (read_function height brackets ∷ read_prototype height
        brackets ∷ read_global height brackets ∷ read_closed height brackets ∷ read_nothing height brackets ∷ [])
        tokens.now) }
{
    match function_at(alloc, tokens, brackets, height) {
        Ok(item) => Ok(item),
        Err(Unread::OutOfMemory) => Err(Unread::OutOfMemory),
        Err(Unread::Unspelled) => prototype_or_later_at(alloc, tokens, brackets, height),
    }
}

/// The item at the front of tokens, of the first form that spells one; some items give no tree.
pub fn item_at<'a>(
    alloc: Global,
    tokens: &'a [Token],
    brackets: usize,
    height: usize,
) -> Read<'a, Option<Item>>
    requires brackets { brackets ≤ 2 ^ 15 }
    requires height { height ≤ 2 ^ 15 }
    ensures { Reads item_if result (read_item height brackets tokens.now) }
{
    match reach_at(tokens, brackets) {
        Ok(item) => Ok(item),
        Err(Unread::OutOfMemory) => Err(Unread::OutOfMemory),
        Err(Unread::Unspelled) => function_or_later_at(alloc, tokens, brackets, height),
    }
}
