// Declarations (C11 6.7): their declarators, with sizes and initializers.
ghost use Rattle.std.specs.Prelude.{◌≡◌, ◌≤◌, ◌^◌, map, length};
ghost use Rattle.c_parser.specs.View.{expr_view, exprs_view};
ghost use Rattle.c_parser.specs.SourceView.{values_view, init_view, declared_view};
ghost use Rattle.c_parser.specs.Gives.{Reads};
ghost use Rattle.c_parser.specs.ReadExpressions.{read, within};
ghost use Rattle.c_parser.specs.Declarations.{read_sizes, read_values, read_row, read_list, read_value, read_initializer, read_declarator, read_declarators};
ghost use Rattle.c_parser.specs.ReadStatements.{rows_within, declares};

use crate::cursor::Read;
use crate::expressions::{dimensions_at, expression_at, within_at};
use crate::fault::Unread;
use crate::look::{behind, closed, is_sign, place_at};
use crate::specifiers::{name_at, type_at};
use crate::strength::{ASSIGNMENT, CONDITIONAL};
use crate::tree::{RawDeclared, RawExpr, RawInit, RawRow};
use c_core::IntType;
use c_tokens::{Punct, Token};
use std::alloc::Global;
use wv_base::{Seq, Text};

fn sizes_at<'a>(
    alloc: Global,
    tokens: &'a [Token],
    brackets: usize,
    height: usize,
) -> Read<'a, Seq<RawExpr>>
    requires brackets { brackets ≤ 2 ^ 15 }
    requires height { height ≤ 2 ^ 15 }
    ensures { Reads exprs_view result (read_sizes (within brackets height) tokens.now) }
{
    if !is_sign(tokens, Punct::BracketOpen) {
        return Ok((Seq::new(alloc), tokens));
    }
    let (sizes, rest) = dimensions_at(alloc, tokens, brackets, height, CONDITIONAL)?;
    Ok((sizes.exprs, rest))
}

/// At most `most` values of a list or row, up to the brace that closes it.
fn values_at<'a>(
    alloc: Global,
    tokens: &'a [Token],
    most: usize,
    brackets: usize,
    height: usize,
) -> Read<'a, Seq<RawExpr>>
    requires brackets { brackets ≤ 2 ^ 15 }
    requires height { height ≤ 2 ^ 15 }
    ensures { Reads exprs_view result (read_values (within brackets height) most tokens.now) }
{
    let mut values = Seq::new(alloc);
    let mut more = most;
    let mut rest = tokens;
    while more > 0 {
        more -= 1;
        let (value, end) = within_at(alloc, rest, brackets, height, ASSIGNMENT)?;
        values.push(value.expr)?;
        if !is_sign(end, Punct::Comma) {
            return Ok((values, end));
        }
        rest = behind(end);
        if is_sign(rest, Punct::BraceClose) {
            return Ok((values, rest));
        }
    }
    Err(Unread::Unspelled)
}

/// A row: values in braces.
fn row_at<'a>(
    alloc: Global,
    tokens: &'a [Token],
    brackets: usize,
    height: usize,
) -> Read<'a, RawRow>
    requires brackets { brackets ≤ 2 ^ 15 }
    requires height { height ≤ 2 ^ 15 }
    ensures { Reads values_view result (read_row (within brackets height) tokens.now) }
{
    if !is_sign(tokens, Punct::BraceOpen) {
        return Err(Unread::Unspelled);
    }
    let (values, rest) = values_at(alloc, behind(tokens), tokens.len(), brackets, height)?;
    let rest = closed(rest, Punct::BraceClose)?;
    Ok((RawRow { values }, rest))
}

/// Rows in one more pair of brackets, up to the brace that closes their list.
#[tactic(auto, unfolding(crate::specs::ReadStatements::rows_within))]
fn rows_at<'a>(
    alloc: Global,
    tokens: &'a [Token],
    brackets: usize,
    height: usize,
) -> Read<'a, Seq<RawRow>>
    requires brackets { brackets ≤ 2 ^ 15 }
    requires height { height ≤ 2 ^ 15 }
    ensures { Reads (map values_view) result (rows_within brackets height tokens.now) }
{
    if brackets == 0 {
        return Err(Unread::Unspelled);
    }
    let mut rows = Seq::new(alloc);
    let mut more = tokens.len();
    let mut rest = tokens;
    while more > 0 {
        more -= 1;
        let (row, end) = row_at(alloc, rest, brackets - 1, height)?;
        rows.push(row)?;
        if !is_sign(end, Punct::Comma) {
            return Ok((rows, end));
        }
        rest = behind(end);
        if is_sign(rest, Punct::BraceClose) {
            return Ok((rows, rest));
        }
    }
    Err(Unread::Unspelled)
}

/// What stands after the brace of a list: rows, where another brace follows.
fn list_at<'a>(
    alloc: Global,
    tokens: &'a [Token],
    brackets: usize,
    height: usize,
) -> Read<'a, RawInit>
    requires brackets { brackets ≤ 2 ^ 15 }
    requires height { height ≤ 2 ^ 15 }
    ensures { Reads init_view result (read_list brackets (read brackets height) (within brackets height)
        (rows_within brackets height) tokens.now) }
{
    if is_sign(tokens, Punct::BraceOpen) {
        let (rows, rest) = rows_at(alloc, tokens, brackets, height)?;
        let rest = closed(rest, Punct::BraceClose)?;
        return Ok((RawInit::Rows(rows), rest));
    }
    let (values, rest) = values_at(alloc, tokens, tokens.len(), brackets, height)?;
    let rest = closed(rest, Punct::BraceClose)?;
    Ok((RawInit::Many(values), rest))
}

fn value_at<'a>(
    alloc: Global,
    tokens: &'a [Token],
    brackets: usize,
    height: usize,
) -> Read<'a, RawInit>
    requires brackets { brackets ≤ 2 ^ 15 }
    requires height { height ≤ 2 ^ 15 }
    ensures { Reads init_view result (read_value brackets (read brackets height) (within brackets height)
        (rows_within brackets height) tokens.now) }
{
    if is_sign(tokens, Punct::BraceOpen) {
        let (list, rest) = list_at(alloc, behind(tokens), brackets, height)?;
        return Ok((list, rest));
    }
    let (value, rest) = expression_at(alloc, tokens, brackets, height, ASSIGNMENT)?;
    Ok((RawInit::One(value.expr), rest))
}

fn initializer_at<'a>(
    alloc: Global,
    tokens: &'a [Token],
    brackets: usize,
    height: usize,
) -> Read<'a, RawInit>
    requires brackets { brackets ≤ 2 ^ 15 }
    requires height { height ≤ 2 ^ 15 }
    ensures { Reads init_view result (read_initializer brackets (read brackets height) (within brackets height)
        (rows_within brackets height) tokens.now) }
{
    if !is_sign(tokens, Punct::Assign) {
        return Ok((RawInit::Absent, tokens));
    }
    let (init, rest) = value_at(alloc, behind(tokens), brackets, height)?;
    Ok((init, rest))
}

fn declarator_at<'a>(
    alloc: Global,
    tokens: &'a [Token],
    ty: IntType,
    brackets: usize,
    height: usize,
) -> Read<'a, RawDeclared>
    requires brackets { brackets ≤ 2 ^ 15 }
    requires height { height ≤ 2 ^ 15 }
    ensures { Reads declared_view result (read_declarator brackets (read brackets height) (within brackets height)
        (rows_within brackets height) ty tokens.now) }
{
    let Some(word) = name_at(tokens) else {
        return Err(Unread::Unspelled);
    };
    let spot = place_at(tokens);
    let (sizes, rest) = sizes_at(alloc, behind(tokens), brackets, height)?;
    let (init, rest) = initializer_at(alloc, rest, brackets, height)?;
    let name = Text::of(alloc, word)?;
    let declared = RawDeclared {
        spot,
        name,
        ty,
        sizes,
        init,
    };
    Ok((declared, rest))
}

/// Declarators up to the semicolon that ends them.
fn declarators_at<'a>(
    alloc: Global,
    tokens: &'a [Token],
    most: usize,
    ty: IntType,
    brackets: usize,
    height: usize,
) -> Read<'a, Seq<RawDeclared>>
    requires brackets { brackets ≤ 2 ^ 15 }
    requires height { height ≤ 2 ^ 15 }
    ensures { Reads (map declared_view) result (read_declarators brackets (read brackets height)
        (within brackets height) (rows_within brackets height) most ty tokens.now) }
{
    let mut declarators = Seq::new(alloc);
    let mut more = most;
    let mut rest = tokens;
    while more > 0 {
        more -= 1;
        let (declarator, end) = declarator_at(alloc, rest, ty, brackets, height)?;
        declarators.push(declarator)?;
        if !is_sign(end, Punct::Comma) {
            let rest = closed(end, Punct::Semicolon)?;
            return Ok((declarators, rest));
        }
        rest = behind(end);
    }
    Err(Unread::Unspelled)
}

/// A declaration, with the storage words that stand outside of functions alone or without them.
pub fn declaration_at<'a>(
    alloc: Global,
    tokens: &'a [Token],
    outside: bool,
    brackets: usize,
    height: usize,
) -> Read<'a, Seq<RawDeclared>>
    requires brackets { brackets ≤ 2 ^ 15 }
    requires height { height ≤ 2 ^ 15 }
    ensures { Reads (map declared_view) result (declares brackets height outside tokens.now) }
{
    let (ty, rest) = type_at(outside, tokens, brackets)?;
    let Some(ty) = ty else {
        return Err(Unread::Unspelled);
    };
    let (declared, end) = declarators_at(alloc, rest, tokens.len(), ty, brackets, height)?;
    Ok((declared, end))
}
