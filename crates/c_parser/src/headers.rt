// What statements hold beside other statements: tests, returned values, the headers of `for` and the labels of `switch`
// (C11 6.8).
ghost use Rattle.std.specs.Prelude.{◌≡◌, ◌≤◌, ◌^◌, false};
ghost use Rattle.std.specs.Option.{option_map};
ghost use Rattle.c_parser.specs.Signs.{expr};
ghost use Rattle.c_parser.specs.View.{expr_view};
ghost use Rattle.c_parser.specs.SourceView.{first_view, label_view};
ghost use Rattle.c_parser.specs.Gives.{Reads};
ghost use Rattle.c_parser.specs.ReadExpressions.{read};
ghost use Rattle.c_parser.specs.ReadStatements.{declares, optional, first_part, for_parts, header_within};
ghost use Rattle.c_parser.specs.StatementParts.{header_view, expression_in_parens, value_of_return, test_of_do, header_of_for, label_in};

use crate::cursor::Read;
use crate::declarations::declaration_at;
use crate::expressions::{expression_at, within_at};
use crate::fault::Unread;
use crate::look::{behind, closed, is_sign};
use crate::specifiers::{begins_declaration, is_word};
use crate::strength::{CONDITIONAL, EXPR};
use crate::tree::{RawExpr, RawFirst, RawLabel};
use c_tokens::{Punct, Token};
use std::alloc::Global;

/// What stands in the parentheses of a `for`.
#[derive(Drop)]
pub struct Header {
    pub first: RawFirst,
    pub test: Option<RawExpr>,
    pub step: Option<RawExpr>,
}

/// An expression, unless this sign stands here.
fn optional_at<'a>(
    alloc: Global,
    tokens: &'a [Token],
    sign: Punct,
    brackets: usize,
    height: usize,
) -> Read<'a, Option<RawExpr>>
    requires brackets { brackets ≤ 2 ^ 15 }
    requires height { height ≤ 2 ^ 15 }
    ensures { Reads (option_map expr_view) result (optional (read brackets height expr) (declares brackets height false)
        sign tokens.now) }
{
    if is_sign(tokens, sign) {
        return Ok((None, tokens));
    }
    let (value, rest) = expression_at(alloc, tokens, brackets, height, EXPR)?;
    Ok((Some(value.expr), rest))
}

fn first_at<'a>(
    alloc: Global,
    tokens: &'a [Token],
    brackets: usize,
    height: usize,
) -> Read<'a, RawFirst>
    requires brackets { brackets ≤ 2 ^ 15 }
    requires height { height ≤ 2 ^ 15 }
    ensures { Reads first_view result (first_part (read brackets height expr) (declares brackets height false)
        tokens.now) }
{
    if begins_declaration(tokens) {
        let (declared, rest) = declaration_at(alloc, tokens, false, brackets, height)?;
        return Ok((RawFirst::Declare(declared), rest));
    }
    let (first, rest) = optional_at(alloc, tokens, Punct::Semicolon, brackets, height)?;
    let rest = closed(rest, Punct::Semicolon)?;
    match first {
        Some(first) => Ok((RawFirst::Expr(first), rest)),
        None => Ok((RawFirst::Absent, rest)),
    }
}

fn parts_at<'a>(
    alloc: Global,
    tokens: &'a [Token],
    brackets: usize,
    height: usize,
) -> Read<'a, Header>
    requires brackets { brackets ≤ 2 ^ 15 }
    requires height { height ≤ 2 ^ 15 }
    ensures { Reads header_view result (for_parts (read brackets height expr) (declares brackets height false)
        tokens.now) }
{
    let (first, rest) = first_at(alloc, tokens, brackets, height)?;
    let (test, rest) = optional_at(alloc, rest, Punct::Semicolon, brackets, height)?;
    let rest = closed(rest, Punct::Semicolon)?;
    let (step, rest) = optional_at(alloc, rest, Punct::ParenClose, brackets, height)?;
    Ok((Header { first, test, step }, rest))
}

/// The header of a `for` in one more pair of brackets.
#[tactic(auto, unfolding(crate::specs::ReadStatements::header_within))]
fn header_at<'a>(
    alloc: Global,
    tokens: &'a [Token],
    brackets: usize,
    height: usize,
) -> Read<'a, Header>
    requires brackets { brackets ≤ 2 ^ 15 }
    requires height { height ≤ 2 ^ 15 }
    ensures { Reads header_view result (header_within brackets height tokens.now) }
{
    if brackets == 0 {
        return Err(Unread::Unspelled);
    }
    let (header, rest) = parts_at(alloc, tokens, brackets - 1, height)?;
    Ok((header, rest))
}

/// The header of a `for` with its parentheses.
pub fn header_in_parens<'a>(
    alloc: Global,
    tokens: &'a [Token],
    brackets: usize,
    height: usize,
) -> Read<'a, Header>
    requires brackets { brackets ≤ 2 ^ 15 }
    requires height { height ≤ 2 ^ 15 }
    ensures { Reads header_view result (header_of_for brackets height tokens.now) }
{
    if !is_sign(tokens, Punct::ParenOpen) {
        return Err(Unread::Unspelled);
    }
    let (header, rest) = header_at(alloc, behind(tokens), brackets, height)?;
    let rest = closed(rest, Punct::ParenClose)?;
    Ok((header, rest))
}

/// An expression with parentheses round it.
pub fn test_in_parens<'a>(
    alloc: Global,
    tokens: &'a [Token],
    brackets: usize,
    height: usize,
) -> Read<'a, RawExpr>
    requires brackets { brackets ≤ 2 ^ 15 }
    requires height { height ≤ 2 ^ 15 }
    ensures { Reads expr_view result (expression_in_parens brackets height tokens.now) }
{
    if !is_sign(tokens, Punct::ParenOpen) {
        return Err(Unread::Unspelled);
    }
    let (test, rest) = within_at(alloc, behind(tokens), brackets, height, EXPR)?;
    let rest = closed(rest, Punct::ParenClose)?;
    Ok((test.expr, rest))
}

/// What stands after `return`, with its semicolon.
pub fn returned_at<'a>(
    alloc: Global,
    tokens: &'a [Token],
    brackets: usize,
    height: usize,
) -> Read<'a, Option<RawExpr>>
    requires brackets { brackets ≤ 2 ^ 15 }
    requires height { height ≤ 2 ^ 15 }
    ensures { Reads (option_map expr_view) result (value_of_return brackets height tokens.now) }
{
    if is_sign(tokens, Punct::Semicolon) {
        return Ok((None, behind(tokens)));
    }
    let (value, rest) = expression_at(alloc, tokens, brackets, height, EXPR)?;
    let rest = closed(rest, Punct::Semicolon)?;
    Ok((Some(value.expr), rest))
}

/// What stands after the body of a `do`.
pub fn do_test_at<'a>(
    alloc: Global,
    tokens: &'a [Token],
    brackets: usize,
    height: usize,
) -> Read<'a, RawExpr>
    requires brackets { brackets ≤ 2 ^ 15 }
    requires height { height ≤ 2 ^ 15 }
    ensures { Reads expr_view result (test_of_do brackets height tokens.now) }
{
    if !is_word(tokens, b"while") {
        return Err(Unread::Unspelled);
    }
    let (test, rest) = test_in_parens(alloc, behind(tokens), brackets, height)?;
    let rest = closed(rest, Punct::Semicolon)?;
    Ok((test, rest))
}

/// The label of an arm, with its colon.
pub fn label_of_arm<'a>(
    alloc: Global,
    tokens: &'a [Token],
    brackets: usize,
    height: usize,
) -> Read<'a, RawLabel>
    requires brackets { brackets ≤ 2 ^ 15 }
    requires height { height ≤ 2 ^ 15 }
    ensures { Reads label_view result (label_in brackets height tokens.now) }
{
    if is_word(tokens, b"case") {
        let (constant, rest) = expression_at(alloc, behind(tokens), brackets, height, CONDITIONAL)?;
        let rest = closed(rest, Punct::Colon)?;
        return Ok((RawLabel::Case(constant.expr), rest));
    }
    if is_word(tokens, b"default") {
        let rest = closed(behind(tokens), Punct::Colon)?;
        return Ok((RawLabel::Default, rest));
    }
    Err(Unread::Unspelled)
}
