// Expressions of witnesses, and `\result` constraints.
ghost use Rattle.std.specs.Prelude.{◌≡◌, ◌≤◌, ◌&&◌, nat_eq, length};
ghost use Rattle.c_tokens.specs.Reading.{start};
ghost use Rattle.c_tokens.specs.declared.token.Punct.TheVariants.{ParenClose};
ghost use Rattle.c_parser.specs.Witness.{AnswersExpression, WholeExpression, AnswersTokens, AnswersTest, AnswersComparison, IsBehindResult, compares_at, are_all};

use crate::expressions::expression_at;
use crate::fault::{ExprFault, Unread};
use crate::kinds::{is_effectless, is_nameless};
use crate::look::{behind, is_sign, sign_at};
use crate::strength::{CONDITIONAL, SHIFT};
use crate::tree::{RawExpr, ResultTest};
use crate::words::is_spelled;
use c_core::BinOp;
use c_tokens::{Place, Punct, Token, TokenFault, first_place, lead, place_past, plain_tokens_from};
use std::alloc::Global;
use wv_base::Seq;

/// This many brackets may be open at one place.
pub const MAX_BRACKETS: usize = 200;
/// So high may an expression be.
pub const MAX_HEIGHT: usize = 200;

/// The expression that the text of a witness spells: a conditional expression of C tokens, with no directive among them
/// and without assignments, steps, calls, commas and casts to void.
pub fn parse_expr(alloc: Global, bytes: &[u8]) -> Result<RawExpr, ExprFault>
    ensures { AnswersExpression bytes.now result }
{
    let tokens = tokens_of(alloc, first_place(), bytes)?;
    let expr = whole_expression(alloc, tokens.as_slice())?;
    if is_effectless(&expr) {
        Ok(expr)
    } else {
        Err(ExprFault::Expression)
    }
}

/// The tokens from a place of a text on, without directives.
fn tokens_of(alloc: Global, place: Place, bytes: &[u8]) -> Result<Seq<Token>, ExprFault>
    ensures { AnswersTokens place bytes.now result }
{
    match plain_tokens_from(alloc, place, bytes) {
        Ok(tokens) => Ok(tokens),
        Err(TokenFault::OutOfMemory) => Err(ExprFault::OutOfMemory),
        Err(_) => Err(ExprFault::Expression),
    }
}

/// The conditional expression that all these tokens are read as.
fn whole_expression(alloc: Global, tokens: &[Token]) -> Result<RawExpr, ExprFault>
    ensures { WholeExpression tokens.now result }
{
    match expression_at(alloc, tokens, MAX_BRACKETS, MAX_HEIGHT, CONDITIONAL) {
        Ok((got, rest)) => {
            if rest.is_empty() {
                Ok(got.expr)
            } else {
                Err(ExprFault::Expression)
            }
        }
        Err(Unread::Unspelled) => Err(ExprFault::Expression),
        Err(Unread::OutOfMemory) => Err(ExprFault::OutOfMemory),
    }
}

/// The comparison of `\result` with a constant that the text of a witness spells, without directives.
pub fn parse_result(alloc: Global, bytes: &[u8]) -> Result<ResultTest, ExprFault>
    ensures { AnswersTest bytes.now result }
{
    let (parens, place, rest) = lead(bytes);
    let Some(text) = behind_result(rest) else {
        return Err(ExprFault::Expression);
    };
    if parens > MAX_BRACKETS {
        return Err(ExprFault::Expression);
    }
    let tokens = tokens_of(alloc, place_past(place, b"\\result"), text)?;
    let test = comparison(alloc, tokens.as_slice(), parens)?;
    Ok(test)
}

/// What stands after `\result` at the front of a text.
fn behind_result(text: &[u8]) -> Option<&[u8]>
    ensures { IsBehindResult text.now result }
{
    if text.len() < 7 {
        return None;
    }
    if !is_spelled(b"\\result", &text[..7]) {
        return None;
    }
    Some(&text[7..])
}

/// The comparison that tokens are read as, after `\result` and up to this many closing parentheses.
fn comparison(alloc: Global, tokens: &[Token], parens: usize) -> Result<ResultTest, ExprFault>
    requires { parens ≤ 200 }
    ensures { AnswersComparison parens tokens.now result }
{
    let Some(op) = comparison_at(tokens) else {
        return Err(ExprFault::Expression);
    };
    match expression_at(
        alloc,
        behind(tokens),
        MAX_BRACKETS - parens,
        MAX_HEIGHT,
        SHIFT,
    ) {
        Ok((got, rest)) => {
            if closes_all(rest, parens) && is_nameless(&got.expr) {
                let constant = got.expr;
                Ok(ResultTest { op, constant })
            } else {
                Err(ExprFault::Expression)
            }
        }
        Err(Unread::Unspelled) => Err(ExprFault::Expression),
        Err(Unread::OutOfMemory) => Err(ExprFault::OutOfMemory),
    }
}

/// The comparison that stands first.
fn comparison_at(tokens: &[Token]) -> Option<BinOp>
    ensures { result ≡ compares_at tokens.now }
{
    match sign_at(tokens) {
        Some(Punct::Equal) => Some(BinOp::Eq),
        Some(Punct::NotEqual) => Some(BinOp::Ne),
        Some(Punct::Less) => Some(BinOp::Lt),
        Some(Punct::LessEqual) => Some(BinOp::Le),
        Some(Punct::Greater) => Some(BinOp::Gt),
        Some(Punct::GreaterEqual) => Some(BinOp::Ge),
        _ => None,
    }
}

/// Whether these tokens are this many closing parentheses.
fn closes_all(tokens: &[Token], parens: usize) -> bool
    ensures { result ≡ (nat_eq (length tokens.now) parens && are_all ParenClose tokens.now) }
{
    tokens.len() == parens && are_closing(tokens)
}

fn are_closing(tokens: &[Token]) -> bool
    ensures { result ≡ are_all ParenClose tokens.now }
{
    let mut rest = tokens;
    while is_sign(rest, Punct::ParenClose) {
        rest = behind(rest);
    }
    rest.is_empty()
}
