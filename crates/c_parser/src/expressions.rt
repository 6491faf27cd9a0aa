// Expressions, read by strength (C11 6.5): an operand, the steps and operators after it, and what they join.
ghost use Rattle.std.specs.Prelude.{◌≡◌, ◌≤◌, ◌<◌, ◌+◌, ◌^◌, ℕ, Some, None, length};
ghost use Rattle.c_tokens.specs.declared.token.TokenKind.TheVariants as kind;
ghost use Rattle.c_parser.specs.Expressions.{has_room};
ghost use Rattle.c_parser.specs.ReadExpressions.{read, within, full, stored, tail, choice, operand, operand_at, opened, prefixed, signed, in_parens, grouped, converted, name_words, with_steps, named, called, arguments, listed, bracketed, dimensions};
ghost use Rattle.c_parser.specs.View.{expr_view};
ghost use Rattle.c_parser.specs.Gives.{Gives, Fits, GivesAll, assignment_at, steps};

use crate::cursor::Read;
use crate::fault::Unread;
use crate::look::{
    assign_at, begins_type, behind, closed, is_same, is_sign, joint_at, operator_of, place_at,
    step_before, step_behind,
};
use crate::measured::{
    Measured, MeasuredRow, assigned, boxed, call_of, chosen, element_of, joined, leaf, stepped,
};
use crate::strength::{ASSIGNMENT, BINARY, CAST, CONDITIONAL, EXPR, UNARY};
use crate::tree::{RawExpr, RawNode};
use crate::type_name::name_words;
use crate::type_words::type_of;
use crate::words::is_name;
use c_core::{Spot, StepOp, UnOp};
use c_tokens::{Punct, Token, TokenKind};
use std::alloc::Global;
use wv_base::Text;

/// The expression at the front of tokens whose parts hold together with this strength at least, with at most this many
/// brackets open at one place and of this height at most.
#[cycle(expressions)]
#[tactic(auto, unfolding(crate::specs::ReadExpressions::level))]
pub fn expression_at<'a>(
    alloc: Global,
    tokens: &'a [Token],
    brackets: usize,
    height: usize,
    strength: usize,
) -> Read<'a, Measured>
    requires brackets { brackets ≤ 2 ^ 15 }
    requires height { height ≤ 2 ^ 15 }
    ensures { Gives height result (read brackets height strength tokens.now) }
{
    if height == 0 {
        return Err(Unread::Unspelled);
    }
    let got = full_at(alloc, tokens, brackets, height - 1, strength)?;
    Ok(got)
}

/// The same in one more pair of brackets.
#[cycle(expressions)]
#[tactic(auto, unfolding(crate::specs::ReadExpressions::within))]
pub fn within_at<'a>(
    alloc: Global,
    tokens: &'a [Token],
    brackets: usize,
    height: usize,
    strength: usize,
) -> Read<'a, Measured>
    requires brackets { brackets ≤ 2 ^ 15 }
    requires height { height ≤ 2 ^ 15 }
    ensures { Gives height result (within brackets height strength tokens.now) }
{
    if brackets == 0 {
        return Err(Unread::Unspelled);
    }
    let got = expression_at(alloc, tokens, brackets - 1, height, strength)?;
    Ok(got)
}

/// An expression whose parts have this height at most.
#[cycle(expressions)]
fn full_at<'a>(
    alloc: Global,
    tokens: &'a [Token],
    brackets: usize,
    height: usize,
    strength: usize,
) -> Read<'a, Measured>
    requires brackets { brackets ≤ 2 ^ 15 }
    requires height { height < 2 ^ 15 }
    ensures { Gives (height + 1) result (full (has_room brackets) (within brackets) (read brackets height) height
        strength tokens.now) }
{
    let (first, rest) = operand_at(alloc, tokens, brackets, height, strength)?;
    let (left, rest) = stored_at(alloc, tokens, brackets, height, strength, first, rest)?;
    let got = tail_at(
        alloc,
        place_at(tokens),
        brackets,
        height,
        strength,
        left,
        rest,
    )?;
    Ok(got)
}

/// What follows an operand: an assignment, or further operands and a choice.
#[cycle(expressions)]
fn stored_at<'a>(
    alloc: Global,
    tokens: &'a [Token],
    brackets: usize,
    height: usize,
    strength: usize,
    left: Measured,
    rest: &'a [Token],
) -> Read<'a, Measured>
    requires brackets { brackets ≤ 2 ^ 15 }
    requires height { height < 2 ^ 15 }
    requires left { Fits (height + 1) left }
    ensures { Gives (height + 1) result (stored (has_room brackets) (within brackets) (read brackets height) height
        tokens.now strength (expr_view left.expr, rest.now) (assignment_at tokens.now strength rest.now)) }
{
    let spot = place_at(tokens);
    match assign_at(tokens, strength, rest) {
        Some(op) => {
            let (right, end) = expression_at(alloc, behind(rest), brackets, height, ASSIGNMENT)?;
            let got = assigned(alloc, height, spot, op, left, right, end)?;
            Ok(got)
        }
        None => {
            let (test, end) = tail_at(
                alloc,
                spot,
                brackets,
                height,
                strength.max(BINARY),
                left,
                rest,
            )?;
            let got = choice_at(alloc, spot, brackets, height, strength, test, end)?;
            Ok(got)
        }
    }
}

/// The operands that follow one, joined by signs of this strength at least.
#[cycle(expressions)]
fn tail_at<'a>(
    alloc: Global,
    spot: Spot,
    brackets: usize,
    height: usize,
    strength: usize,
    first: Measured,
    tokens: &'a [Token],
) -> Read<'a, Measured>
    requires brackets { brackets ≤ 2 ^ 15 }
    requires height { height < 2 ^ 15 }
    requires first { Fits (height + 1) first }
    ensures { Gives (height + 1) result (tail (has_room brackets) (within brackets) (read brackets height) height height
        spot strength (expr_view first.expr) tokens.now) }
{
    let mut left = first;
    let mut rest = tokens;
    let mut more = height;
    loop {
        let Some((own, joint)) = joint_at(strength, rest) else {
            return Ok((left, rest));
        };
        let (right, end) = expression_at(alloc, behind(rest), brackets, height, own + 1)?;
        (left, rest) = joined(alloc, height, spot, joint, left, right, end)?;
        if more == 0 {
            return Err(Unread::Unspelled);
        }
        more -= 1;
    }
}

/// What follows the test of a conditional expression.
#[cycle(expressions)]
fn choice_at<'a>(
    alloc: Global,
    spot: Spot,
    brackets: usize,
    height: usize,
    strength: usize,
    test: Measured,
    tokens: &'a [Token],
) -> Read<'a, Measured>
    requires brackets { brackets ≤ 2 ^ 15 }
    requires height { height < 2 ^ 15 }
    requires test { Fits (height + 1) test }
    ensures { Gives (height + 1) result (choice (has_room brackets) (within brackets) (read brackets height) height spot
        strength (expr_view test.expr, tokens.now)) }
{
    if strength <= CONDITIONAL && is_sign(tokens, Punct::Question) {
        let mark = place_at(tokens);
        let (yes, rest) = expression_at(alloc, behind(tokens), brackets, height, EXPR)?;
        let second = closed(rest, Punct::Colon)?;
        let (no, end) = expression_at(alloc, second, brackets, height, CONDITIONAL)?;
        let got = chosen(alloc, height, spot, mark, test, yes, no, end)?;
        return Ok(got);
    }
    Ok((test, tokens))
}

/// What stands before the first sign that joins; a cast where the strength allows one.
#[cycle(expressions)]
fn operand_at<'a>(
    alloc: Global,
    tokens: &'a [Token],
    brackets: usize,
    height: usize,
    strength: usize,
) -> Read<'a, Measured>
    requires brackets { brackets ≤ 2 ^ 15 }
    requires height { height < 2 ^ 15 }
    ensures { Gives (height + 1) result (operand (has_room brackets) (within brackets) (read brackets height) height
        strength tokens.now) }
{
    match tokens {
        [first, rest @ ..] => {
            let got = kind_at(
                alloc,
                first.spot,
                &first.kind,
                rest,
                brackets,
                height,
                strength,
            )?;
            Ok(got)
        }
        [] => Err(Unread::Unspelled),
    }
}

/// An operand by its first token.
#[cycle(expressions)]
fn kind_at<'a>(
    alloc: Global,
    spot: Spot,
    kind: &TokenKind,
    tokens: &'a [Token],
    brackets: usize,
    height: usize,
    strength: usize,
) -> Read<'a, Measured>
    requires brackets { brackets ≤ 2 ^ 15 }
    requires height { height < 2 ^ 15 }
    ensures { Gives (height + 1) result (operand_at (has_room brackets) (within brackets) (read brackets height) height
        strength spot kind.now tokens.now) }
{
    match kind {
        TokenKind::Word(word) => {
            let got = word_at(alloc, spot, word.as_str(), tokens, brackets, height)?;
            Ok(got)
        }
        TokenKind::Number {
            value,
            decimal,
            unsigned,
            longs,
        } => {
            let node = RawNode::Number {
                value: *value,
                decimal: *decimal,
                unsigned: *unsigned,
                longs: *longs,
            };
            let got = steps_at(alloc, spot, height, leaf(spot, node), tokens)?;
            Ok(got)
        }
        TokenKind::Char(value) => {
            let got = steps_at(
                alloc,
                spot,
                height,
                leaf(spot, RawNode::Char(*value)),
                tokens,
            )?;
            Ok(got)
        }
        TokenKind::Str => Err(Unread::Unspelled),
        TokenKind::Punct(sign) => {
            let got = opened_at(alloc, spot, *sign, tokens, brackets, height, strength)?;
            Ok(got)
        }
    }
}

/// What begins with a sign.
#[cycle(expressions)]
fn opened_at<'a>(
    alloc: Global,
    spot: Spot,
    sign: Punct,
    tokens: &'a [Token],
    brackets: usize,
    height: usize,
    strength: usize,
) -> Read<'a, Measured>
    requires brackets { brackets ≤ 2 ^ 15 }
    requires height { height < 2 ^ 15 }
    ensures { Gives (height + 1) result (opened (has_room brackets) (within brackets) (read brackets height) height
        strength spot sign tokens.now) }
{
    if is_same(Punct::ParenOpen, sign) {
        let got = parens_at(alloc, spot, tokens, brackets, height, strength)?;
        return Ok(got);
    }
    let got = prefixed_at(
        alloc,
        spot,
        step_before(sign),
        operator_of(sign),
        tokens,
        brackets,
        height,
    )?;
    Ok(got)
}

/// What stands after a step or an operator before its operand.
#[cycle(expressions)]
fn prefixed_at<'a>(
    alloc: Global,
    spot: Spot,
    step: Option<StepOp>,
    op: Option<UnOp>,
    tokens: &'a [Token],
    brackets: usize,
    height: usize,
) -> Read<'a, Measured>
    requires brackets { brackets ≤ 2 ^ 15 }
    requires height { height < 2 ^ 15 }
    ensures { Gives (height + 1) result (prefixed (has_room brackets) (within brackets) (read brackets height) height
        spot step op tokens.now) }
{
    match step {
        Some(op) => {
            let (target, rest) = expression_at(alloc, tokens, brackets, height, UNARY)?;
            let height = target.height + 1;
            let node = RawNode::Step {
                op,
                target: boxed(alloc, target.expr)?,
            };
            let expr = RawExpr { spot, node };
            Ok((Measured { expr, height }, rest))
        }
        None => {
            let got = signed_at(alloc, spot, op, tokens, brackets, height)?;
            Ok(got)
        }
    }
}

/// What stands after an operator of one operand.
#[cycle(expressions)]
fn signed_at<'a>(
    alloc: Global,
    spot: Spot,
    op: Option<UnOp>,
    tokens: &'a [Token],
    brackets: usize,
    height: usize,
) -> Read<'a, Measured>
    requires brackets { brackets ≤ 2 ^ 15 }
    requires height { height < 2 ^ 15 }
    ensures { Gives (height + 1) result (signed (has_room brackets) (within brackets) (read brackets height) height spot
        op tokens.now) }
{
    match op {
        Some(op) => {
            let (of, rest) = expression_at(alloc, tokens, brackets, height, CAST)?;
            let height = of.height + 1;
            let node = RawNode::Unary {
                op,
                of: boxed(alloc, of.expr)?,
            };
            let expr = RawExpr { spot, node };
            Ok((Measured { expr, height }, rest))
        }
        None => Err(Unread::Unspelled),
    }
}

/// What stands after an opening parenthesis: the type of a cast, or an expression.
#[cycle(expressions)]
fn parens_at<'a>(
    alloc: Global,
    spot: Spot,
    tokens: &'a [Token],
    brackets: usize,
    height: usize,
    strength: usize,
) -> Read<'a, Measured>
    requires brackets { brackets ≤ 2 ^ 15 }
    requires height { height < 2 ^ 15 }
    ensures { Gives (height + 1) result (in_parens (has_room brackets) (within brackets) (read brackets height) height
        strength spot tokens.now) }
{
    if begins_type(tokens) {
        if brackets == 0 || strength > CAST {
            return Err(Unread::Unspelled);
        }
        let got = converted_at(alloc, spot, tokens, brackets, height)?;
        return Ok(got);
    }
    let (inner, rest) = grouped_at(alloc, spot, tokens, brackets, height)?;
    let got = steps_at(alloc, spot, height, inner, rest)?;
    Ok(got)
}

/// A cast, from after its parenthesis on.
#[cycle(expressions)]
fn converted_at<'a>(
    alloc: Global,
    spot: Spot,
    tokens: &'a [Token],
    brackets: usize,
    height: usize,
) -> Read<'a, Measured>
    requires brackets { brackets ≤ 2 ^ 15 }
    requires height { height < 2 ^ 15 }
    ensures { Gives (height + 1) result (converted (has_room brackets) (within brackets) (read brackets height) height
        spot (name_words tokens.now)) }
{
    let (counts, rest) = name_words(tokens);
    let operand = closed(rest, Punct::ParenClose)?;
    let Some(to) = type_of(&counts) else {
        return Err(Unread::Unspelled);
    };
    let (of, end) = expression_at(alloc, operand, brackets, height, CAST)?;
    let height = of.height + 1;
    let node = RawNode::Cast {
        to,
        of: boxed(alloc, of.expr)?,
    };
    let expr = RawExpr { spot, node };
    Ok((Measured { expr, height }, end))
}

/// An expression in parentheses.
#[cycle(expressions)]
fn grouped_at<'a>(
    alloc: Global,
    spot: Spot,
    tokens: &'a [Token],
    brackets: usize,
    height: usize,
) -> Read<'a, Measured>
    requires brackets { brackets ≤ 2 ^ 15 }
    requires height { height < 2 ^ 15 }
    ensures { Gives (height + 1) result (grouped (has_room brackets) (within brackets) (read brackets height) height
        spot tokens.now) }
{
    let (inner, rest) = within_at(alloc, tokens, brackets, height + 1, EXPR)?;
    let end = closed(rest, Punct::ParenClose)?;
    let node = inner.expr.node;
    let expr = RawExpr { spot, node };
    let height = inner.height;
    Ok((Measured { expr, height }, end))
}

/// What begins with a word.
#[cycle(expressions)]
fn word_at<'a>(
    alloc: Global,
    spot: Spot,
    word: &str,
    tokens: &'a [Token],
    brackets: usize,
    height: usize,
) -> Read<'a, Measured>
    requires brackets { brackets ≤ 2 ^ 15 }
    requires height { height < 2 ^ 15 }
    ensures { Gives (height + 1) result (operand_at (has_room brackets) (within brackets) (read brackets height) height
        0 spot (kind.Word word.now) tokens.now) }
{
    if !is_name(word.as_bytes()) {
        return Err(Unread::Unspelled);
    }
    let (primary, rest) = named_at(alloc, spot, word, tokens, brackets, height)?;
    let got = steps_at(alloc, spot, height, primary, rest)?;
    Ok(got)
}

/// A name, an element or a call, from after the name on.
#[cycle(expressions)]
fn named_at<'a>(
    alloc: Global,
    spot: Spot,
    word: &str,
    tokens: &'a [Token],
    brackets: usize,
    height: usize,
) -> Read<'a, Measured>
    requires brackets { brackets ≤ 2 ^ 15 }
    requires height { height < 2 ^ 15 }
    ensures { Gives (height + 1) result (named (has_room brackets) (within brackets) (read brackets height) height spot
        word.now tokens.now) }
{
    if is_sign(tokens, Punct::ParenOpen) {
        let got = called_at(alloc, spot, word, behind(tokens), brackets, height)?;
        return Ok(got);
    }
    if is_sign(tokens, Punct::BracketOpen) {
        let (indexes, rest) = dimensions_at(alloc, tokens, brackets, height, EXPR)?;
        let element = element_of(alloc, spot, word, indexes)?;
        return Ok((element, rest));
    }
    let name = Text::of(alloc, word)?;
    let node = RawNode::Var { name, word: spot };
    Ok((leaf(spot, node), tokens))
}

/// What stands in square brackets, and in a second pair after it, if there is one: the indexes of an element or the
/// sizes of an array.
#[cycle(expressions)]
pub fn dimensions_at<'a>(
    alloc: Global,
    tokens: &'a [Token],
    brackets: usize,
    height: usize,
    strength: usize,
) -> Read<'a, MeasuredRow>
    requires brackets { brackets ≤ 2 ^ 15 }
    requires height { height ≤ 2 ^ 15 }
    ensures { GivesAll height result (dimensions (within brackets height strength) tokens.now) }
{
    let mut row = MeasuredRow::new(alloc);
    let (first, rest) = bracketed_at(alloc, tokens, brackets, height, strength)?;
    row.push(first)?;
    if is_sign(rest, Punct::BracketOpen) {
        let (second, end) = bracketed_at(alloc, rest, brackets, height, strength)?;
        row.push(second)?;
        return Ok((row, end));
    }
    Ok((row, rest))
}

/// What stands in square brackets, of which one opens here.
#[cycle(expressions)]
fn bracketed_at<'a>(
    alloc: Global,
    tokens: &'a [Token],
    brackets: usize,
    height: usize,
    strength: usize,
) -> Read<'a, Measured>
    requires brackets { brackets ≤ 2 ^ 15 }
    requires height { height ≤ 2 ^ 15 }
    ensures { Gives height result (bracketed (within brackets height strength) tokens.now) }
{
    let (inside, rest) = within_at(alloc, behind(tokens), brackets, height, strength)?;
    let end = closed(rest, Punct::BracketClose)?;
    Ok((inside, end))
}

/// A call, from after its parenthesis on.
#[cycle(expressions)]
fn called_at<'a>(
    alloc: Global,
    spot: Spot,
    word: &str,
    tokens: &'a [Token],
    brackets: usize,
    height: usize,
) -> Read<'a, Measured>
    requires brackets { brackets ≤ 2 ^ 15 }
    requires height { height < 2 ^ 15 }
    ensures { Gives (height + 1) result (called (has_room brackets) (within brackets) (read brackets height) height spot
        word.now tokens.now) }
{
    let (arguments, rest) = arguments_at(alloc, tokens, brackets, height)?;
    let close = place_at(rest);
    let end = closed(rest, Punct::ParenClose)?;
    let call = call_of(alloc, spot, word, arguments, close)?;
    Ok((call, end))
}

/// The arguments of a call.
#[cycle(expressions)]
fn arguments_at<'a>(
    alloc: Global,
    tokens: &'a [Token],
    brackets: usize,
    height: usize,
) -> Read<'a, MeasuredRow>
    requires brackets { brackets ≤ 2 ^ 15 }
    requires height { height < 2 ^ 15 }
    ensures { GivesAll height result (arguments (has_room brackets) (within brackets) (read brackets height) height
        tokens.now) }
{
    if is_sign(tokens, Punct::ParenClose) {
        if brackets == 0 {
            return Err(Unread::Unspelled);
        }
        return Ok((MeasuredRow::new(alloc), tokens));
    }
    let got = listed_at(alloc, tokens, brackets, height)?;
    Ok(got)
}

/// Expressions parted by commas.
#[cycle(expressions)]
fn listed_at<'a>(
    alloc: Global,
    tokens: &'a [Token],
    brackets: usize,
    height: usize,
) -> Read<'a, MeasuredRow>
    requires brackets { brackets ≤ 2 ^ 15 }
    requires height { height < 2 ^ 15 }
    ensures { GivesAll height result (listed (has_room brackets) (within brackets) (read brackets height) height
        (length tokens.now) tokens.now) }
{
    let mut row = MeasuredRow::new(alloc);
    let mut more = tokens.len();
    let mut rest = tokens;
    while more > 0 {
        more -= 1;
        let (argument, end) = within_at(alloc, rest, brackets, height, ASSIGNMENT)?;
        row.push(argument)?;
        if !is_sign(end, Punct::Comma) {
            return Ok((row, end));
        }
        rest = behind(end);
    }
    Err(Unread::Unspelled)
}

/// The steps after a primary expression.
fn steps_at<'a>(
    alloc: Global,
    spot: Spot,
    height: usize,
    first: Measured,
    tokens: &'a [Token],
) -> Read<'a, Measured>
    requires height { height < 2 ^ 15 }
    requires first { Fits (height + 1) first }
    ensures { Gives (height + 1) result (steps height spot (expr_view first.expr) tokens.now) }
{
    let mut target = first;
    let mut rest = tokens;
    let mut more = height;
    loop {
        let Some(op) = step_behind(rest) else {
            return Ok((target, rest));
        };
        (target, rest) = stepped(alloc, height, spot, op, target, behind(rest))?;
        if more == 0 {
            return Err(Unread::Unspelled);
        }
        more -= 1;
    }
}
