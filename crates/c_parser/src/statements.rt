// Statements (C11 6.8). Only nesting recurs, which the height bounds: the statements of a block and the arms of a
// `switch` are loops.
ghost use Rattle.std.specs.Prelude.{◌≡◌, ◌≤◌, ◌^◌, ◌&&◌, map, drop, IfOk};
ghost use Rattle.c_tokens.specs.declared.token.Punct.TheVariants.{Semicolon};
ghost use Rattle.c_parser.specs.Tree as t;
ghost use Rattle.c_parser.specs.Signs.{place};
ghost use Rattle.c_parser.specs.ReadExpressions.{closing};
ghost use Rattle.c_parser.specs.SourceView.{form_view, stmt_view, else_if};
ghost use Rattle.c_parser.specs.Gives.{Reads};
ghost use Rattle.c_parser.specs.Declarations.{begins_declaration};
ghost use Rattle.c_parser.specs.ReadStatements.{start, AtBrace, AtReturn, AtIf, AtWhile, AtDo, AtFor, AtSwitch, AtLabel, AtExpression, statement_level, braced_within, armed_within, ends_arm};
ghost use Rattle.c_parser.specs.StatementParts.{start_view, statement_of, else_of, arms_of_switch, body_in, arm_in, raw_arm_view};

use crate::cursor::Read;
use crate::declarations::declaration_at;
use crate::expressions::expression_at;
use crate::fault::Unread;
use crate::headers::{do_test_at, header_in_parens, label_of_arm, returned_at, test_in_parens};
use crate::look::{behind, closed, is_sign, place_at};
use crate::specifiers::{begins_declaration, is_word, name_at};
use crate::strength::EXPR;
use crate::tree::{RawArm, RawForm, RawStmt};
use c_core::Spot;
use c_tokens::{Punct, Token};
use std::alloc::Global;
use wv_base::{OutOfMemory, Seq, Text};

/// How a statement begins.
#[derive(Clone, Copy, Debug)]
pub enum Start {
    Semicolon,
    Brace,
    Break,
    Continue,
    Return,
    If,
    While,
    Do,
    For,
    Switch,
    Label,
    Expression,
}

fn start_at(tokens: &[Token]) -> Start
    ensures { start_view result ≡ start tokens.now }
{
    if is_sign(tokens, Punct::Semicolon) {
        Start::Semicolon
    } else if is_sign(tokens, Punct::BraceOpen) {
        Start::Brace
    } else if is_word(tokens, b"break") {
        Start::Break
    } else if is_word(tokens, b"continue") {
        Start::Continue
    } else if is_word(tokens, b"return") {
        Start::Return
    } else if is_word(tokens, b"if") {
        Start::If
    } else if is_word(tokens, b"while") {
        Start::While
    } else if is_word(tokens, b"do") {
        Start::Do
    } else if is_word(tokens, b"for") {
        Start::For
    } else if is_word(tokens, b"switch") {
        Start::Switch
    } else if name_at(tokens).is_some() && is_sign(behind(tokens), Punct::Colon) {
        Start::Label
    } else {
        Start::Expression
    }
}

fn boxed(alloc: Global, stmt: RawStmt) -> Result<Box<RawStmt>, OutOfMemory>
    ensures { IfOk result (λ b. b.value ≡ stmt) }
{
    Ok(Box::new(alloc, stmt)?)
}

fn may_declare(declared: bool, tokens: &[Token]) -> bool
    ensures { result ≡ (declared && begins_declaration tokens.now) }
{
    declared && begins_declaration(tokens)
}

/// A statement of this height at most; a declaration too, where one may stand.
#[cycle(statements)]
#[tactic(auto, unfolding(crate::specs::ReadStatements::statement_level))]
pub fn statement_at<'a>(
    alloc: Global,
    tokens: &'a [Token],
    declared: bool,
    brackets: usize,
    height: usize,
) -> Read<'a, RawStmt>
    requires brackets { brackets ≤ 2 ^ 15 }
    requires height { height ≤ 2 ^ 15 }
    ensures { Reads stmt_view result (statement_level brackets (braced_within brackets) (armed_within brackets) height
        declared tokens.now) }
{
    if height == 0 {
        return Err(Unread::Unspelled);
    }
    if may_declare(declared, tokens) {
        let spot = place_at(tokens);
        let (names, rest) = declaration_at(alloc, tokens, false, brackets, height - 1)?;
        let form = RawForm::Declare(names);
        return Ok((RawStmt { spot, form }, rest));
    }
    let (stmt, rest) = form_at(alloc, tokens, brackets, height - 1)?;
    Ok((stmt, rest))
}

/// A statement whose parts have this height at most.
#[cycle(statements)]
fn form_at<'a>(
    alloc: Global,
    tokens: &'a [Token],
    brackets: usize,
    height: usize,
) -> Read<'a, RawStmt>
    requires brackets { brackets ≤ 2 ^ 15 }
    requires height { height ≤ 2 ^ 15 }
    ensures { Reads stmt_view result (statement_of brackets height (start tokens.now) tokens.now) }
{
    let got = match start_at(tokens) {
        Start::Semicolon => Ok((stmt_of(place_at(tokens), RawForm::Empty), behind(tokens))),
        Start::Brace => block_at(alloc, tokens, brackets, height),
        Start::Break => jump_at(tokens, RawForm::Break),
        Start::Continue => jump_at(tokens, RawForm::Continue),
        Start::Return => return_at(alloc, tokens, brackets, height),
        Start::If => if_at(alloc, tokens, brackets, height),
        Start::While => while_at(alloc, tokens, brackets, height),
        Start::Do => do_at(alloc, tokens, brackets, height),
        Start::For => for_at(alloc, tokens, brackets, height),
        Start::Switch => switch_at(alloc, tokens, brackets, height),
        Start::Label => label_at(alloc, tokens, brackets, height),
        Start::Expression => expression_statement_at(alloc, tokens, brackets, height),
    };
    got
}

fn stmt_of(spot: Spot, form: RawForm) -> RawStmt
    ensures { result ≡ record { spot = spot; form = form } }
{
    RawStmt { spot, form }
}

/// What stands in braces, up to the closing one.
#[cycle(statements)]
#[tactic(auto, unfolding(crate::specs::ReadStatements::braced_within))]
pub fn braced_at<'a>(
    alloc: Global,
    tokens: &'a [Token],
    brackets: usize,
    height: usize,
) -> Read<'a, Seq<RawStmt>>
    requires brackets { brackets ≤ 2 ^ 15 }
    requires height { height ≤ 2 ^ 15 }
    ensures { Reads (map stmt_view) result (braced_within brackets height tokens.now) }
{
    if brackets == 0 {
        return Err(Unread::Unspelled);
    }
    let mut stmts = Seq::new(alloc);
    let mut more = tokens.len();
    let mut rest = tokens;
    while more > 0 {
        more -= 1;
        if is_sign(rest, Punct::BraceClose) {
            return Ok((stmts, rest));
        }
        let (stmt, end) = statement_at(alloc, rest, true, brackets - 1, height)?;
        stmts.push(stmt)?;
        rest = end;
    }
    Err(Unread::Unspelled)
}

#[cycle(statements)]
fn block_at<'a>(
    alloc: Global,
    tokens: &'a [Token],
    brackets: usize,
    height: usize,
) -> Read<'a, RawStmt>
    requires brackets { brackets ≤ 2 ^ 15 }
    requires height { height ≤ 2 ^ 15 }
    ensures { Reads stmt_view result (statement_of brackets height AtBrace tokens.now) }
{
    let spot = place_at(tokens);
    let (stmts, rest) = braced_at(alloc, behind(tokens), brackets, height)?;
    let rest = closed(rest, Punct::BraceClose)?;
    let form = RawForm::Block(stmts);
    Ok((RawStmt { spot, form }, rest))
}

#[cycle(statements)]
fn if_at<'a>(
    alloc: Global,
    tokens: &'a [Token],
    brackets: usize,
    height: usize,
) -> Read<'a, RawStmt>
    requires brackets { brackets ≤ 2 ^ 15 }
    requires height { height ≤ 2 ^ 15 }
    ensures { Reads stmt_view result (statement_of brackets height AtIf tokens.now) }
{
    let spot = place_at(tokens);
    let (test, rest) = test_in_parens(alloc, behind(tokens), brackets, height)?;
    let (yes, rest) = statement_at(alloc, rest, false, brackets, height)?;
    let yes = boxed(alloc, yes)?;
    let (no, rest) = else_at(alloc, rest, brackets, height)?;
    let form = RawForm::If { test, yes, no };
    Ok((RawStmt { spot, form }, rest))
}

/// The `else` that belongs to the `if` before.
#[cycle(statements)]
fn else_at<'a>(
    alloc: Global,
    tokens: &'a [Token],
    brackets: usize,
    height: usize,
) -> Read<'a, Option<Box<RawStmt>>>
    requires brackets { brackets ≤ 2 ^ 15 }
    requires height { height ≤ 2 ^ 15 }
    ensures { Reads else_if result (else_of brackets height tokens.now) }
{
    if !is_word(tokens, b"else") {
        return Ok((None, tokens));
    }
    let (stmt, rest) = statement_at(alloc, behind(tokens), false, brackets, height)?;
    let stmt = boxed(alloc, stmt)?;
    Ok((Some(stmt), rest))
}

#[cycle(statements)]
fn while_at<'a>(
    alloc: Global,
    tokens: &'a [Token],
    brackets: usize,
    height: usize,
) -> Read<'a, RawStmt>
    requires brackets { brackets ≤ 2 ^ 15 }
    requires height { height ≤ 2 ^ 15 }
    ensures { Reads stmt_view result (statement_of brackets height AtWhile tokens.now) }
{
    let spot = place_at(tokens);
    let (test, rest) = test_in_parens(alloc, behind(tokens), brackets, height)?;
    let (body, rest) = statement_at(alloc, rest, false, brackets, height)?;
    let body = boxed(alloc, body)?;
    let form = RawForm::While { test, body };
    Ok((RawStmt { spot, form }, rest))
}

#[cycle(statements)]
fn do_at<'a>(
    alloc: Global,
    tokens: &'a [Token],
    brackets: usize,
    height: usize,
) -> Read<'a, RawStmt>
    requires brackets { brackets ≤ 2 ^ 15 }
    requires height { height ≤ 2 ^ 15 }
    ensures { Reads stmt_view result (statement_of brackets height AtDo tokens.now) }
{
    let spot = place_at(tokens);
    let (body, rest) = statement_at(alloc, behind(tokens), false, brackets, height)?;
    let body = boxed(alloc, body)?;
    let (test, rest) = do_test_at(alloc, rest, brackets, height)?;
    let form = RawForm::Do { body, test };
    Ok((RawStmt { spot, form }, rest))
}

#[cycle(statements)]
fn for_at<'a>(
    alloc: Global,
    tokens: &'a [Token],
    brackets: usize,
    height: usize,
) -> Read<'a, RawStmt>
    requires brackets { brackets ≤ 2 ^ 15 }
    requires height { height ≤ 2 ^ 15 }
    ensures { Reads stmt_view result (statement_of brackets height AtFor tokens.now) }
{
    let spot = place_at(tokens);
    let (header, rest) = header_in_parens(alloc, behind(tokens), brackets, height)?;
    let (body, rest) = statement_at(alloc, rest, false, brackets, height)?;
    let body = boxed(alloc, body)?;
    let form = RawForm::For {
        first: header.first,
        test: header.test,
        step: header.step,
        body,
    };
    Ok((RawStmt { spot, form }, rest))
}

#[cycle(statements)]
fn switch_at<'a>(
    alloc: Global,
    tokens: &'a [Token],
    brackets: usize,
    height: usize,
) -> Read<'a, RawStmt>
    requires brackets { brackets ≤ 2 ^ 15 }
    requires height { height ≤ 2 ^ 15 }
    ensures { Reads stmt_view result (statement_of brackets height AtSwitch tokens.now) }
{
    let spot = place_at(tokens);
    let (test, rest) = test_in_parens(alloc, behind(tokens), brackets, height)?;
    let (arms, rest) = arms_in_braces(alloc, rest, brackets, height)?;
    let form = RawForm::Switch { test, arms };
    Ok((RawStmt { spot, form }, rest))
}

/// The arms of a `switch` with their braces.
#[cycle(statements)]
fn arms_in_braces<'a>(
    alloc: Global,
    tokens: &'a [Token],
    brackets: usize,
    height: usize,
) -> Read<'a, Seq<RawArm>>
    requires brackets { brackets ≤ 2 ^ 15 }
    requires height { height ≤ 2 ^ 15 }
    ensures { Reads (map raw_arm_view) result (arms_of_switch brackets height tokens.now) }
{
    if !is_sign(tokens, Punct::BraceOpen) {
        return Err(Unread::Unspelled);
    }
    let (arms, rest) = armed_at(alloc, behind(tokens), brackets, height)?;
    let rest = closed(rest, Punct::BraceClose)?;
    Ok((arms, rest))
}

/// The arms of a `switch`, up to the brace that closes it.
#[cycle(statements)]
#[tactic(auto, unfolding(crate::specs::ReadStatements::armed_within))]
fn armed_at<'a>(
    alloc: Global,
    tokens: &'a [Token],
    brackets: usize,
    height: usize,
) -> Read<'a, Seq<RawArm>>
    requires brackets { brackets ≤ 2 ^ 15 }
    requires height { height ≤ 2 ^ 15 }
    ensures { Reads (map raw_arm_view) result (armed_within brackets height tokens.now) }
{
    if brackets == 0 {
        return Err(Unread::Unspelled);
    }
    let mut arms = Seq::new(alloc);
    let mut more = tokens.len();
    let mut rest = tokens;
    while more > 0 {
        more -= 1;
        if is_sign(rest, Punct::BraceClose) {
            return Ok((arms, rest));
        }
        let (arm, end) = arm_at(alloc, rest, brackets - 1, height)?;
        arms.push(arm)?;
        rest = end;
    }
    Err(Unread::Unspelled)
}

/// An arm: its label and its statements.
#[cycle(statements)]
fn arm_at<'a>(
    alloc: Global,
    tokens: &'a [Token],
    brackets: usize,
    height: usize,
) -> Read<'a, RawArm>
    requires brackets { brackets ≤ 2 ^ 15 }
    requires height { height ≤ 2 ^ 15 }
    ensures { Reads raw_arm_view result (arm_in brackets height tokens.now) }
{
    let spot = place_at(tokens);
    let (label, rest) = label_of_arm(alloc, tokens, brackets, height)?;
    let (body, rest) = body_of_arm(alloc, rest, brackets, height)?;
    Ok((RawArm { spot, label, body }, rest))
}

/// The statements of an arm, up to the next label or the brace that closes the `switch`.
#[cycle(statements)]
fn body_of_arm<'a>(
    alloc: Global,
    tokens: &'a [Token],
    brackets: usize,
    height: usize,
) -> Read<'a, Seq<RawStmt>>
    requires brackets { brackets ≤ 2 ^ 15 }
    requires height { height ≤ 2 ^ 15 }
    ensures { Reads (map stmt_view) result (body_in brackets height tokens.now) }
{
    let mut stmts = Seq::new(alloc);
    let mut more = tokens.len();
    let mut rest = tokens;
    while more > 0 {
        more -= 1;
        if ends_arm(rest) {
            return Ok((stmts, rest));
        }
        let (stmt, end) = statement_at(alloc, rest, false, brackets, height)?;
        stmts.push(stmt)?;
        rest = end;
    }
    Err(Unread::Unspelled)
}

/// Whether no further statement of an arm stands here.
fn ends_arm(tokens: &[Token]) -> bool
    ensures { result ≡ ends_arm tokens.now }
{
    is_word(tokens, b"case") || is_word(tokens, b"default") || is_sign(tokens, Punct::BraceClose)
}

#[cycle(statements)]
fn label_at<'a>(
    alloc: Global,
    tokens: &'a [Token],
    brackets: usize,
    height: usize,
) -> Read<'a, RawStmt>
    requires brackets { brackets ≤ 2 ^ 15 }
    requires height { height ≤ 2 ^ 15 }
    ensures { Reads stmt_view result (statement_of brackets height AtLabel tokens.now) }
{
    let spot = place_at(tokens);
    let Some(word) = name_at(tokens) else {
        return Err(Unread::Unspelled);
    };
    let (of, rest) = statement_at(alloc, behind(behind(tokens)), false, brackets, height)?;
    let of = boxed(alloc, of)?;
    let name = Text::of(alloc, word)?;
    let form = RawForm::Label { name, of };
    Ok((RawStmt { spot, form }, rest))
}

/// `break` or `continue`, with its semicolon.
fn jump_at(tokens: &[Token], form: RawForm) -> Read<'_, RawStmt>
    ensures { Reads stmt_view result (closing Semicolon (t.Stmt (place tokens.now) (form_view form))
        (drop 1 tokens.now)) }
{
    let spot = place_at(tokens);
    let rest = closed(behind(tokens), Punct::Semicolon)?;
    Ok((RawStmt { spot, form }, rest))
}

fn return_at<'a>(
    alloc: Global,
    tokens: &'a [Token],
    brackets: usize,
    height: usize,
) -> Read<'a, RawStmt>
    requires brackets { brackets ≤ 2 ^ 15 }
    requires height { height ≤ 2 ^ 15 }
    ensures { Reads stmt_view result (statement_of brackets height AtReturn tokens.now) }
{
    let spot = place_at(tokens);
    let (value, rest) = returned_at(alloc, behind(tokens), brackets, height)?;
    let form = RawForm::Return(value);
    Ok((RawStmt { spot, form }, rest))
}

fn expression_statement_at<'a>(
    alloc: Global,
    tokens: &'a [Token],
    brackets: usize,
    height: usize,
) -> Read<'a, RawStmt>
    requires brackets { brackets ≤ 2 ^ 15 }
    requires height { height ≤ 2 ^ 15 }
    ensures { Reads stmt_view result (statement_of brackets height AtExpression tokens.now) }
{
    let spot = place_at(tokens);
    let (value, rest) = expression_at(alloc, tokens, brackets, height, EXPR)?;
    let rest = closed(rest, Punct::Semicolon)?;
    let form = RawForm::Expr(value.expr);
    Ok((RawStmt { spot, form }, rest))
}
