// What stands at the front of tokens.
ghost use Rattle.std.specs.Prelude.{◌≡◌, ◌≤◌, length, drop, IfSome};
ghost use Rattle.c_parser.specs.Signs.{sign_of, sign_at, is_sign, is_this, same_sign, number_of_sign, place, joins, signs, steps_before, steps_behind, assigns};
ghost use Rattle.c_parser.specs.ReadExpressions.{joint_at, is_cast, begins_type};
ghost use Rattle.c_parser.specs.Words;
ghost use Rattle.c_parser.specs.Gives.{Closes, assignment_at, step_at, joint_view, joint_if};

use crate::fault::Unread;
use crate::words::is_part_of_name;
use c_core::{BinOp, Spot, StepOp, UnOp};
use c_tokens::{Punct, Token, TokenKind};

/// What joins two operands.
#[derive(Clone, Copy, Debug, PartialEq, Eq)]
pub enum Joint {
    Sequence,
    Both,
    Either,
    Plain(BinOp),
}

fn sign_of(kind: &TokenKind) -> Option<Punct>
    ensures { result ≡ sign_of kind.now }
{
    match kind {
        TokenKind::Punct(sign) => Some(*sign),
        _ => None,
    }
}

/// The sign that stands first.
pub fn sign_at(tokens: &[Token]) -> Option<Punct>
    ensures { result ≡ sign_at tokens.now }
{
    match tokens {
        [first, ..] => sign_of(&first.kind),
        [] => None,
    }
}

/// Whether this sign stands first.
pub fn is_sign(tokens: &[Token], sign: Punct) -> bool
    ensures { result ≡ is_sign sign tokens.now }
{
    match sign_at(tokens) {
        Some(other) => is_same(sign, other),
        None => false,
    }
}

/// Whether two signs are the same.
pub fn is_same(sign: Punct, other: Punct) -> bool
    ensures { result ≡ same_sign sign other }
{
    number_of(sign) == number_of(other)
}

fn number_of(sign: Punct) -> u8
    ensures { result ≡ number_of_sign sign }
{
    sign as u8
}

/// The place of the first token.
pub fn place_at(tokens: &[Token]) -> Spot
    ensures { result ≡ place tokens.now }
{
    match tokens {
        [first, ..] => first.spot,
        [] => Spot { line: 1, column: 1 },
    }
}

/// The tokens after the first one.
pub fn behind(tokens: &[Token]) -> &[Token]
    ensures { result.now ≡ drop 1 tokens.now }
{
    match tokens {
        [_, rest @ ..] => rest,
        [] => tokens,
    }
}

/// The tokens after this sign, if it stands first.
pub fn closed(tokens: &[Token], sign: Punct) -> Result<&[Token], Unread>
    ensures { Closes sign tokens.now result }
{
    if is_sign(tokens, sign) {
        Ok(behind(tokens))
    } else {
        Err(Unread::Unspelled)
    }
}

fn join_of(sign: Punct) -> Option<(usize, Joint)>
    ensures { joins sign ≡ joint_if result }
{
    match sign {
        Punct::Comma => Some((1, Joint::Sequence)),
        Punct::PipePipe => Some((4, Joint::Either)),
        Punct::AmpersandAmpersand => Some((5, Joint::Both)),
        Punct::Pipe => Some((6, Joint::Plain(BinOp::Or))),
        Punct::Caret => Some((7, Joint::Plain(BinOp::Xor))),
        Punct::Ampersand => Some((8, Joint::Plain(BinOp::And))),
        Punct::Equal => Some((9, Joint::Plain(BinOp::Eq))),
        Punct::NotEqual => Some((9, Joint::Plain(BinOp::Ne))),
        Punct::Less => Some((10, Joint::Plain(BinOp::Lt))),
        Punct::Greater => Some((10, Joint::Plain(BinOp::Gt))),
        Punct::LessEqual => Some((10, Joint::Plain(BinOp::Le))),
        Punct::GreaterEqual => Some((10, Joint::Plain(BinOp::Ge))),
        Punct::ShiftLeft => Some((11, Joint::Plain(BinOp::Shl))),
        Punct::ShiftRight => Some((11, Joint::Plain(BinOp::Shr))),
        Punct::Plus => Some((12, Joint::Plain(BinOp::Add))),
        Punct::Minus => Some((12, Joint::Plain(BinOp::Sub))),
        Punct::Star => Some((13, Joint::Plain(BinOp::Mul))),
        Punct::Slash => Some((13, Joint::Plain(BinOp::Div))),
        Punct::Percent => Some((13, Joint::Plain(BinOp::Rem))),
        _ => None,
    }
}

/// What joins the operand before these tokens to the next one, with this strength at least, and how strongly.
pub fn joint_at(strength: usize, tokens: &[Token]) -> Option<(usize, Joint)>
    ensures joint { joint_at strength tokens.now ≡ joint_if result }
    ensures strength { IfSome result (λ j. j.0 ≤ 13) }
{
    match sign_at(tokens) {
        Some(sign) => match join_of(sign) {
            Some((own, joint)) => {
                if own < strength {
                    None
                } else {
                    Some((own, joint))
                }
            }
            None => None,
        },
        None => None,
    }
}

/// The operator before a cast that a sign is.
pub fn operator_of(sign: Punct) -> Option<UnOp>
    ensures { result ≡ signs sign }
{
    match sign {
        Punct::Plus => Some(UnOp::Plus),
        Punct::Minus => Some(UnOp::Neg),
        Punct::Exclamation => Some(UnOp::Not),
        Punct::Tilde => Some(UnOp::BitNot),
        _ => None,
    }
}

/// The step before its target that a sign is.
pub fn step_before(sign: Punct) -> Option<StepOp>
    ensures { result ≡ steps_before sign }
{
    match sign {
        Punct::PlusPlus => Some(StepOp::PreInc),
        Punct::MinusMinus => Some(StepOp::PreDec),
        _ => None,
    }
}

/// The step after its target that stands first.
pub fn step_behind(tokens: &[Token]) -> Option<StepOp>
    ensures { result ≡ step_at tokens.now }
{
    match sign_at(tokens) {
        Some(Punct::PlusPlus) => Some(StepOp::PostInc),
        Some(Punct::MinusMinus) => Some(StepOp::PostDec),
        _ => None,
    }
}

fn assign_of(sign: Punct) -> Option<Option<BinOp>>
    ensures { result ≡ assigns sign }
{
    match sign {
        Punct::Assign => Some(None),
        Punct::PlusAssign => Some(Some(BinOp::Add)),
        Punct::MinusAssign => Some(Some(BinOp::Sub)),
        Punct::StarAssign => Some(Some(BinOp::Mul)),
        Punct::SlashAssign => Some(Some(BinOp::Div)),
        Punct::PercentAssign => Some(Some(BinOp::Rem)),
        Punct::ShiftLeftAssign => Some(Some(BinOp::Shl)),
        Punct::ShiftRightAssign => Some(Some(BinOp::Shr)),
        Punct::AmpersandAssign => Some(Some(BinOp::And)),
        Punct::CaretAssign => Some(Some(BinOp::Xor)),
        Punct::PipeAssign => Some(Some(BinOp::Or)),
        _ => None,
    }
}

/// The assignment that stands after an operand, where its strength and its first tokens allow one; with the operator
/// of a compound one.
pub fn assign_at(tokens: &[Token], strength: usize, rest: &[Token]) -> Option<Option<BinOp>>
    ensures { result ≡ assignment_at tokens.now strength rest.now }
{
    if strength <= 2 && !is_cast(tokens) {
        match sign_at(rest) {
            Some(sign) => assign_of(sign),
            None => None,
        }
    } else {
        None
    }
}

/// Whether a cast begins here.
pub fn is_cast(tokens: &[Token]) -> bool
    ensures { result ≡ is_cast tokens.now }
{
    is_sign(tokens, Punct::ParenOpen) && begins_type(behind(tokens))
}

/// Whether a word of a type name stands first.
pub fn begins_type(tokens: &[Token]) -> bool
    ensures { result ≡ begins_type tokens.now }
{
    match tokens {
        [first, ..] => match &first.kind {
            TokenKind::Word(word) => is_part_of_name(word.as_str().as_bytes()),
            _ => false,
        },
        [] => false,
    }
}
