// Tokens that are passed: any, with brackets that match by kind.
ghost use Rattle.std.specs.Prelude.{◌≡◌, Some, None, if◌then◌else◌};
ghost use Rattle.c_parser.specs.Signs.{sign_at};
ghost use Rattle.c_parser.specs.Brackets.{bracket_of, behind};
ghost use Rattle.c_parser.specs.Passes.{Passes, bracket_view};

use crate::fault::Unread;
use crate::look::{behind, is_same, sign_at};
use c_tokens::{Punct, Token};

/// What a token is among brackets.
#[derive(Clone, Copy, Debug)]
pub enum Bracket {
    Absent,
    /// A bracket that this sign closes.
    Opening(Punct),
    Closing(Punct),
}

fn bracket_of(sign: Punct) -> Bracket
    ensures { bracket_view result ≡ bracket_of (Some sign) }
{
    match sign {
        Punct::ParenOpen => Bracket::Opening(Punct::ParenClose),
        Punct::BracketOpen => Bracket::Opening(Punct::BracketClose),
        Punct::BraceOpen => Bracket::Opening(Punct::BraceClose),
        Punct::ParenClose | Punct::BracketClose | Punct::BraceClose => Bracket::Closing(sign),
        _ => Bracket::Absent,
    }
}

/// What the first token is among brackets.
pub fn bracket_at(tokens: &[Token]) -> Bracket
    ensures { bracket_view result ≡ bracket_of (sign_at tokens.now) }
{
    match sign_at(tokens) {
        Some(sign) => bracket_of(sign),
        None => Bracket::Absent,
    }
}

/// The tokens after the sign that closes a pair, of which the tokens stand after the sign that opened it; this many
/// brackets may be open at one place, this one with them.
pub fn behind_closing(tokens: &[Token], brackets: usize, close: Punct) -> Result<&[Token], Unread>
    ensures { Passes result (behind brackets close tokens.now) }
{
    if brackets == 0 {
        return Err(Unread::Unspelled);
    }
    let mut rest = tokens;
    while !rest.is_empty() {
        match bracket_at(rest) {
            Bracket::Absent => rest = behind(rest),
            Bracket::Opening(inner) => rest = behind_closing(behind(rest), brackets - 1, inner)?,
            Bracket::Closing(sign) => return closed_by(behind(rest), is_same(sign, close)),
        }
    }
    Err(Unread::Unspelled)
}

fn closed_by(rest: &[Token], same: bool) -> Result<&[Token], Unread>
    ensures { Passes result (if same then Some rest.now else None) }
{
    if same {
        Ok(rest)
    } else {
        Err(Unread::Unspelled)
    }
}
