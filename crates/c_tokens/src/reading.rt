ghost use Rattle.std.specs.Prelude.{◌≡◌, ◌≤◌, ◌++◌, List, length, OnOk, false};
ghost use Rattle.std.specs.Option.{option_to_list};
ghost use Rattle.c_tokens.specs.declared.token.Token.{Token};
ghost use Rattle.c_tokens.specs.declared.token.TokenFault;
ghost use Rattle.c_tokens.specs.Reading.{Answers, AnswersBy, AnswersFrom, Ending, Reads, Tokens, TokensBy, IsOutcome};
ghost use Rattle.c_tokens.specs.Scan.{Steps, seen};

use crate::gap::{Gap, gap_at};
use crate::piece::token_at;
use crate::place::{Place, first_place, place_past};
use crate::token::{Token, TokenFault};
use std::alloc::Global;
use wv_base::{OutOfMemory, Seq};

/// The tokens of a C source text (C11 6.4), or the first place where it is none: a place where no token stands, or a
/// directive that is not passed over. Lines and columns count from 1, columns in bytes.
pub fn tokens(alloc: Global, bytes: &[u8]) -> Result<Seq<Token>, TokenFault>
    ensures found { Answers bytes.now result }
    ensures only { (ts : List Token) (end : Ending) → Tokens bytes.now ts end → IsOutcome result ts end }
{
    let got = tokens_from(alloc, true, first_place(), bytes)?;
    Ok(got)
}

/// The tokens of a text in which no directive may stand: a `#` begins none there.
pub fn plain_tokens(alloc: Global, bytes: &[u8]) -> Result<Seq<Token>, TokenFault>
    ensures found { AnswersBy false bytes.now result }
    ensures only { (ts : List Token) (end : Ending) → TokensBy false bytes.now ts end → IsOutcome result ts end }
{
    let got = tokens_from(alloc, false, first_place(), bytes)?;
    Ok(got)
}

/// The same from a place of a text on.
pub fn plain_tokens_from(
    alloc: Global,
    place: Place,
    bytes: &[u8],
) -> Result<Seq<Token>, TokenFault>
    ensures found { AnswersFrom false place bytes.now result }
    ensures only { (ts : List Token) (end : Ending) → Reads false place bytes.now ts end → IsOutcome result ts end }
{
    let got = tokens_from(alloc, false, place, bytes)?;
    Ok(got)
}

fn tokens_from(
    alloc: Global,
    directives: bool,
    from: Place,
    bytes: &[u8],
) -> Result<Seq<Token>, TokenFault>
    ensures found { AnswersFrom directives from bytes.now result }
    ensures only { (ts : List Token) (end : Ending) → Reads directives from bytes.now ts end → IsOutcome result ts end }
{
    let mut found = Seq::new(alloc);
    let mut rest = bytes;
    let mut place = from;
    while !rest.is_empty() {
        let (length, token) = step(alloc, rest, seen(directives, place))?;
        add(&mut found, token)?;
        place = place_past(place, &rest[..length]);
        rest = &rest[length..];
    }
    Ok(found)
}

/// A place at which no directive may stand, unless directives may at all.
fn seen(directives: bool, place: Place) -> Place
    ensures { result ≡ seen directives place }
{
    Place {
        spot: place.spot,
        fresh: directives && place.fresh,
    }
}

/// Appends the token, if there is one.
fn add(found: &mut Seq<Token>, token: Option<Token>) -> Result<(), OutOfMemory>
    ensures { OnOk result (found.new ≡ found.old ++ option_to_list token) }
{
    match token {
        Some(token) => {
            found.push(token)?;
            Ok(())
        }
        None => Ok(()),
    }
}

/// How many bytes the next gap or token takes, and the token if it is one.
fn step(alloc: Global, rest: &[u8], place: Place) -> Result<(usize, Option<Token>), TokenFault>
    requires { 1 ≤ length rest.now }
    ensures { Steps place rest.now result }
{
    match gap_at(place.fresh, rest) {
        Gap::Space(length) => Ok((length, None)),
        Gap::Refused => Err(TokenFault::Directive {
            line: place.spot.line,
        }),
        Gap::Unclosed => Err(no_token(place)),
        Gap::Absent => match token_at(alloc, rest)? {
            Some((length, kind)) => {
                let spot = place.spot;
                Ok((length, Some(Token { kind, spot })))
            }
            None => Err(no_token(place)),
        },
    }
}

fn no_token(place: Place) -> TokenFault
    ensures { result ≡ TokenFault.Token place.spot.line place.spot.column }
{
    TokenFault::Token {
        line: place.spot.line,
        column: place.spot.column,
    }
}
