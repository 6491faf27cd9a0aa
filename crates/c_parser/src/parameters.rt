// The parameters of functions (C11 6.7.6.3).
ghost use Rattle.std.specs.Prelude.{◌≡◌, map, length};
ghost use Rattle.c_parser.specs.Gives.{Reads};
ghost use Rattle.c_parser.specs.SourceView.{param_view};
ghost use Rattle.c_parser.specs.ReadItems.{is_void, read_parameter, read_parameter_list, read_parameters, read_parameter_type, read_type_list, read_parameter_types, parameters_within, types_within};

use crate::cursor::Read;
use crate::fault::Unread;
use crate::item::RawParam;
use crate::look::{behind, is_sign, place_at};
use crate::specifiers::{is_word, name_at, type_at};
use c_core::IntType;
use c_tokens::{Punct, Token};
use std::alloc::Global;
use wv_base::{Seq, Text};

/// Whether `void` stands alone, up to a closing parenthesis.
fn is_void(tokens: &[Token]) -> bool
    ensures { result ≡ is_void tokens.now }
{
    is_word(tokens, b"void") && is_sign(behind(tokens), Punct::ParenClose)
}

fn parameter_at<'a>(alloc: Global, tokens: &'a [Token], brackets: usize) -> Read<'a, RawParam>
    ensures { Reads param_view result (read_parameter brackets tokens.now) }
{
    let (ty, rest) = type_at(true, tokens, brackets)?;
    let Some(ty) = ty else {
        return Err(Unread::Unspelled);
    };
    let Some(word) = name_at(rest) else {
        return Err(Unread::Unspelled);
    };
    let name = Text::of(alloc, word)?;
    let spot = place_at(rest);
    Ok((RawParam { spot, name, ty }, behind(rest)))
}

fn parameter_list_at<'a>(
    alloc: Global,
    tokens: &'a [Token],
    brackets: usize,
) -> Read<'a, Seq<RawParam>>
    ensures { Reads (map param_view) result (read_parameter_list brackets (length tokens.now) tokens.now) }
{
    let mut params = Seq::new(alloc);
    let mut more = tokens.len();
    let mut rest = tokens;
    while more > 0 {
        more -= 1;
        let (param, end) = parameter_at(alloc, rest, brackets)?;
        params.push(param)?;
        if !is_sign(end, Punct::Comma) {
            return Ok((params, end));
        }
        rest = behind(end);
    }
    Err(Unread::Unspelled)
}

/// The parameters of a definition, in one more pair of brackets.
pub fn parameters_at<'a>(
    alloc: Global,
    tokens: &'a [Token],
    brackets: usize,
) -> Read<'a, Seq<RawParam>>
    ensures { Reads (map param_view) result (parameters_within brackets tokens.now) }
{
    if brackets == 0 {
        return Err(Unread::Unspelled);
    }
    if is_sign(tokens, Punct::ParenClose) {
        return Ok((Seq::new(alloc), tokens));
    }
    if is_void(tokens) {
        return Ok((Seq::new(alloc), behind(tokens)));
    }
    let (params, rest) = parameter_list_at(alloc, tokens, brackets - 1)?;
    Ok((params, rest))
}

/// The type of a parameter of a prototype, after which a name may stand.
fn parameter_type_at(tokens: &[Token], brackets: usize) -> Read<'_, IntType>
    ensures { Reads (λ ty. ty) result (read_parameter_type brackets tokens.now) }
{
    let (ty, rest) = type_at(true, tokens, brackets)?;
    let Some(ty) = ty else {
        return Err(Unread::Unspelled);
    };
    match name_at(rest) {
        Some(_) => Ok((ty, behind(rest))),
        None => Ok((ty, rest)),
    }
}

fn type_list_at<'a>(alloc: Global, tokens: &'a [Token], brackets: usize) -> Read<'a, Seq<IntType>>
    ensures { Reads (λ tys. tys) result (read_type_list brackets (length tokens.now) tokens.now) }
{
    let mut types = Seq::new(alloc);
    let mut more = tokens.len();
    let mut rest = tokens;
    while more > 0 {
        more -= 1;
        let (ty, end) = parameter_type_at(rest, brackets)?;
        types.push(ty)?;
        if !is_sign(end, Punct::Comma) {
            return Ok((types, end));
        }
        rest = behind(end);
    }
    Err(Unread::Unspelled)
}

/// The types of the parameters of a prototype, in one more pair of brackets; none are stated in `()`.
pub fn types_at<'a>(
    alloc: Global,
    tokens: &'a [Token],
    brackets: usize,
) -> Read<'a, Option<Seq<IntType>>>
    ensures { Reads (λ tys. tys) result (types_within brackets tokens.now) }
{
    if brackets == 0 {
        return Err(Unread::Unspelled);
    }
    if is_sign(tokens, Punct::ParenClose) {
        return Ok((None, tokens));
    }
    if is_void(tokens) {
        return Ok((Some(Seq::new(alloc)), behind(tokens)));
    }
    let (types, rest) = type_list_at(alloc, tokens, brackets - 1)?;
    Ok((Some(types), rest))
}
