// Property texts, token by token.
ghost use Rattle.std.specs.Prelude.{◌≡◌, ◌≤◌, ◌<◌, [], ◌∷◌, length, MatchOption, IfSome};
ghost use Rattle.std.specs.List.{prefix_len};
ghost use Rattle.std.specs.Result.{result_ok};
ghost use Rattle.wv_task.specs.Tokens as spec;
ghost use Rattle.wv_task.specs.PropertyText.{property_of, specification_of, formulas, named_among};

use c_core::Property;

/// The bytes are no such text.
#[derive(Clone, Copy, Debug, PartialEq, Eq)]
pub struct NotProperty;

const UNREACH_CALL: &[u8] = b"CHECK( init(main()), LTL(G ! call(reach_error())) )";

const UNREACH_CALL_FORMULA: &[u8] = b"G ! call(reach_error())";

const NO_OVERFLOW: &[u8] = b"CHECK( init(main()), LTL(G ! overflow) )";

const NO_OVERFLOW_FORMULA: &[u8] = b"G ! overflow";

/// The property of a property file.
pub fn property(bytes: &[u8]) -> Result<Property, NotProperty>
    ensures { result_ok result ≡ property_of bytes.now }
{
    if reads_as(bytes, UNREACH_CALL) {
        Ok(Property::UnreachCall)
    } else if reads_as(bytes, NO_OVERFLOW) {
        Ok(Property::NoOverflow)
    } else {
        Err(NotProperty)
    }
}

/// The property that a witness states, by the whole text of a property file or by its inner formula.
pub fn specification(bytes: &[u8]) -> Result<Property, NotProperty>
    ensures { result_ok result ≡ specification_of bytes.now }
{
    match property(bytes) {
        Ok(stated) => Ok(stated),
        Err(_) => formula(bytes),
    }
}

fn formula(bytes: &[u8]) -> Result<Property, NotProperty>
    ensures { result_ok result ≡ named_among formulas bytes.now }
{
    if reads_as(bytes, UNREACH_CALL_FORMULA) {
        Ok(Property::UnreachCall)
    } else if reads_as(bytes, NO_OVERFLOW_FORMULA) {
        Ok(Property::NoOverflow)
    } else {
        Err(NotProperty)
    }
}

/// Whether the two texts have the same tokens.
fn reads_as(text: &[u8], formula: &[u8]) -> bool
    ensures { result ≡ spec.reads_as text.now formula.now }
{
    let mut rest = text;
    let mut wanted = formula;
    while let Some((token, others)) = next_token(wanted) {
        match next_token(rest) {
            Some((found, after)) if found == token => rest = after,
            _ => return false,
        }
        wanted = others;
    }
    next_token(rest).is_none()
}

/// The first token, and what is left after it.
fn next_token(text: &[u8]) -> Option<(&[u8], &[u8])>
    ensures token { MatchOption result (spec.tokens text.now ≡ [])
        (λ next. spec.tokens text.now ≡ next.0.now ∷ spec.tokens next.1.now) }
    ensures shorter { IfSome result (λ next. length next.1.now < length text.now) }
{
    let (_, text) = text.split_at(blank_run(text));
    let length = token_length(text);
    if length == 0 {
        None
    } else {
        Some(text.split_at(length))
    }
}

/// How many bytes the token has that stands here.
fn token_length(text: &[u8]) -> usize
    ensures length { result ≡ spec.token_length text.now }
    ensures within { result ≤ length text.now }
{
    match text {
        [] => 0,
        [first, ..] if is_letter(*first) => letter_run(text),
        _ => 1,
    }
}

fn blank_run(text: &[u8]) -> usize
    ensures run { result ≡ prefix_len spec.is_blank text.now }
    ensures within { result ≤ length text.now }
{
    text.iter().take_while(|byte| is_blank(**byte)).count()
}

fn letter_run(text: &[u8]) -> usize
    ensures run { result ≡ prefix_len spec.is_letter text.now }
    ensures within { result ≤ length text.now }
{
    text.iter().take_while(|byte| is_letter(**byte)).count()
}

fn is_blank(byte: u8) -> bool
    ensures { result ≡ spec.is_blank byte }
{
    matches!(byte, b' ' | b'\t' | b'\r' | b'\n')
}

fn is_letter(byte: u8) -> bool
    ensures { result ≡ spec.is_letter byte }
{
    matches!(byte, b'a'..=b'z' | b'A'..=b'Z' | b'_')
}
