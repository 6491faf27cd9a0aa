// The canonical form of texts: between quotes, or bare.
ghost use Rattle.std.specs.Prelude.{◌≡◌, ◌≤◌, ◌<◌, ◌+◌, ◌/◌, ◌%◌, ◌++◌, ◌∷◌, [], ◌&&◌, ◌||◌, ◌==◌, length, drop, OnOk, IfOk, List, ℕ, string_bytes, nat_lt, nat_le, not};
ghost use Rattle.std.specs.List.{flat_map};
ghost use Rattle.std.specs.Str.{encode_utf8_all, chars};
ghost use Rattle.yaml_lines.specs.Lines.{within};
ghost use Rattle.wv_yaml.specs.Canon.{hex_of, escaped, quoted_text, between_quotes};
ghost use Rattle.yaml_scalars.specs.Quoted.{Double};

use std::alloc::{AllocError, Global};
use wv_base::{OutOfMemory, Text};
use yaml_lines::{characters_of, is_within};

fn hex_digit_of(value: u32) -> char
    requires { value < 16 }
    ensures { result ≡ hex_of value }
{
    if value < 10 {
        (b'0' + value as u8) as char
    } else {
        (b'a' + (value as u8 - 10)) as char
    }
}

fn push_pair(out: &mut String, first: char, second: char) -> Result<(), AllocError>
    ensures { OnOk result (string_bytes out.new ≡ string_bytes out.old ++ encode_utf8_all (first ∷ second ∷ [])) }
{
    out.push(first)?;
    out.push(second)?;
    Ok(())
}

/// Appends `\x` and two digits.
fn push_code(out: &mut String, code: u32) -> Result<(), AllocError>
    requires { code < 256 }
    ensures { OnOk result (string_bytes out.new ≡ string_bytes out.old ++ encode_utf8_all
        (92 ∷ 120 ∷ hex_of (code / 16) ∷ hex_of (code % 16) ∷ [])) }
{
    push_pair(out, '\\', 'x')?;
    push_pair(out, hex_digit_of(code / 16), hex_digit_of(code % 16))?;
    Ok(())
}

/// Appends `\ufff` and a digit.
fn push_last_code(out: &mut String, digit: char) -> Result<(), AllocError>
    ensures { OnOk result (string_bytes out.new ≡ string_bytes out.old ++ encode_utf8_all
        (92 ∷ 117 ∷ 102 ∷ 102 ∷ 102 ∷ digit ∷ [])) }
{
    push_pair(out, '\\', 'u')?;
    push_pair(out, 'f', 'f')?;
    push_pair(out, 'f', digit)?;
    Ok(())
}

/// Appends a character as it stands between quotes.
fn push_escaped(out: &mut String, c: char) -> Result<(), AllocError>
    ensures { OnOk result (string_bytes out.new ≡ string_bytes out.old ++ encode_utf8_all (escaped c)) }
{
    if c == '"' || c == '\\' {
        return push_pair(out, '\\', c);
    }
    if c == '\n' {
        return push_pair(out, '\\', 'n');
    }
    if c == '\t' {
        return push_pair(out, '\\', 't');
    }
    if c == '\r' {
        return push_pair(out, '\\', 'r');
    }
    let code = c as u32;
    if code < 32 || is_within('\u{7f}', '\u{9f}', c) {
        return push_code(out, code);
    }
    if is_within('\u{fffe}', '\u{ffff}', c) {
        return push_last_code(out, hex_digit_of(code % 16));
    }
    out.push(c)?;
    Ok(())
}

/// Appends characters between quotes.
fn push_escaped_chars(out: &mut String, text: &[char]) -> Result<(), AllocError>
    ensures { OnOk result (string_bytes out.new ≡ string_bytes out.old ++ between_quotes text.now) }
{
    out.push_str("\"")?;
    for c in text {
        push_escaped(out, *c)?;
    }
    out.push_str("\"")?;
    Ok(())
}

/// Appends a text between quotes.
pub fn push_quoted_text(alloc: Global, out: &mut String, text: &str) -> Result<(), AllocError>
    ensures { OnOk result (string_bytes out.new ≡ string_bytes out.old ++ quoted_text text.now) }
{
    let found = characters_of(alloc, text)?;
    push_escaped_chars(out, found.as_slice())
}

/// The canonical quoted form of a text.
pub fn quote(alloc: Global, text: &Text) -> Result<Text, OutOfMemory>
    ensures { IfOk result (λ t. t ≡ quoted_text text.now) }
{
    let mut out = String::new(alloc);
    push_quoted_text(alloc, &mut out, text.as_str())?;
    let quoted = Text::of(alloc, out.as_str())?;
    Ok(quoted)
}

/// The canonical form between its quotes spells the characters that were written, whatever follows the closing quote.
pub fn quoted_reads_back()
    ensures { (cs rest : List ℕ) → Double (flat_map escaped cs ++ (34 ∷ rest)) cs rest }
{}
