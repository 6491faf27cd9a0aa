// Keys, and the values that begin on a line.
ghost use Rattle.std.specs.Prelude.{◌≡◌, ◌≤◌, ◌<◌, ◌+◌, ◌++◌, ◌^◌, ◌&&◌, [], length, drop, take, false, IfOk, IsTrue, Bool, nat_le, ℕ, List, string_bytes, Option, Some, suc};
ghost use Rattle.std.specs.Str.{encode_utf8_all, chars};
ghost use Rattle.wv_yaml.specs.declared.tree.Tree.{Tree};
ghost use Rattle.yaml_lines.specs.Marks.{trimmed, parted};
ghost use Rattle.yaml_scalars.specs.Plain.{plain_start, cut, stops};
ghost use Rattle.yaml_scalars.specs.Quoted.{quoted, step_in};
ghost use Rattle.yaml_lines.specs.Lines.{break_before, after_breaks, joined};
ghost use Rattle.yaml_scalars.specs.Tokens.{max_key, is_silent};
ghost use Rattle.wv_yaml.specs.Inline.{is_colon, quoted_key, named, plain_key, key_bytes, quoted_alone, opens_flow, begins_flow, scalar, flow_text, inline};
ghost use Rattle.yaml_scalars.specs.Gives.{Gives, behind};

use crate::flow::flow_of;
use crate::tree::Tree;
use std::alloc::Global;
use wv_base::Text;
use yaml_lines::{
    Characters, Line, does_begin_with, first_of, from_place, gap_len, is_end, is_parted,
    len_without_end, rest_of,
};
use yaml_scalars::{
    YamlFault, cut_len, is_plain_start, is_quote_char, is_quoted_start, is_short, push_block,
    push_chars, push_plain, push_quoted, read_tokens,
};

fn is_colon_text(text: &Characters<'_, '_>) -> bool
    ensures value { result ≡ is_colon text.now }
    ensures some { IsTrue result → 0 < length text.now }
{
    !text.is_empty() && text.first() == ':' && is_parted(&text.rest())
}

/// Whether a scalar is a key, by its value and what follows it.
fn does_end_key(value: &str, rest: &Characters<'_, '_>) -> bool
    ensures value { result ≡ (is_colon rest.now && nat_le (length (chars value.now)) max_key) }
    ensures some { IsTrue result → 0 < length rest.now }
{
    is_colon_text(rest) && is_short(value)
}

/// The quoted key whose text follows the opening quote, and how many characters stand up to its colon, it included.
fn quoted_key_of(
    alloc: Global,
    is_double: bool,
    text: &Characters<'_, '_>,
) -> Result<(Text, usize), YamlFault>
    ensures value { Gives (λ (x : List ℕ × ℕ). (x.0, drop x.1 text.now)) result
        (named (quoted_key (quoted (step_in is_double) 0) text.now)) }
    ensures within { IfOk result (λ x. x.1 ≤ length text.now) }
{
    let mut out = String::new(alloc);
    let count = push_quoted(&mut out, is_double, text)?;
    let after = from_place(text, count);
    let gap = gap_len(&after);
    if !does_end_key(out.as_str(), &from_place(&after, gap)) {
        return Err(YamlFault::Grammar);
    }
    let name = Text::of(alloc, out.as_str())?;
    Ok((name, count + gap + 1))
}

fn plain_key_of(alloc: Global, text: &Characters<'_, '_>) -> Result<(Text, usize), YamlFault>
    ensures value { Gives (λ (x : List ℕ × ℕ). (x.0, drop x.1 text.now)) result (named (plain_key text.now)) }
    ensures within { IfOk result (λ x. x.1 ≤ length text.now) }
{
    if !is_plain_start(false, text) {
        return Err(YamlFault::Grammar);
    }
    let len = cut_len(false, text);
    let rest = from_place(text, len);
    if !is_colon_text(&rest) {
        return Err(YamlFault::Grammar);
    }
    let mut out = String::new(alloc);
    push_chars(&mut out, text, len_without_end(text, len))?;
    if !does_end_key(out.as_str(), &rest) {
        return Err(YamlFault::Grammar);
    }
    let name = Text::of(alloc, out.as_str())?;
    Ok((name, len + 1))
}

/// The key that a line's text begins with, and how many characters stand up to its colon, it included.
pub fn key_of(alloc: Global, text: &Characters<'_, '_>) -> Result<(Text, usize), YamlFault>
    ensures value { Gives (λ (x : List ℕ × ℕ). (x.0, drop x.1 text.now)) result (key_bytes text.now) }
    ensures within { IfOk result (λ x. x.1 ≤ length text.now) }
{
    if text.is_empty() {
        return Err(YamlFault::Grammar);
    }
    if is_quoted_start(text) {
        let is_double = does_begin_with(text, '"');
        let (name, count) = quoted_key_of(alloc, is_double, &text.rest())?;
        return Ok((name, count + 1));
    }
    plain_key_of(alloc, text)
}

/// Whether nothing but blanks, line breaks and comments is left.
fn is_silent_text(alloc: Global, text: &Characters<'_, '_>) -> Result<bool, YamlFault>
    ensures { Gives (λ (b : Bool). b) result (Some (is_silent text.now)) }
{
    match read_tokens(alloc, text) {
        Ok(tokens) => Ok(tokens.is_empty()),
        Err(YamlFault::Grammar) => Ok(false),
        Err(fault) => Err(fault),
    }
}

/// Appends a quoted scalar with nothing after it. Its text follows the opening quote.
fn push_quoted_alone(
    alloc: Global,
    out: &mut String,
    is_double: bool,
    text: &Characters<'_, '_>,
) -> Result<(), YamlFault>
    ensures { Gives (λ (_ : Unit {0}). string_bytes out.new) result
        (behind (string_bytes out.old) (quoted_alone (quoted (step_in is_double) 0) text.now)) }
{
    let count = push_quoted(out, is_double, text)?;
    if !is_silent_text(alloc, &from_place(text, count))? {
        return Err(YamlFault::Grammar);
    }
    Ok(())
}

/// Appends the scalar that begins with a text after an indicator, and goes on over the lines of the body.
fn push_scalar(
    alloc: Global,
    out: &mut String,
    is_here: bool,
    indent: usize,
    text: &str,
    body: &[Line<'_>],
) -> Result<(), YamlFault>
    requires { indent < 2 ^ 63 }
    ensures { Gives (λ (_ : Unit {0}). string_bytes out.new) result
        (behind (string_bytes out.old) (scalar is_here indent (chars text.now) body.now)) }
{
    if is_end(text) {
        return Err(YamlFault::Grammar);
    }
    let first = first_of(text);
    let rest = rest_of(text);
    if is_quote_char(first) {
        let Some(all) = Characters::over(indent + 1, rest, body) else {
            return Err(YamlFault::OutOfMemory);
        };
        return push_quoted_alone(alloc, out, first == '"', &all);
    }
    if first == '|' || first == '>' {
        if !is_here {
            return Err(YamlFault::Grammar);
        }
        return push_block(out, first == '>', indent, &Characters::of(rest), body);
    }
    push_plain(out, indent, &Characters::of(text), body)
}

/// Whether a text begins with a flow collection.
pub fn does_begin_flow(text: &str) -> bool
    ensures { result ≡ begins_flow (chars text.now) }
{
    !is_end(text) && (first_of(text) == '[' || first_of(text) == '{')
}

/// The flow collection that a text is.
pub fn flow_text_of(
    alloc: Global,
    depth: usize,
    text: &Characters<'_, '_>,
) -> Result<Tree, YamlFault>
    requires { depth < 2 ^ 32 }
    ensures { Gives (λ (t : Tree). t) result (flow_text depth text.now) }
{
    match read_tokens(alloc, text) {
        Ok(tokens) => flow_of(alloc, depth, tokens.as_slice()),
        Err(fault) => Err(fault),
    }
}

/// The scalar or flow collection that begins with a text after an indicator, and goes on over the lines of the body.
pub fn inline_of(
    alloc: Global,
    depth: usize,
    is_here: bool,
    indent: usize,
    text: &str,
    body: &[Line<'_>],
) -> Result<Tree, YamlFault>
    requires depth { depth < 2 ^ 32 }
    requires indent { indent < 2 ^ 63 }
    ensures { Gives (λ (t : Tree). t) result (inline depth is_here indent (chars text.now) body.now) }
{
    if does_begin_flow(text) {
        let Some(all) = Characters::over(indent + 1, text, body) else {
            return Err(YamlFault::OutOfMemory);
        };
        return flow_text_of(alloc, depth, &all);
    }
    let mut out = String::new(alloc);
    push_scalar(alloc, &mut out, is_here, indent, text, body)?;
    let value = Text::of(alloc, out.as_str())?;
    Ok(Tree::Text(value))
}
