// The canonical text of a tree.
ghost use Rattle.std.specs.Prelude.{◌≡◌, ◌≤◌, ◌<◌, ◌+◌, ◌*◌, ◌^◌, ◌++◌, ◌∷◌, [], length, drop, OnOk, IfOk, List, ℕ, string_bytes, true, false, Result, Some};
ghost use Rattle.std.specs.List.{AllByRecursion};
ghost use Rattle.std.specs.Str.{IsUtf8};
ghost use Rattle.wv_yaml.specs.declared.tree.Tree.{Tree};
ghost use Rattle.wv_yaml.specs.declared.tree.Pair.{Pair};
ghost use Rattle.yaml_scalars.specs.declared.fault.YamlFault.{YamlFault};
ghost use Rattle.yaml_lines.specs.Marks.{indented};
ghost use Rattle.wv_yaml.specs.Document.{max_depth, Spelled};
ghost use Rattle.wv_yaml.specs.Canon.{is_word_char, is_decimal, is_letter, all_of, is_name, key_text, is_count, bytes_are, is_place, text_form, is_inline, lead, after_colon, form, items_bytes, pairs_bytes, canon, Fits, PairFits, IsCollection, InUtf8, PairInUtf8};
ghost use Rattle.wv_yaml.specs.Repeats.{Repeats};
ghost use Rattle.wv_yaml.specs.Reading.{IsAnswer};
ghost use Rattle.yaml_scalars.specs.Gives.{Gives};

use crate::quoting::push_quoted_text;
use crate::tree::{Pair, Tree};
use std::alloc::{AllocError, Global};
use wv_base::OutOfMemory;

fn is_letter_byte(byte: u8) -> bool
    ensures { result ≡ is_letter byte }
{
    (65 <= byte && byte <= 90) || (97 <= byte && byte <= 122)
}

fn is_decimal_byte(byte: u8) -> bool
    ensures { result ≡ is_decimal byte }
{
    48 <= byte && byte <= 57
}

fn is_word_byte(byte: u8) -> bool
    ensures { result ≡ is_word_char byte }
{
    is_letter_byte(byte) || is_decimal_byte(byte) || byte == b'_'
}

fn are_word_bytes(bytes: &[u8]) -> bool
    ensures { result ≡ all_of is_word_char bytes.now }
{
    for byte in bytes {
        if !is_word_byte(*byte) {
            return false;
        }
    }
    true
}

fn are_decimals(bytes: &[u8]) -> bool
    ensures { result ≡ all_of is_decimal bytes.now }
{
    for byte in bytes {
        if !is_decimal_byte(*byte) {
            return false;
        }
    }
    true
}

fn is_bare_key(key: &[u8]) -> bool
    ensures { result ≡ is_name key.now }
{
    !key.is_empty() && (is_letter_byte(key[0]) || key[0] == b'_') && are_word_bytes(&key[1..])
}

fn is_bare_count(text: &[u8]) -> bool
    ensures { result ≡ is_count text.now }
{
    !text.is_empty()
        && 49 <= text[0]
        && text[0] <= 57
        && are_decimals(&text[1..])
        && text.len() <= 7
}

fn bytes_from(bytes: &[u8], at: usize) -> &[u8]
    requires { at ≤ length bytes.now }
    ensures { result.now ≡ drop at bytes.now }
{
    &bytes[at..]
}

fn is_same(left: &[u8], right: &[u8]) -> bool
    ensures { result ≡ bytes_are left.now right.now }
{
    let mut left = left;
    let mut right = right;
    loop {
        if left.is_empty() {
            return right.is_empty();
        }
        if right.is_empty() {
            return false;
        }
        if left[0] != right[0] {
            return false;
        }
        left = bytes_from(left, 1);
        right = bytes_from(right, 1);
    }
}

fn is_place_key(key: &[u8]) -> bool
    ensures { result ≡ is_place key.now }
{
    is_same(key, b"line") || is_same(key, b"column")
}

fn push_text(alloc: Global, out: &mut String, is_bare: bool, text: &str) -> Result<(), AllocError>
    ensures text { OnOk result (string_bytes out.new ≡ string_bytes out.old ++ text_form is_bare text.now) }
    ensures utf8 { IsUtf8 text.now }
{
    let bytes = text.as_bytes();
    if is_bare && is_bare_count(bytes) {
        out.push_str(text)?;
        return Ok(());
    }
    push_quoted_text(alloc, out, text)
}

fn push_key(alloc: Global, out: &mut String, key: &str) -> Result<(), AllocError>
    ensures text { OnOk result (string_bytes out.new ≡ string_bytes out.old ++ key_text key.now) }
    ensures utf8 { IsUtf8 key.now }
{
    if is_bare_key(key.as_bytes()) {
        out.push_str(key)?;
        return Ok(());
    }
    push_quoted_text(alloc, out, key)
}

fn push_indent(out: &mut String, column: usize) -> Result<(), AllocError>
    ensures { OnOk result (string_bytes out.new ≡ string_bytes out.old ++ indented column []) }
{
    let mut left = column;
    while left > 0 {
        out.push_str(" ")?;
        left -= 1;
    }
    Ok(())
}

fn push_lead(out: &mut String, column: usize, is_first: bool) -> Result<(), AllocError>
    ensures { OnOk result (string_bytes out.new ≡ string_bytes out.old ++ lead column is_first) }
{
    if is_first {
        Ok(())
    } else {
        push_indent(out, column)
    }
}

fn is_inline_tree(tree: &Tree) -> bool
    ensures { result ≡ is_inline tree.now }
{
    match tree {
        Tree::Text(_) => true,
        Tree::List(items) => items.len() == 0,
        Tree::Map(pairs) => pairs.len() == 0,
    }
}

fn push_after_colon(out: &mut String, column: usize, is_inline: bool) -> Result<(), AllocError>
    ensures { OnOk result (string_bytes out.new ≡ string_bytes out.old ++ after_colon column is_inline) }
{
    if is_inline {
        out.push_str(" ")?;
        return Ok(());
    }
    out.push_str("\n")?;
    push_indent(out, column)?;
    Ok(())
}

/// Appends a value that begins at a column.
#[cycle(write)]
fn write_value(
    alloc: Global,
    out: &mut String,
    column: usize,
    is_bare: bool,
    depth: usize,
    tree: &Tree,
) -> Result<(), AllocError>
    requires fits { Fits depth tree.now }
    requires room { column + 2 * depth < 2 ^ 32 }
    ensures text { OnOk result (string_bytes out.new ≡ string_bytes out.old ++ form column is_bare tree.now) }
    ensures utf8 { OnOk result (InUtf8 tree.now) }
{
    match tree {
        Tree::Text(text) => {
            push_text(alloc, out, is_bare, text.as_str())?;
            out.push_str("\n")?;
            Ok(())
        }
        Tree::List(items) => {
            if items.len() == 0 {
                out.push_str("[]\n")?;
                return Ok(());
            }
            write_items(alloc, out, column, depth - 1, items.as_slice())
        }
        Tree::Map(pairs) => {
            if pairs.len() == 0 {
                out.push_str("{}\n")?;
                return Ok(());
            }
            write_pairs(alloc, out, column, depth - 1, pairs.as_slice())
        }
    }
}

#[cycle(write)]
fn write_items(
    alloc: Global,
    out: &mut String,
    column: usize,
    depth: usize,
    items: &[Tree],
) -> Result<(), AllocError>
    requires fit { AllByRecursion (λ t. Fits depth t) items.now }
    requires room { column + 2 * depth + 2 < 2 ^ 32 }
    ensures text { OnOk result (string_bytes out.new ≡ string_bytes out.old ++ items_bytes column true items.now) }
    ensures utf8 { OnOk result (AllByRecursion (λ t. InUtf8 t) items.now) }
{
    let mut is_first = true;
    for item in items {
        push_lead(out, column, is_first)?;
        out.push_str("- ")?;
        write_value(alloc, out, column + 2, false, depth, item)?;
        is_first = false;
    }
    Ok(())
}

#[cycle(write)]
fn write_pairs(
    alloc: Global,
    out: &mut String,
    column: usize,
    depth: usize,
    pairs: &[Pair],
) -> Result<(), AllocError>
    requires fit { AllByRecursion (λ p. PairFits depth p) pairs.now }
    requires room { column + 2 * depth + 2 < 2 ^ 32 }
    ensures text { OnOk result (string_bytes out.new ≡ string_bytes out.old ++ pairs_bytes column true pairs.now) }
    ensures utf8 { OnOk result (AllByRecursion (λ p. PairInUtf8 p) pairs.now) }
{
    let mut is_first = true;
    for pair in pairs {
        push_lead(out, column, is_first)?;
        push_key(alloc, out, pair.key.as_str())?;
        out.push_str(":")?;
        push_after_colon(out, column + 2, is_inline_tree(&pair.value))?;
        write_value(
            alloc,
            out,
            column + 2,
            is_place_key(pair.key.as_str().as_bytes()),
            depth,
            &pair.value,
        )?;
        is_first = false;
    }
    Ok(())
}

/// The canonical text of a tree.
pub fn write(alloc: Global, tree: &Tree) -> Result<Vec<u8>, OutOfMemory>
    requires collection { IsCollection tree.now }
    requires fits { Fits max_depth tree.now }
    ensures text { IfOk result (λ v. v.items ≡ canon tree.now) }
    // So `read` gives the tree back.
    ensures spelled { IfOk result (λ v. Spelled tree.now v.items) }
{
    let mut out = String::new(alloc);
    write_value(alloc, &mut out, 0, false, 64, tree)?;
    Ok(out.into_bytes())
}

/// The canonical text of a tree spells that tree.
pub fn canonical_is_spelled()
    ensures { (t : Tree) → IsCollection t → Fits max_depth t → InUtf8 t → Spelled t (canon t) }
{}

/// What `read` answers to the canonical text of a tree without repeated keys: that tree, unless memory runs out.
pub fn canonical_is_read()
    ensures { (t : Tree) (r : Result Tree YamlFault) → IsCollection t → Fits max_depth t → InUtf8 t → (Repeats t → ⊥)
        → IsAnswer (canon t) r → Gives (λ (u : Tree). u) r (Some t) }
{}
