// Whole documents.
ghost use Rattle.std.specs.Prelude.{◌≡◌, ◌≤◌, length, drop, take, All, IfOk, true, Some, ℕ, List, ◌↔◌};
ghost use Rattle.std.specs.Str.{chars};
ghost use Rattle.yaml_lines.specs.Line.{IsSmall};
ghost use Rattle.wv_yaml.specs.declared.tree.Tree.{Tree};
ghost use Rattle.yaml_scalars.specs.BlockScalar.{while, past};
ghost use Rattle.yaml_lines.specs.Lines.{allowed, unmarked, lines_in};
ghost use Rattle.wv_yaml.specs.Document.{is_triple, is_start, is_stop, is_plain_line, is_alone, opened, is_closing, top, framed, document, is_allowed, tree_of, max_depth, Spelled};
ghost use Rattle.wv_yaml.specs.Canon.{Fits, IsCollection};
ghost use Rattle.yaml_scalars.specs.Gives.{Gives};
ghost use Rattle.wv_yaml.specs.Reading.{IsReading, IsAnswer};

use crate::block::{block_of, quiet_len};
use crate::inline::{does_begin_flow, flow_text_of};
use crate::repeats::does_repeat;
use crate::tree::Tree;
use std::alloc::Global;
use std::str;
use yaml_lines::{
    Characters, Line, are_allowed, are_quiet, does_begin_with, from_place, is_parted, is_tail_text,
    lines_from, lines_to, read_lines, without_blanks, without_mark,
};
use yaml_scalars::YamlFault;

/// Whether a text begins with three signs, and then a blank or the line's end.
fn is_triple_text(c: char, text: &Characters<'_, '_>) -> bool
    ensures { result ≡ is_triple c text.now }
{
    if !does_begin_with(text, c) {
        return false;
    }
    let second = text.rest();
    if !does_begin_with(&second, c) {
        return false;
    }
    let third = second.rest();
    does_begin_with(&third, c) && is_parted(&third.rest())
}

fn is_start_line(line: &Line<'_>) -> bool
    ensures { result ≡ is_start line.now }
{
    line.indent() == 0 && is_triple_text('-', &line.text())
}

fn is_stop_line(line: &Line<'_>) -> bool
    ensures { result ≡ is_stop line.now }
{
    line.indent() == 0 && is_triple_text('.', &line.text())
}

fn is_text_line(line: &Line<'_>) -> bool
    ensures { result ≡ is_plain_line line.now }
{
    !(is_start_line(line) || is_stop_line(line))
}

/// Whether nothing but a comment stands after a line's mark.
fn is_alone_line(line: &Line<'_>) -> bool
    ensures { result ≡ is_alone line.now }
{
    is_tail_text(&from_place(&line.text(), 3))
}

/// The lines without the first line `---`.
fn opened_lines<'a, 'b>(lines: &'b [Line<'a>]) -> &'b [Line<'a>]
    ensures value { result.now ≡ opened lines.now }
    ensures small { All IsSmall lines.now → All IsSmall result.now }
{
    if !lines.is_empty() && is_start_line(&lines[0]) && is_alone_line(&lines[0]) {
        return lines_from(lines, 1);
    }
    lines
}

/// Whether nothing stands there, or a line `...` and quiet lines.
fn is_closing_text(lines: &[Line<'_>]) -> bool
    ensures { result ≡ is_closing lines.now }
{
    lines.is_empty()
        || (is_stop_line(&lines[0]) && is_alone_line(&lines[0]) && are_quiet(lines_from(lines, 1)))
}

/// How many lines stand before the first that begins or ends a document.
fn text_len(lines: &[Line<'_>]) -> usize
    ensures within { result ≤ length lines.now }
    ensures front { take result lines.now ≡ while is_plain_line lines.now }
    ensures rest { drop result lines.now ≡ past is_plain_line lines.now }
{
    let mut at = 0;
    while at < lines.len() && is_text_line(&lines[at]) {
        at += 1;
    }
    at
}

/// The top node.
fn top_of(alloc: Global, lines: &[Line<'_>]) -> Result<Tree, YamlFault>
    requires { All IsSmall lines.now }
    ensures { Gives (λ (t : Tree). t) result (top lines.now) }
{
    if lines.is_empty() {
        return Err(YamlFault::Grammar);
    }
    let first = &lines[0];
    let rest = lines_from(lines, 1);
    let text = without_blanks(first.slice());
    if does_begin_flow(text) {
        let Some(all) = Characters::over(0, text, rest) else {
            return Err(YamlFault::OutOfMemory);
        };
        return flow_text_of(alloc, 64, &all);
    }
    block_of(alloc, 64, first, rest)
}

/// The document after its first line `---`.
fn framed_of(alloc: Global, lines: &[Line<'_>]) -> Result<Tree, YamlFault>
    requires { All IsSmall lines.now }
    ensures { Gives (λ (t : Tree). t) result (framed lines.now) }
{
    let len = text_len(lines);
    if !is_closing_text(lines_from(lines, len)) {
        return Err(YamlFault::Grammar);
    }
    let inside = lines_to(lines, len);
    top_of(alloc, lines_from(inside, quiet_len(inside)))
}

/// The tree of a text, without a mark in front.
#[tactic(auto, unfolding(crate::specs::Document::document))]
fn document_of(alloc: Global, text: &str) -> Result<Tree, YamlFault>
    ensures { Gives (λ (t : Tree). t) result (document (lines_in (chars text.now))) }
{
    let lines = read_lines(alloc, text)?;
    let all = lines.as_slice();
    framed_of(alloc, opened_lines(lines_from(all, quiet_len(all))))
}

/// The tree, where none of its maps has two equal keys.
fn without_repeats(alloc: Global, tree: Tree) -> Result<Tree, YamlFault>
    ensures { IsReading true (Some tree) result }
{
    if does_repeat(alloc, &tree)? {
        return Err(YamlFault::Duplicate);
    }
    Ok(tree)
}

/// The tree that a text spells.
fn read_text(alloc: Global, text: &str) -> Result<Tree, YamlFault>
    ensures { IsReading (allowed (unmarked (chars text.now))) (tree_of text.now) result }
{
    let unmarked = without_mark(text);
    if !are_allowed(unmarked) {
        return Err(YamlFault::Bytes);
    }
    match document_of(alloc, unmarked) {
        Ok(tree) => without_repeats(alloc, tree),
        Err(fault) => Err(fault),
    }
}

/// The tree that bytes spell: `Bytes` where they are no characters that may stand in a document, `Grammar` where they
/// spell no tree, `Duplicate` where they spell one and one of its maps has two equal keys.
///
/// Example: `canonical` in `crates/witval/src/canonical.rt`.
pub fn read(alloc: Global, bytes: &[u8]) -> Result<Tree, YamlFault>
    ensures answer { IsAnswer bytes.now result }
    // The same, of what the definitions compute.
    ensures computed { IsReading (is_allowed bytes.now) (tree_of bytes.now) result }
    // What is read may be written again.
    ensures collection { IfOk result IsCollection }
    ensures fits { IfOk result (λ t. Fits max_depth t) }
{
    match str::from_utf8(bytes) {
        Ok(text) => read_text(alloc, text),
        Err(_) => Err(YamlFault::Bytes),
    }
}

/// One text spells at most one tree.
pub fn one_tree()
    ensures { (bytes : List ℕ) (t u : Tree) → Spelled t bytes → Spelled u bytes → t ≡ u }
{}

/// The relation of named cases says what the definition computes.
pub fn spelled_is_computed()
    ensures { (bytes : List ℕ) (t : Tree) → Spelled t bytes ↔ ((is_allowed bytes ≡ true) × (tree_of bytes ≡ Some t)) }
{}
