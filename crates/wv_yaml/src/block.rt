// Block collections.
ghost use Rattle.std.specs.Prelude.{◌≡◌, ◌≤◌, ◌<◌, ◌+◌, ◌^◌, ◌∷◌, ◌&&◌, Bool, length, drop, take, true, false, Some, All, slice_index_or};
ghost use Rattle.std.specs.Str.{chars};
ghost use Rattle.yaml_lines.specs.Line.{Line as SourceLine, IsSmall};
ghost use Rattle.wv_yaml.specs.declared.tree.Tree.{Tree};
ghost use Rattle.wv_yaml.specs.declared.tree.Pair.{Pair};
ghost use Rattle.yaml_lines.specs.Chunks.{chunked};
ghost use Rattle.yaml_lines.specs.Marks.{dash, quiet, ahead};
ghost use Rattle.wv_yaml.specs.Inline.{key_bytes, inline};
ghost use Rattle.wv_yaml.specs.Block.{is_item, is_pair, all_spaces, opens, is_under, below, value_of, entry_of, item, pair, sequence, mapping, block};
ghost use Rattle.yaml_scalars.specs.Gives.{Gives};

use crate::inline::{inline_of, key_of};
use crate::tree::{Pair, Tree};
use std::alloc::Global;
use wv_base::{Seq, Text};
use yaml_lines::{
    Characters, Line, gap_len, is_dash, is_nothing, is_quiet, lines_from, lines_to, rest_of,
    slice_from, without_blanks,
};
use yaml_scalars::YamlFault;

/// How many quiet lines stand first.
pub fn quiet_len(lines: &[Line<'_>]) -> usize
    ensures within { result ≤ length lines.now }
    ensures rest { drop result lines.now ≡ ahead lines.now }
{
    let mut at = 0;
    while at < lines.len() && is_quiet(&lines[at].text()) {
        at += 1;
    }
    at
}

/// Whether this many characters are spaces.
fn are_spaces(text: &Characters<'_, '_>, count: usize) -> bool
    requires { count ≤ length text.now }
    ensures { result ≡ all_spaces (take count text.now) }
{
    let mut left = text.again();
    let mut more = count;
    while more > 0 {
        if left.first() != ' ' {
            return false;
        }
        left = left.rest();
        more -= 1;
    }
    true
}

fn is_item_line(indent: usize, line: &Line<'_>) -> bool
    ensures { result ≡ is_item indent line.now }
{
    line.indent() == indent && is_dash(&line.text())
}

fn is_pair_line(indent: usize, line: &Line<'_>) -> bool
    ensures { result ≡ is_pair indent line.now }
{
    line.indent() == indent && !is_dash(&line.text()) && !is_quiet(&line.text())
}

/// Whether the value of an indicator may stand on a line.
fn is_under_line(is_own: bool, indent: usize, line: &Line<'_>) -> bool
    ensures { result ≡ is_under is_own indent line.now }
{
    indent < line.indent() || (is_own && is_item_line(indent, line))
}

/// Whether a text begins a block collection.
fn does_open(alloc: Global, text: &Characters<'_, '_>) -> Result<bool, YamlFault>
    ensures { Gives (λ (b : Bool). b) result (Some (opens key_bytes text.now)) }
{
    if is_dash(text) {
        return Ok(true);
    }
    match key_of(alloc, text) {
        Ok(_) => Ok(true),
        Err(YamlFault::Grammar) => Ok(false),
        Err(fault) => Err(fault),
    }
}

/// Whether a text after `-` and a gap begins a block collection.
fn does_open_compact(
    alloc: Global,
    is_compact: bool,
    text: &Characters<'_, '_>,
) -> Result<bool, YamlFault>
    ensures { Gives (λ (b : Bool). b) result (Some (is_compact && opens key_bytes text.now)) }
{
    if !is_compact {
        return Ok(false);
    }
    does_open(alloc, text)
}

/// How many lines stand before the next entry of a sequence.
fn next_item(indent: usize, lines: &[Line<'_>]) -> usize
    ensures within { result ≤ length lines.now }
    ensures front { take result lines.now ≡ (chunked (is_item indent) lines.now).0 }
    ensures others { (chunked (is_item indent) (drop result lines.now)).1 ≡ (chunked (is_item indent) lines.now).1 }
    ensures next { result < length lines.now → (l : SourceLine) → is_item indent (slice_index_or lines.now result l)
        ≡ true }
{
    let mut at = 0;
    while at < lines.len() && !is_item_line(indent, &lines[at]) {
        at += 1;
    }
    at
}

/// How many lines stand before the next pair of a mapping.
fn next_pair(indent: usize, lines: &[Line<'_>]) -> usize
    ensures within { result ≤ length lines.now }
    ensures front { take result lines.now ≡ (chunked (is_pair indent) lines.now).0 }
    ensures others { (chunked (is_pair indent) (drop result lines.now)).1 ≡ (chunked (is_pair indent) lines.now).1 }
    ensures next { result < length lines.now → (l : SourceLine) → is_pair indent (slice_index_or lines.now result l)
        ≡ true }
{
    let mut at = 0;
    while at < lines.len() && !is_pair_line(indent, &lines[at]) {
        at += 1;
    }
    at
}

/// The block collection whose first line is this one, with at most this many collections in one another.
#[cycle(block)]
#[tactic(auto, unfolding(crate::specs::Block::block))]
pub fn block_of<'a, 'b>(
    alloc: Global,
    depth: usize,
    first: &'b Line<'a>,
    rest: &'b [Line<'a>],
) -> Result<Tree, YamlFault>
    requires depth { depth < 2 ^ 32 }
    requires column { IsSmall first.now }
    requires columns { All IsSmall rest.now }
    ensures { Gives (λ (t : Tree). t) result (block inline key_bytes depth (first.now ∷ rest.now)) }
{
    if depth == 0 {
        Err(YamlFault::Grammar)
    } else if is_dash(&first.text()) {
        sequence_of(alloc, depth - 1, first.indent(), first, rest)
    } else if is_quiet(&first.text()) {
        Err(YamlFault::Grammar)
    } else {
        mapping_of(alloc, depth - 1, first.indent(), first, rest)
    }
}

/// The sequence whose first entry begins with this line.
#[cycle(block)]
fn sequence_of<'a, 'b>(
    alloc: Global,
    depth: usize,
    indent: usize,
    first: &'b Line<'a>,
    rest: &'b [Line<'a>],
) -> Result<Tree, YamlFault>
    requires depth { depth < 2 ^ 32 }
    requires here { first.now.indent ≡ indent }
    requires dash { dash first.now.text ≡ true }
    requires column { IsSmall first.now }
    requires columns { All IsSmall rest.now }
    ensures { Gives (λ (t : Tree). t) result (sequence (inline depth) key_bytes (block inline key_bytes depth) first.now
        rest.now) }
{
    let mut items = Seq::new(alloc);
    let mut head = first;
    let mut left = rest;
    loop {
        let len = next_item(indent, left);
        let item = item_of(alloc, depth, indent, head, lines_to(left, len))?;
        items.push(item)?;
        if len == left.len() {
            return Ok(Tree::List(items));
        }
        head = &left[len];
        left = lines_from(left, len + 1);
    }
}

/// The mapping whose first pair begins with this line.
#[cycle(block)]
fn mapping_of<'a, 'b>(
    alloc: Global,
    depth: usize,
    indent: usize,
    first: &'b Line<'a>,
    rest: &'b [Line<'a>],
) -> Result<Tree, YamlFault>
    requires depth { depth < 2 ^ 32 }
    requires here { first.now.indent ≡ indent }
    requires no_dash { dash first.now.text ≡ false }
    requires loud { quiet first.now.text ≡ false }
    requires column { IsSmall first.now }
    requires columns { All IsSmall rest.now }
    ensures { Gives (λ (t : Tree). t) result (mapping (inline depth) key_bytes (block inline key_bytes depth) first.now
        rest.now) }
{
    let mut pairs = Seq::new(alloc);
    let mut head = first;
    let mut left = rest;
    loop {
        let len = next_pair(indent, left);
        let pair = pair_of_lines(alloc, depth, indent, head, lines_to(left, len))?;
        pairs.push(pair)?;
        if len == left.len() {
            return Ok(Tree::Map(pairs));
        }
        head = &left[len];
        left = lines_from(left, len + 1);
    }
}

/// The entry of a sequence that begins with this line.
#[cycle(block)]
fn item_of<'a, 'b>(
    alloc: Global,
    depth: usize,
    indent: usize,
    head: &'b Line<'a>,
    body: &'b [Line<'a>],
) -> Result<Tree, YamlFault>
    requires depth { depth < 2 ^ 32 }
    requires here { is_item indent head.now ≡ true }
    requires column { IsSmall head.now }
    requires columns { All IsSmall body.now }
    ensures { Gives (λ (t : Tree). t) result (item (inline depth) key_bytes (block inline key_bytes depth) indent
        (head.now, body.now)) }
{
    let after = rest_of(head.slice());
    let gap = gap_len(&Characters::of(after));
    let is_compact = are_spaces(&Characters::of(after), gap);
    let line = Line::new(indent + 1 + gap, without_blanks(after), head.is_ended());
    entry_value(alloc, depth, indent, is_compact, &line, &*body)
}

/// What follows `-`: the line is the rest of its line.
#[cycle(block)]
fn entry_value<'a, 'b>(
    alloc: Global,
    depth: usize,
    indent: usize,
    is_compact: bool,
    line: &'b Line<'a>,
    body: &'b [Line<'a>],
) -> Result<Tree, YamlFault>
    requires depth { depth < 2 ^ 32 }
    requires indent { indent < 2 ^ 63 }
    requires column { IsSmall line.now }
    requires columns { All IsSmall body.now }
    ensures { Gives (λ (t : Tree). t) result (entry_of (inline depth) key_bytes (block inline key_bytes depth) indent
        is_compact line.now body.now) }
{
    if is_nothing(&line.text()) {
        below_of(alloc, depth, false, indent, body)
    } else if does_open_compact(alloc, is_compact, &line.text())? {
        block_of(alloc, depth, line, body)
    } else {
        inline_of(alloc, depth, true, indent, line.slice(), body)
    }
}

/// The pair of a mapping that begins with this line.
#[cycle(block)]
fn pair_of_lines(
    alloc: Global,
    depth: usize,
    indent: usize,
    head: &Line<'_>,
    body: &[Line<'_>],
) -> Result<Pair, YamlFault>
    requires depth { depth < 2 ^ 32 }
    requires indent { indent < 2 ^ 63 }
    requires columns { All IsSmall body.now }
    ensures { Gives (λ (p : Pair). p) result (pair (inline depth) key_bytes (block inline key_bytes depth) indent
        (head.now, body.now)) }
{
    let (key, at) = key_of(alloc, &head.text())?;
    let text = without_blanks(slice_from(head.slice(), at));
    let value = pair_value(alloc, depth, indent, text, body)?;
    Ok(Pair { key, value })
}

/// What follows the `:` of a pair.
#[cycle(block)]
fn pair_value(
    alloc: Global,
    depth: usize,
    indent: usize,
    text: &str,
    body: &[Line<'_>],
) -> Result<Tree, YamlFault>
    requires depth { depth < 2 ^ 32 }
    requires indent { indent < 2 ^ 63 }
    requires columns { All IsSmall body.now }
    ensures { Gives (λ (t : Tree). t) result (value_of (inline depth) key_bytes (block inline key_bytes depth) indent
        (chars text.now) body.now) }
{
    if is_nothing(&Characters::of(text)) {
        below_of(alloc, depth, true, indent, body)
    } else {
        inline_of(alloc, depth, true, indent, text, body)
    }
}

/// What stands on the lines after an indicator.
#[cycle(block)]
fn below_of(
    alloc: Global,
    depth: usize,
    is_own: bool,
    indent: usize,
    body: &[Line<'_>],
) -> Result<Tree, YamlFault>
    requires depth { depth < 2 ^ 32 }
    requires indent { indent < 2 ^ 63 }
    requires columns { All IsSmall body.now }
    ensures { Gives (λ (t : Tree). t) result (below (inline depth) key_bytes (block inline key_bytes depth) is_own
        indent (ahead body.now)) }
{
    let lines = lines_from(body, quiet_len(body));
    if lines.is_empty() {
        return Ok(Tree::Text(Text::new(alloc)));
    }
    let first = &lines[0];
    if !is_under_line(is_own, indent, first) {
        return Err(YamlFault::Grammar);
    }
    let others = lines_from(lines, 1);
    if does_open(alloc, &first.text())? {
        block_of(alloc, depth, first, others)
    } else {
        inline_of(
            alloc,
            depth,
            false,
            indent,
            without_blanks(first.slice()),
            others,
        )
    }
}
