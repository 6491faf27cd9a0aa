// Flow collections, from their tokens.
ghost use Rattle.std.specs.Prelude.{◌≡◌, ◌≤◌, ◌<◌, ◌+◌, ◌∷◌, [], length, drop, take, ◌^◌, List, Option, Some, None, IsTrue, false, ◌-◌};
ghost use Rattle.wv_yaml.specs.declared.tree.Tree.{Tree};
ghost use Rattle.wv_yaml.specs.declared.tree.Pair.{Pair};
ghost use Rattle.yaml_scalars.specs.declared.token.Token.{Token};
ghost use Rattle.yaml_lines.specs.Chunks.{collected};
ghost use Rattle.wv_yaml.specs.Flow.{is_comma, closes_list, closes_map, open_after, parts, entries_of, before_last, flow_pair, flow_value, flow, as_list, as_map, closer};
ghost use Rattle.yaml_scalars.specs.Gives.{Gives};

use crate::tree::{Pair, Tree};
use std::alloc::Global;
use wv_base::{Seq, Text};
use yaml_scalars::{Token, YamlFault};

fn is_comma_token(token: &Token) -> bool
    ensures { result ≡ is_comma token.now }
{
    matches!(token, Token::Comma)
}

fn open_behind(nesting: usize, token: &Token) -> usize
    requires { nesting + 1 < 2 ^ 64 }
    ensures value { result ≡ open_after nesting token.now }
    ensures few { result ≤ nesting + 1 }
{
    match token {
        Token::OpenList | Token::OpenMap => nesting + 1,
        Token::CloseList | Token::CloseMap => nesting.saturating_sub(1),
        Token::Comma | Token::Key(_) | Token::Word(_) => nesting,
    }
}

fn tokens_from(tokens: &[Token], at: usize) -> &[Token]
    requires { at ≤ length tokens.now }
    ensures { result.now ≡ drop at tokens.now }
{
    &tokens[at..]
}

fn tokens_to(tokens: &[Token], end: usize) -> &[Token]
    requires { end ≤ length tokens.now }
    ensures { result.now ≡ take end tokens.now }
{
    &tokens[..end]
}

/// How many tokens stand before the first comma outside inner collections.
fn part_len(tokens: &[Token]) -> usize
    ensures within { result ≤ length tokens.now }
    ensures front { take result tokens.now ≡ (parts 0 tokens.now).0 }
    ensures next { result < length tokens.now → (parts 0 tokens.now).1 ≡ (parts 0 (drop (result + 1) tokens.now)).0 ∷
        (parts 0 (drop (result + 1) tokens.now)).1 }
    ensures last { result ≡ length tokens.now → (parts 0 tokens.now).1 ≡ [] }
{
    let mut at = 0;
    let mut nesting = 0;
    while at < tokens.len() && !(is_comma_token(&tokens[at]) && nesting == 0) {
        nesting = open_behind(nesting, &tokens[at]);
        at += 1;
    }
    at
}

fn does_close(is_list: bool, token: &Token) -> bool
    ensures { result ≡ closer is_list token.now }
{
    match token {
        Token::CloseList => is_list,
        Token::CloseMap => !is_list,
        _ => false,
    }
}

/// Whether the last token closes.
fn is_closed(is_list: bool, tokens: &[Token]) -> bool
    ensures closed { IsTrue result → before_last (closer is_list) tokens.now
        ≡ Some (take (length tokens.now - 1) tokens.now) }
    ensures other { result ≡ false → before_last (closer is_list) tokens.now ≡ None }
    ensures some { IsTrue result → 0 < length tokens.now }
{
    !tokens.is_empty() && does_close(is_list, &tokens[tokens.len() - 1])
}

/// The tree that tokens are, with at most this many collections in one another.
#[cycle(flow)]
#[tactic(auto, unfolding(crate::specs::Flow::flow))]
pub fn flow_of(alloc: Global, depth: usize, tokens: &[Token]) -> Result<Tree, YamlFault>
    requires { depth < 2 ^ 32 }
    ensures { Gives (λ (t : Tree). t) result (flow depth tokens.now) }
{
    if tokens.is_empty() {
        return Err(YamlFault::Grammar);
    }
    let rest = tokens_from(tokens, 1);
    match &tokens[0] {
        Token::Word(text) => {
            if !rest.is_empty() {
                return Err(YamlFault::Grammar);
            }
            let text = Text::of(alloc, text.as_str())?;
            Ok(Tree::Text(text))
        }
        Token::OpenList => {
            if depth == 0 || !is_closed(true, rest) {
                return Err(YamlFault::Grammar);
            }
            flow_list(alloc, depth - 1, tokens_to(rest, rest.len() - 1))
        }
        Token::OpenMap => {
            if depth == 0 || !is_closed(false, rest) {
                return Err(YamlFault::Grammar);
            }
            flow_map(alloc, depth - 1, tokens_to(rest, rest.len() - 1))
        }
        _ => Err(YamlFault::Grammar),
    }
}

/// The list between its brackets.
#[cycle(flow)]
fn flow_list(alloc: Global, depth: usize, inner: &[Token]) -> Result<Tree, YamlFault>
    requires { depth < 2 ^ 32 }
    ensures { Gives (λ (t : Tree). t) result (as_list (collected (flow depth) (entries_of inner.now))) }
{
    let mut items = Seq::new(alloc);
    let mut left = inner;
    while !left.is_empty() {
        let len = part_len(left);
        let item = flow_of(alloc, depth, tokens_to(left, len))?;
        items.push(item)?;
        if len == left.len() {
            return Ok(Tree::List(items));
        }
        left = tokens_from(left, len + 1);
    }
    Ok(Tree::List(items))
}

/// The map between its braces.
#[cycle(flow)]
fn flow_map(alloc: Global, depth: usize, inner: &[Token]) -> Result<Tree, YamlFault>
    requires { depth < 2 ^ 32 }
    ensures { Gives (λ (t : Tree). t) result (as_map (collected (flow_pair (flow depth)) (entries_of inner.now))) }
{
    let mut pairs = Seq::new(alloc);
    let mut left = inner;
    while !left.is_empty() {
        let len = part_len(left);
        let pair = flow_pair_of(alloc, depth, tokens_to(left, len))?;
        pairs.push(pair)?;
        if len == left.len() {
            return Ok(Tree::Map(pairs));
        }
        left = tokens_from(left, len + 1);
    }
    Ok(Tree::Map(pairs))
}

#[cycle(flow)]
fn flow_pair_of(alloc: Global, depth: usize, tokens: &[Token]) -> Result<Pair, YamlFault>
    requires { depth < 2 ^ 32 }
    ensures { Gives (λ (p : Pair). p) result (flow_pair (flow depth) tokens.now) }
{
    if tokens.is_empty() {
        return Err(YamlFault::Grammar);
    }
    let Token::Key(name) = &tokens[0] else {
        return Err(YamlFault::Grammar);
    };
    let value = flow_of(alloc, depth, tokens_from(tokens, 1))?;
    let key = Text::of(alloc, name.as_str())?;
    Ok(Pair { key, value })
}
