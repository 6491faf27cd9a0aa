// The objects that the words of an expression mean, which are few of those that are visible.
ghost use Rattle.std.specs.Prelude.{◌≡◌, [], IfOk, OnOk};
ghost use Rattle.c_parser.specs.Tree.{exps};
ghost use Rattle.c_parser.specs.View.{expr_view, exprs_view, node_view};
ghost use Rattle.check_rules.specs.Codes.{word_of};
ghost use Rattle.way_constraint.specs.Words.{meant, with_number, with_word, with_words, with_words_in, with_words_of};

use crate::known::name_in;
use c_parser::{RawExpr, RawNode};
use std::alloc::Global;
use way_names::NamesAt;
use wv_base::OutOfMemory;

fn push_number(few: &mut Vec<u32>, number: Option<u32>) -> Result<(), OutOfMemory>
    ensures { OnOk result (few.new.items ≡ with_number number few.old.items) }
{
    if let Some(number) = number {
        few.push(number)?;
    }
    Ok(())
}

// What the word means that a node uses itself.
fn push_word(place: &NamesAt, few: &mut Vec<u32>, node: &RawNode) -> Result<(), OutOfMemory>
    ensures { OnOk result (few.new.items ≡ with_word (meant place.now) (word_of (node_view node.now)) few.old.items) }
{
    match name_in(node) {
        Some(name) => push_number(few, place.object(name))?,
        None => {}
    }
    Ok(())
}

// What all words of an expression mean.
#[cycle(words)]
fn push_words(place: &NamesAt, few: &mut Vec<u32>, e: &RawExpr) -> Result<(), OutOfMemory>
    ensures { OnOk result (few.new.items ≡ with_words (meant place.now) (expr_view e.now) few.old.items) }
{
    push_word(place, few, &e.node)?;
    push_parts(place, few, &e.node)?;
    Ok(())
}

// Those of the parts of a node.
#[cycle(words)]
fn push_parts(place: &NamesAt, few: &mut Vec<u32>, node: &RawNode) -> Result<(), OutOfMemory>
    ensures { OnOk result (few.new.items ≡ with_words_in (meant place.now) (node_view node.now) few.old.items) }
{
    match node {
        RawNode::Number { .. } => {}
        RawNode::Char(_) => {}
        RawNode::Var { .. } => {}
        RawNode::Index { at, .. } => push_all(place, few, at.as_slice())?,
        RawNode::Unary { of, .. } => push_words(place, few, of)?,
        RawNode::Cast { of, .. } => push_words(place, few, of)?,
        RawNode::Step { target, .. } => push_words(place, few, target)?,
        RawNode::Binary { left, right, .. } => {
            push_words(place, few, left)?;
            push_words(place, few, right)?;
        }
        RawNode::Logic { left, right, .. } => {
            push_words(place, few, left)?;
            push_words(place, few, right)?;
        }
        RawNode::Choose { test, yes, no, .. } => {
            push_words(place, few, test)?;
            push_words(place, few, yes)?;
            push_words(place, few, no)?;
        }
        RawNode::Comma { first, last } => {
            push_words(place, few, first)?;
            push_words(place, few, last)?;
        }
        RawNode::Assign { target, from, .. } => {
            push_words(place, few, target)?;
            push_words(place, few, from)?;
        }
        RawNode::Call { args, .. } => push_all(place, few, args.as_slice())?,
    }
    Ok(())
}

#[cycle(words)]
fn push_all(place: &NamesAt, few: &mut Vec<u32>, es: &[RawExpr]) -> Result<(), OutOfMemory>
    ensures { OnOk result (few.new.items ≡ with_words_of (meant place.now) (exps (exprs_view es.now)) few.old.items) }
{
    for e in es {
        push_words(place, few, e)?;
    }
    Ok(())
}

/// What the words of an expression mean, in their order.
pub fn objects_named(alloc: Global, place: &NamesAt, e: &RawExpr) -> Result<Vec<u32>, OutOfMemory>
    ensures { IfOk result (λ few. few.items ≡ with_words (meant place.now) (expr_view e.now) []) }
{
    let mut few = Vec::new(alloc);
    push_words(place, &mut few, e)?;
    Ok(few)
}
