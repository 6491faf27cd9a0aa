ghost use Rattle.std.specs.Prelude.{◌≡◌, List, ◌++◌, OnOk, length};
ghost use Rattle.std.specs.Option.{option_to_list};
ghost use Rattle.c_core.specs.declared.number.Spot.{Spot};
ghost use Rattle.c_parser.specs.Tree as t;
ghost use Rattle.c_parser.specs.Signs.{place};
ghost use Rattle.c_parser.specs.Sources.{IsSource, IsSyntax, max_height, max_brackets};
ghost use Rattle.c_parser.specs.Formed.{AreOrderly};
ghost use Rattle.c_parser.specs.ReadItems.{read_items};
ghost use Rattle.c_parser.specs.Parsing.{Answers, IsFound, IsRefused, Outcomes};
ghost use Rattle.c_parser.specs.declared.fault.ParseFault;

use crate::fault::{ParseFault, Unread};
use crate::item::{Item, Source};
use crate::items::item_at;
use crate::look::place_at;
use c_tokens::Token;
use std::alloc::Global;
use wv_base::{OutOfMemory, Seq};

/// This many brackets are open at one place at most.
const MAX_BRACKETS: usize = 200;

/// Statements and expressions nest at most this deep.
const MAX_HEIGHT: usize = 200;

/// The source that tokens spell (C11 6.9), or the first token of the first item that fits no form.
pub fn parse(alloc: Global, tokens: &Seq<Token>) -> Result<Source, ParseFault>
    requires { AreOrderly tokens.now }
    ensures found { Answers tokens.now result }
    ensures source { (xs : List t.Item) → IsSource tokens.now xs → IsFound result xs }
    ensures syntax { (p : Spot) → IsSyntax tokens.now p → IsRefused result p }
{
    source_at(alloc, tokens.as_slice())
}

/// Item by item; each takes a token at least.
fn source_at(alloc: Global, tokens: &[Token]) -> Result<Source, ParseFault>
    requires { AreOrderly tokens.now }
    ensures { Outcomes result (read_items max_height max_brackets (length tokens.now) tokens.now) }
{
    let mut items = Seq::new(alloc);
    let mut rest = tokens;
    let mut more = tokens.len();
    while !rest.is_empty() {
        if more == 0 {
            return Err(syntax_at(rest));
        }
        more -= 1;
        match item_at(alloc, rest, MAX_BRACKETS, MAX_HEIGHT) {
            Ok((item, end)) => {
                add(&mut items, item)?;
                rest = end;
            }
            Err(Unread::Unspelled) => return Err(syntax_at(rest)),
            Err(Unread::OutOfMemory) => return Err(ParseFault::OutOfMemory),
        }
    }
    Ok(Source { items })
}

/// Appends the item, if there is one.
fn add(items: &mut Seq<Item>, item: Option<Item>) -> Result<(), OutOfMemory>
    ensures { OnOk result (items.new ≡ items.old ++ option_to_list item) }
{
    match item {
        Some(item) => {
            items.push(item)?;
            Ok(())
        }
        None => Ok(()),
    }
}

fn syntax_at(rest: &[Token]) -> ParseFault
    ensures { result ≡ ParseFault.Syntax (place rest.now).line (place rest.now).column }
{
    let spot = place_at(rest);
    ParseFault::Syntax {
        line: spot.line,
        column: spot.column,
    }
}
