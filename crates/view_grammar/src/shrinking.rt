// What to shrink in a program that isn't judged.
use crate::sources::tokens_of;
use c_core::{Object, Program, Spot};
use c_tokens::{Punct, Token, TokenKind};
use std::alloc::Global;
use view_text::{File, Files, Messages, advice};
use wv_base::OutOfMemory;

/// The first token of a line, and how many products, quotients and remainders the line has.
#[derive(Clone, Copy)]
struct Load {
    spot: Spot,
    count: u32,
}

fn is_product(token: &Token) -> bool {
    match &token.kind {
        TokenKind::Punct(Punct::Star | Punct::Slash | Punct::Percent) => true,
        _ => false,
    }
}

/// The load of the line of a token, up to it, where the load up to the token before is known.
fn with_token(before: Load, token: &Token) -> Load {
    let here = if token.spot.line == before.spot.line {
        before
    } else {
        Load {
            spot: token.spot,
            count: 0,
        }
    };
    Load {
        spot: here.spot,
        count: here.count.saturating_add(u32::from(is_product(token))),
    }
}

/// The line with the most products, quotients and remainders.
fn heaviest_line(tokens: &[Token]) -> Load {
    let mut best = Load {
        spot: Spot { line: 1, column: 1 },
        count: 0,
    };
    let mut here = best;
    for token in tokens {
        here = with_token(here, token);
        if here.count > best.count {
            best = here;
        }
    }
    best
}

/// The largest array, where there is one.
fn largest(objects: &[Object]) -> Option<&Object> {
    let mut place = objects.len();
    let mut most = 1u32;
    for (at, object) in objects.iter().enumerate() {
        if object.cells > most {
            place = at;
            most = object.cells;
        }
    }
    objects.get(place)
}

fn note_line(alloc: Global, files: &Files<'_>, out: &mut Messages) -> Result<(), OutOfMemory> {
    let tokens = tokens_of(alloc, files.text(File::Program))?;
    let load = heaviest_line(tokens.as_slice());
    let count = load.count;
    if count == 0 {
        return Ok(());
    }
    let told = format!(in alloc; "no line has more products, quotients and remainders: {count}")?;
    out.note(File::Program, Some(load.spot), told)
}

fn note_array(alloc: Global, program: &Program, out: &mut Messages) -> Result<(), OutOfMemory> {
    let Some(object) = largest(program.objects.as_slice()) else {
        return Ok(());
    };
    let name = object.name.as_str();
    let cells = object.cells;
    let told = format!(in alloc; "`{name}` is the largest array: {cells} elements")?;
    out.note(File::Program, Some(object.spot), told)
}

/// A program whose obligations are too big as a circuit.
pub fn explain_weight(
    alloc: Global,
    files: &Files<'_>,
    program: &Program,
    out: &mut Messages,
) -> Result<(), OutOfMemory> {
    let rule = advice("weight");
    let told = format!(in alloc;
        "{rule}: fewer or shorter chains of calls, smaller arrays, fewer products and quotients, fewer invariants"
    )?;
    out.error("weight", File::Program, None, told)?;
    note_line(alloc, files, out)?;
    note_array(alloc, program, out)
}

/// The place of the body of a function.
fn body_of(program: &Program, name: &str) -> Option<Spot> {
    for function in program.functions.as_slice() {
        if function.name.as_str() == name {
            return Some(function.body.spot);
        }
    }
    None
}

/// A program in which `main` reaches a cycle of calls.
pub fn explain_recursion(
    alloc: Global,
    program: &Program,
    name: &str,
    out: &mut Messages,
) -> Result<(), OutOfMemory> {
    let rule = advice("recursion");
    let told = format!(in alloc; "`{name}`: {rule}")?;
    out.error("recursion", File::Program, body_of(program, name), told)
}
