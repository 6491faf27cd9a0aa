// A program's text with the segments of a witness about it, and all runs within a bound as a net.
ghost use Rattle.std.specs.Prelude.{IfSome};
ghost use Rattle.std.specs.List.{All};
ghost use Rattle.c_core.specs.View.{program_view};
ghost use Rattle.seek_passes.specs.Passing.{IsSegment};
ghost use Rattle.way_match.specs.View.{segments_view};

use crate::few::bind;
use crate::witnesses::{Part, witness};
use c_check::check;
use c_core::{DataModel, Program, Property};
use c_parser::{Source, parse};
use c_tokens::tokens;
use std::alloc::Global;
use way_match::Bound;
use wv_seek::{Reach, SeekFault, Sought, seek, unroll};

const MAX_LENGTH: usize = 100000;

const MOST_TURNS: u32 = 64;

const MOST_CONFLICTS: u64 = 1000000;

/// A program, named for messages, with its property and segments about it.
#[derive(Clone, Copy)]
pub struct Case {
    pub name: &'static str,
    pub property: Property,
    pub source: &'static str,
    pub parts: &'static [Part],
    /// How many lists of values are sought within 1, 2, 3 turns and calls and so on. All runs stay within the last.
    pub sought: &'static [u64],
}

/// A program with bound segments, and all of its runs within a bound.
#[derive(Drop)]
pub struct Unrolled {
    pub program: Program,
    pub bound: Bound,
    pub reach: Reach,
}

/// What a text spells, if it is one of tokens.
fn parsed(alloc: Global, text: &[u8]) -> Option<Source> {
    if text.len() > MAX_LENGTH {
        return None;
    }
    let Ok(found) = tokens(alloc, text) else {
        return None;
    };
    parse(alloc, &found).ok()
}

/// The program of a text that isn't refused.
fn program(alloc: Global, case: &Case) -> Option<Program> {
    let source = parsed(alloc, case.source.as_bytes())?;
    check(alloc, &source, DataModel::Ilp32, case.property).ok()
}

fn bound(alloc: Global, program: &Program, parts: &[Part]) -> Option<Bound>
    ensures { IfSome result (λ b. All (IsSegment (program_view program.now)) (segments_view b)) }
{
    let Ok(witness) = witness(alloc, parts) else {
        return None;
    };
    bind(alloc, &witness, program).ok()
}

/// All runs of a case within a bound, where nothing is refused.
pub fn unroll_case(alloc: Global, case: &Case, turns: u32) -> Option<Unrolled> {
    if turns > MOST_TURNS {
        return None;
    }
    let program = program(alloc, case)?;
    let bound = bound(alloc, &program, case.parts)?;
    let Ok(reach) = unroll(alloc, &program, &bound, turns) else {
        return None;
    };
    Some(Unrolled {
        program,
        bound,
        reach,
    })
}

/// What a search says of a case, where it isn't refused before.
pub fn searched(
    alloc: Global,
    case: &Case,
    turns: u32,
    conflicts: u64,
) -> Option<Result<Sought, SeekFault>> {
    if turns > MOST_TURNS || conflicts == 0 || conflicts > MOST_CONFLICTS {
        return None;
    }
    let program = program(alloc, case)?;
    let bound = bound(alloc, &program, case.parts)?;
    Some(seek(alloc, &program, &bound, turns, conflicts))
}
