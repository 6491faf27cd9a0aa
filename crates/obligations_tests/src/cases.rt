// A program's text with the invariants that are claimed of it, and its obligations as a net.
ghost use Rattle.std.specs.Prelude.{IfSome};
ghost use Rattle.std.specs.List.{All};
ghost use Rattle.c_core.specs.View.{program_view};
ghost use Rattle.c_meaning.specs.Placing.{IsInvariant, placed_view};

use c_check::check;
use c_core::{DataModel, Program, Property};
use c_meaning::PlacedInvariant;
use c_parser::{Source, parse};
use c_tokens::tokens;
use std::alloc::Global;
use sym_duties::Obligations;
use sym_eval::obligations;
use way_invariants::bind_correctness;
use wv_base::{OutOfMemory, Seq, Text};
use wv_schema::{Content, Entry, Invariant, InvariantKind, Location, Metadata, Witness};

const MAX_LENGTH: usize = 100000;

/// What an invariant says, leftmost on a line.
pub type Claim = (InvariantKind, u32, &'static str);

/// A program, named for messages.
#[derive(Clone, Copy)]
pub struct Case {
    pub name: &'static str,
    pub source: &'static str,
    pub claims: &'static [Claim],
}

/// A program with its invariants, and its obligations.
#[derive(Drop)]
pub struct Judged {
    pub program: Program,
    pub invariants: Seq<PlacedInvariant>,
    pub all: Obligations,
}

/// What a text spells, if it is one of tokens.
fn parsed(alloc: Global, text: &[u8]) -> Option<Source> {
    if text.len() > MAX_LENGTH {
        return None;
    }
    let Ok(found) = tokens(alloc, text) else {
        return None;
    };
    parse(alloc, &found).ok()
}

/// The program of a text that isn't refused.
fn program(alloc: Global, source: &str, property: Property, model: DataModel) -> Option<Program> {
    let source = parsed(alloc, source.as_bytes())?;
    check(alloc, &source, model, property).ok()
}

fn metadata(alloc: Global) -> Metadata {
    Metadata {
        format_version: Text::new(alloc),
        uuid: Text::new(alloc),
        creation_time: Text::new(alloc),
        producer_name: Text::new(alloc),
        producer_version: Text::new(alloc),
        input_files: Seq::new(alloc),
        input_hashes: Seq::new(alloc),
        specification: Text::new(alloc),
        data_model: Text::new(alloc),
        language: Text::new(alloc),
    }
}

fn invariant(alloc: Global, claim: &Claim) -> Result<Invariant, OutOfMemory> {
    let location = Location {
        file_name: None,
        line: claim.1,
        column: None,
        function: None,
    };
    Ok(Invariant {
        kind: claim.0,
        location,
        value: Text::of(alloc, claim.2)?,
        format: None,
    })
}

fn witness(alloc: Global, claims: &[Claim]) -> Result<Witness, OutOfMemory> {
    let mut list = Seq::new(alloc);
    for claim in claims {
        list.push(invariant(alloc, claim)?)?;
    }
    let mut entries = Seq::new(alloc);
    entries.push(Entry {
        metadata: metadata(alloc),
        content: Content::Invariants(list),
    })?;
    Ok(Witness { entries })
}

fn bound(alloc: Global, program: &Program, claims: &[Claim]) -> Option<Seq<PlacedInvariant>>
    ensures { IfSome result (λ placed. All (IsInvariant (program_view program.now)) (placed_view placed)) }
{
    let Ok(witness) = witness(alloc, claims) else {
        return None;
    };
    bind_correctness(alloc, &witness, program).ok()
}

/// The obligations of a program under claims, of which neither is refused.
pub fn evaluate(
    alloc: Global,
    source: &str,
    claims: &[Claim],
    property: Property,
    model: DataModel,
) -> Option<Judged> {
    let program = program(alloc, source, property, model)?;
    let invariants = bound(alloc, &program, claims)?;
    let Ok(all) = obligations(alloc, &program, &invariants) else {
        return None;
    };
    Some(Judged {
        program,
        invariants,
        all,
    })
}
