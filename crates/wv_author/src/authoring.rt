// The segments of the run that takes given values.
ghost use Rattle.std.specs.Prelude.{◌≡◌, IfOk};
ghost use Rattle.c_core.specs.View.{program_view};
ghost use Rattle.c_meaning.specs.declared.run.Choices.TheVariants.{InTurn as TakenInTurn};
ghost use Rattle.wv_author.specs.Authored.{Authors, first_free, is_free_by};
ghost use Rattle.wv_author.specs.inside.Recording.{fixed_by, is_violated};

use crate::recording::Recorder;
use crate::segments::{push_returns, push_violating};
use c_core::{Program, Spot};
use c_meaning::{Choices, Draw, DrawKind, End, holds};
use flow_machine::run_machine;
use std::alloc::Global;
use way_places::Index;
use wv_base::{OutOfMemory, Seq, Text};
use wv_schema::Segment;

/// Why values give no witness.
#[derive(Clone, Copy, Debug, PartialEq, Eq)]
pub enum AuthorFault {
    /// The run ends so, and not in a violation.
    NotViolated(End),
    /// A cell that is declared there draws another value than 0, which no waypoint fixes.
    CellValue(Spot),
    OutOfMemory,
}

impl From<OutOfMemory> for AuthorFault {
    ghost use Rattle.std.specs.Prelude.{◌≡◌};
    ghost use Rattle.wv_author.specs.declared.authoring.AuthorFault.TheVariants.{OutOfMemory as NoMemory};

    ghost from_gives = { λ _ fault. fault ≡ NoMemory };

    fn from(_: OutOfMemory) -> Self {
        AuthorFault::OutOfMemory
    }
}

/// Values as choices that are taken in turn.
fn in_turn(alloc: Global, values: &[i128]) -> Result<Choices, OutOfMemory>
    ensures { IfOk result (λ choices. choices ≡ TakenInTurn values.now) }
{
    let mut copies = Seq::new(alloc);
    for value in values {
        copies.push(*value)?;
    }
    Ok(Choices::InTurn(copies))
}

/// Whether a cell drew another value than 0.
fn is_free(draw: &Draw) -> bool
    ensures { result ≡ is_free_by draw.now.from draw.now.value }
{
    match draw.from {
        DrawKind::Input => false,
        DrawKind::Cell => holds(draw.value),
        DrawKind::Havoc => holds(draw.value),
    }
}

/// Where the first cell drew another value than 0.
fn first_free(draws: &[Draw]) -> Option<Spot>
    ensures { result ≡ first_free draws.now }
{
    for draw in draws {
        if is_free(draw) {
            return Some(draw.spot);
        }
    }
    None
}

fn is_violated(end: End) -> bool
    ensures { result ≡ is_violated end }
{
    match end {
        End::Violated(_) => true,
        End::Ended => false,
        End::Undefined(_) => false,
        End::Spent => false,
        End::Deep => false,
    }
}

/// Why a run that ended so with these draws gives no witness, if it gives none.
fn fixes(end: End, draws: &[Draw]) -> Result<(), AuthorFault>
    ensures { result ≡ fixed_by (is_violated end) end (first_free draws.now) }
{
    if !is_violated(end) {
        return Err(AuthorFault::NotViolated(end));
    }
    match first_free(draws) {
        Some(spot) => Err(AuthorFault::CellValue(spot)),
        None => Ok(()),
    }
}

/// The segments of a violation witness that the run with these values in turn matches: one for each input that comes
/// back, then that of the violation.
pub fn author(
    alloc: Global,
    program: &Program,
    file: &Text,
    values: &Seq<i128>,
    steps: u64,
) -> Result<Seq<Segment>, AuthorFault>
    ensures { Authors (program_view program.now) file.now values.now steps result }
{
    let choices = in_turn(alloc, values.as_slice())?;
    let mut recorder = Recorder {
        places: Index::new(alloc, program)?,
        returned: Vec::new(alloc),
        statement: None,
    };
    let run = run_machine(alloc, program, &choices, steps, &mut recorder)?;
    fixes(run.end, run.draws.as_slice())?;
    let mut segments = Seq::new(alloc);
    push_returns(alloc, &mut segments, file, recorder.returned.as_slice())?;
    push_violating(alloc, &mut segments, file, recorder.statement)?;
    Ok(segments)
}
