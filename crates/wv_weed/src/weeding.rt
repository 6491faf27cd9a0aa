// Rounds, until none of the invariants that are left fails.
ghost use Rattle.std.specs.Prelude.{◌≤◌, IfOk, length};
ghost use Rattle.std.specs.List.{All};
ghost use Rattle.c_core.specs.View.{program_view};
ghost use Rattle.c_inductive.specs.Picking.{IsSelection};
ghost use Rattle.c_meaning.specs.Placing.{IsInvariant, placed_view};
ghost use Rattle.sym_duties.specs.Answers.{names_of};
ghost use Rattle.wv_weed.specs.Known.{AreNever};
ghost use Rattle.wv_weed.specs.Rounds.{AnswersWith, AreLeft, Rounds};
ghost use Rattle.wv_weed.specs.Ending.{IsEnd};
ghost use Rattle.wv_weed.specs.Weeded.{Weeds};

use crate::copies::copies_of;
use crate::known::{Known, carried, nothing};
use crate::numbers::{numbers_to, without};
use crate::rounds::{Open, Trial, judge};
use c_core::Program;
use c_inductive::{all_are_picked, parts_stay_invariants};
use c_meaning::PlacedInvariant;
use clauses::SpentAt;
use std::alloc::Global;
use sym_duties::{Obligations, SymFault};
use sym_eval::obligations;
use wv_base::Seq;

/// The greatest inductive set of the invariants, by their numbers from 1; or the numbers that were left when an
/// obligation, by its number from 1, stayed open, with its clauses and the log that spent the budget.
#[derive(Drop)]
pub enum Weeded {
    Kept(Seq<u32>),
    Spent {
        left: Seq<u32>,
        index: u32,
        at: SpentAt,
    },
}

// the obligations with the invariants that are left
fn obligations_with(
    alloc: Global,
    program: &Program,
    invariants: &Seq<PlacedInvariant>,
    left: &Seq<u32>,
) -> Result<Obligations, SymFault>
    requires invariants { All (IsInvariant (program_view program.now)) (placed_view invariants.now) }
    requires selection { IsSelection (length invariants.now) left.now }
    ensures { AnswersWith (program_view program.now) (names_of program.now.functions) (placed_view invariants.now)
        left.now result }
{
    parts_stay_invariants();
    let copies = copies_of(alloc, invariants, left)?;
    let all = obligations(alloc, program, &copies)?;
    Ok(all)
}

/// What a round leaves: a flag for each invariant, set where it is dropped; the first obligation that is open; and what
/// is known of the net.
#[derive(Drop)]
pub struct Turn {
    pub dropped: Vec<bool>,
    pub first: Option<Open>,
    pub known: Known,
}

// a round with the invariants that are left, and with what is known from the round before
fn round(
    alloc: Global,
    program: &Program,
    invariants: &Seq<PlacedInvariant>,
    left: &Seq<u32>,
    conflicts: u64,
    known: Known,
) -> Result<Turn, SymFault>
    requires invariants { All (IsInvariant (program_view program.now)) (placed_view invariants.now) }
    requires left { AreLeft (program_view program.now) (placed_view invariants.now) left.now }
    requires some { 1 ≤ conflicts }
    requires bounded { conflicts ≤ 1000000 }
    requires known { AreNever known.net known.never.items }
    ensures { Rounds conflicts (program_view program.now) (placed_view invariants.now) left.now
        (names_of program.now.functions) result }
{
    let all = obligations_with(alloc, program, invariants, left)?;
    let _ = all.net.nodes();
    let never = carried(alloc, known, &all.net)?;
    let trial = Trial {
        alloc,
        program,
        invariants,
        left,
        obligations: &all,
        conflicts,
    };
    let round = judge(&trial, never)?;
    Ok(Turn {
        dropped: round.dropped,
        first: round.first,
        known: Known {
            net: all.net,
            never: round.never,
        },
    })
}

// nothing is dropped any more
fn ended(left: Seq<u32>, first: Option<Open>) -> Weeded
    ensures { IsEnd left first result }
{
    match first {
        None => Weeded::Kept(left),
        Some(open) => Weeded::Spent {
            left,
            index: open.number,
            at: open.at,
        },
    }
}

/// Keeps of invariants the greatest inductive set. A round decides the obligations of the invariants that are left,
/// each with a budget of conflicts, and drops those of which one fails; after a round without such an obligation the
/// set is inductive, or one stays open. So n invariants take at most n + 1 rounds and n (n + 1) calls of the solver: in
/// a round at most two for each that is left. Mostly it takes far fewer: a round that drops an invariant may end early,
/// and what it has found to hold isn't asked again where the next net begins with the same nodes. For that the net of a
/// round stays until the next one is made: two are alive at a time.
pub fn weed(
    alloc: Global,
    program: &Program,
    invariants: &Seq<PlacedInvariant>,
    conflicts: u64,
) -> Result<Weeded, SymFault>
    requires invariants { All (IsInvariant (program_view program.now)) (placed_view invariants.now) }
    requires some { 1 ≤ conflicts }
    requires bounded { conflicts ≤ 1000000 }
    ensures { Weeds conflicts (program_view program.now) (names_of program.now.functions) (placed_view invariants.now)
        result }
{
    all_are_picked();
    let mut left = numbers_to(alloc, invariants.len())?;
    let mut known = nothing(alloc)?;
    loop {
        let round = round(alloc, program, invariants, &left, conflicts, known)?;
        let fewer = without(alloc, &left, &round.dropped)?;
        if fewer.len() == left.len() {
            return Ok(ended(left, round.first));
        }
        left = fewer;
        known = round.known;
    }
}
