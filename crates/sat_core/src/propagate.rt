// Unit propagation, by scanning the clauses until no unit is left.
ghost use Rattle.std.specs.Prelude.{◌≡◌, ℕ, ◌<◌, ◌≤◌, ◌^◌, [], ◌∷◌, length, IfOk, OnOk};
ghost use Rattle.sat_newness.specs.Clauses.{clauses_of};
ghost use Rattle.sat_core.specs.Trail.{AreNumbersOf};
ghost use Rattle.sat_core.specs.Values.{Told, IsState, open_variables};
ghost use Rattle.sat_core.specs.Found.{IsStateOf, IsScan, IsPropagated};

use crate::trail::Trail;
use clauses::{Chain, Clause};
use sat_newness::clause_at;
use wv_base::{OutOfMemory, Seq};

/// What the values make of a clause: all its numbers false, all but one open one, or neither.
#[derive(Clone, Copy)]
pub enum ClauseState {
    Conflict,
    Unit(i32),
    Other,
}

/// What a clause is under the trail.
pub fn look(trail: &Trail, clause: &Clause) -> ClauseState
    requires told { Told trail.now.values.items trail.now.entries.items }
    requires numbers { AreNumbersOf (length trail.now.values.items) (clause.now ∷ []) }
    ensures { IsStateOf trail.now.entries.items clause.now result }
{
    let mut open = None;
    for number in clause.numbers() {
        match trail.value(*number) {
            Some(true) => return ClauseState::Other,
            Some(false) => {}
            None => match open {
                None => open = Some(*number),
                Some(_) => return ClauseState::Other,
            },
        }
    }
    match open {
        None => ClauseState::Conflict,
        Some(number) => ClauseState::Unit(number),
    }
}

/// What a scan of all clauses met: a clause of false numbers at an index, units that it made true, or neither.
#[derive(Clone, Copy)]
pub enum Scanned {
    Conflict(usize),
    Units,
    Quiet,
}

/// Gives units their values until none is left, or a clause is false.
pub fn scan(
    given: &Seq<Clause>,
    chains: &Seq<Chain>,
    trail: &mut Trail,
) -> Result<Scanned, OutOfMemory>
    requires state { IsState (clauses_of given.now chains.now) trail.old.values.items trail.old.entries.items }
    requires few { length given.now < 2 ^ 30 }
    requires few_more { length chains.now < 2 ^ 30 }
    ensures state { OnOk result
        (IsState (clauses_of given.now chains.now) trail.new.values.items trail.new.entries.items) }
    ensures size { length trail.new.values.items ≡ length trail.old.values.items }
    ensures fewer { OnOk result (open_variables trail.new.values.items ≤ open_variables trail.old.values.items) }
    ensures found { IfOk result (λ r. IsScan (clauses_of given.now chains.now) trail.new.entries.items
        (open_variables trail.old.values.items) (open_variables trail.new.values.items) r) }
{
    let mut quiet = true;
    for at in 0..given.len() + chains.len() {
        match look(trail, clause_at(given, chains, at)) {
            ClauseState::Conflict => return Ok(Scanned::Conflict(at)),
            ClauseState::Unit(number) => {
                trail.assign(number.unsigned_abs(), number > 0, Some(at as u32))?;
                quiet = false;
            }
            ClauseState::Other => {}
        }
    }
    if quiet {
        Ok(Scanned::Quiet)
    } else {
        Ok(Scanned::Units)
    }
}

/// Makes units true until none is left, or until a clause has false numbers alone: its index.
pub fn propagate(
    given: &Seq<Clause>,
    chains: &Seq<Chain>,
    trail: &mut Trail,
) -> Result<Option<usize>, OutOfMemory>
    requires state { IsState (clauses_of given.now chains.now) trail.old.values.items trail.old.entries.items }
    requires few { length given.now < 2 ^ 30 }
    requires few_more { length chains.now < 2 ^ 30 }
    ensures state { OnOk result
        (IsState (clauses_of given.now chains.now) trail.new.values.items trail.new.entries.items) }
    ensures size { length trail.new.values.items ≡ length trail.old.values.items }
    ensures fewer { OnOk result (open_variables trail.new.values.items ≤ open_variables trail.old.values.items) }
    ensures found { IfOk result (λ r. IsPropagated (clauses_of given.now chains.now) trail.new.entries.items r) }
{
    loop {
        match scan(given, chains, trail)? {
            Scanned::Conflict(at) => return Ok(Some(at)),
            Scanned::Units => {}
            Scanned::Quiet => return Ok(None),
        }
    }
}
