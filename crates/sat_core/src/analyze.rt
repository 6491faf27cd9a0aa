// From a conflict back to the decisions that led to it, by resolution.
ghost use Rattle.std.specs.Prelude.{◌≡◌, ℕ, ◌<◌, ◌≤◌, ◌^◌, [], ◌∷◌, true, false, length, replicate, IfOk, OnOk, ◌+◌, ℤ, pos};
ghost use Rattle.std.specs.List.{Contains};
ghost use Rattle.clauses.specs.Clause.{Rises};
ghost use Rattle.clauses.specs.Tseitin.{flag_at};
ghost use Rattle.sat_newness.specs.Clauses.{clauses_of};
ghost use Rattle.sat_core.specs.Trail.{AreNumbersOf};
ghost use Rattle.sat_core.specs.Values.{IsState};
ghost use Rattle.sat_core.specs.Derived.{IsConflict, AreMarked, IsAnalyzed, AreFlagged, AreTwo, AreBelow};

use crate::trail::Trail;
use clauses::{Chain, Clause, Resolve};
use sat_newness::clause_at;
use std::alloc::Global;
use wv_base::{OutOfMemory, Seq};

/// The steps of a chain, and which variables the clause has that they derive.
#[derive(Drop)]
pub struct Derived {
    pub steps: Vec<Resolve>,
    pub seen: Vec<bool>,
}

/// No mark for each of these variables.
pub fn unseen(alloc: Global, variables: usize) -> Result<Vec<bool>, OutOfMemory>
    ensures { IfOk result (λ r. r.items ≡ replicate variables false) }
{
    let mut seen = Vec::new(alloc);
    for _ in 0..variables {
        seen.push(false)?;
    }
    Ok(seen)
}

/// Marks the variables of a clause.
pub fn mark(seen: &mut [bool], clause: &Clause)
    requires { AreNumbersOf (length seen.old) (clause.now ∷ []) }
    ensures { AreMarked seen.old clause.now seen.new }
{
    for number in clause.numbers() {
        seen[number.unsigned_abs() as usize] = true;
    }
}

/// Resolves with the reason of one value, where its variable is marked.
pub fn resolve_at(
    given: &Seq<Clause>,
    chains: &Seq<Chain>,
    trail: &Trail,
    at: usize,
    seen: &mut [bool],
    steps: &mut Vec<Resolve>,
) -> Result<(), OutOfMemory>
    requires state { IsState (clauses_of given.now chains.now) trail.now.values.items trail.now.entries.items }
    requires within { at < length trail.now.entries.items }
    requires sized { length seen.old ≡ length trail.now.values.items }
    requires few { length given.now < 2 ^ 30 }
    requires few_more { length chains.now < 2 ^ 30 }
    ensures { OnOk result ((start : ℕ)
        → IsAnalyzed (clauses_of given.now chains.now) (length trail.now.values.items) trail.now.entries.items start
        (at + 1) steps.old.items seen.old
        → IsAnalyzed (clauses_of given.now chains.now) (length trail.now.values.items) trail.now.entries.items start at
        steps.new.items seen.new) }
{
    let entry = trail.entries[at];
    if !seen[entry.variable as usize] {
        return Ok(());
    }
    match entry.reason {
        None => Ok(()),
        Some(reason) => {
            mark(seen, clause_at(given, chains, reason as usize));
            seen[entry.variable as usize] = false;
            steps.push(Resolve {
                with: reason + 1,
                on: entry.variable,
            })?;
            Ok(())
        }
    }
}

/// Resolves a clause of false numbers with the reasons, the latest value first, until only decisions are left.
pub fn analyze(
    alloc: Global,
    given: &Seq<Clause>,
    chains: &Seq<Chain>,
    trail: &Trail,
    conflict: usize,
) -> Result<Derived, OutOfMemory>
    requires state { IsState (clauses_of given.now chains.now) trail.now.values.items trail.now.entries.items }
    requires conflict { IsConflict (clauses_of given.now chains.now) trail.now.entries.items conflict }
    requires few { length given.now < 2 ^ 30 }
    requires few_more { length chains.now < 2 ^ 30 }
    ensures { IfOk result (λ r. IsAnalyzed (clauses_of given.now chains.now) (length trail.now.values.items)
        trail.now.entries.items conflict 0 r.steps.items r.seen.items) }
{
    let count = trail.entries.len();
    let mut seen = unseen(alloc, trail.values.len())?;
    let mut steps = Vec::new(alloc);
    mark(&mut seen, clause_at(given, chains, conflict));
    for back in 0..count {
        let at = count - 1 - back;
        resolve_at(given, chains, trail, at, &mut seen, &mut steps)?;
    }
    Ok(Derived { steps, seen })
}

/// The marked variables, as numbers in rising order.
pub fn marked(alloc: Global, seen: &[bool]) -> Result<Seq<i32>, OutOfMemory>
    requires { (v : ℕ) → flag_at seen.now v ≡ true → v < 2 ^ 31 }
    ensures { IfOk result (λ r. AreFlagged seen.now r (length seen.now)) }
{
    let mut numbers = Seq::new(alloc);
    for variable in 0..seen.len() {
        if seen[variable] {
            numbers.push(variable as i32)?;
        }
    }
    Ok(numbers)
}

/// The last but one of the numbers of a clause, or 0 where there is none.
pub fn last_but_one(numbers: &Seq<i32>) -> u32
    requires rising { Rises numbers.now }
    requires positive { (y : ℤ) → Contains numbers.now y → (v : ℕ) × (v < 2 ^ 31) × (y ≡ pos v) }
    ensures { 0 < result → AreTwo numbers.now result }
{
    let count = numbers.len();
    if count < 2 {
        0
    } else {
        numbers.as_slice()[count - 2].unsigned_abs()
    }
}

/// Where the first decision on a variable above this one stands.
pub fn backjump(trail: &Trail, above: u32) -> usize
    ensures { AreBelow trail.now.entries.items result above }
{
    for at in 0..trail.entries.len() {
        let entry = trail.entries[at];
        if entry.reason.is_none() && entry.variable > above {
            return at;
        }
    }
    trail.entries.len()
}
