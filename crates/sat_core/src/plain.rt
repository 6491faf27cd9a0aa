// The plain solver: decisions of the least open variable, units by scanning the clauses, conflicts, and a log of what
// is derived from them. It stands behind the search: what it answers is right without a check.
ghost use Rattle.std.specs.Prelude.{◌≡◌, ℕ, ◌+◌, ◌<◌, ◌≤◌, ◌^◌, [], ◌∷◌, ◌++◌, true, length, IfOk, OnOk, List, ℤ};
ghost use Rattle.std.specs.List.{Contains};
ghost use Rattle.clauses.specs.Clause.{IsClause};
ghost use Rattle.sat_newness.specs.Clauses.{clauses_of};
ghost use Rattle.sat_core.specs.Values.{IsState};
ghost use Rattle.sat_core.specs.Derived.{IsConflict};
ghost use Rattle.sat_core.specs.Found.{IsSearched};
ghost use Rattle.sat_core.specs.Answers.{AreValues, IsAnswer, HasLearned};

use crate::analyze::{analyze, backjump, last_but_one, marked};
use crate::propagate::propagate;
use crate::solver::Answer;
use crate::trail::{Trail, no_values};
use clauses::{Chain, Clause, Cnf, Refutation};
use std::alloc::Global;
use wv_base::{OutOfMemory, Seq};

/// Propagates and decides until a clause has false numbers alone, or every variable has a value.
pub fn search(
    given: &Seq<Clause>,
    chains: &Seq<Chain>,
    trail: &mut Trail,
) -> Result<Option<usize>, OutOfMemory>
    requires state { IsState (clauses_of given.now chains.now) trail.old.values.items trail.old.entries.items }
    requires size { length trail.old.values.items ≤ 2 ^ 32 }
    requires few { length given.now < 2 ^ 30 }
    requires few_more { length chains.now < 2 ^ 30 }
    ensures state { OnOk result
        (IsState (clauses_of given.now chains.now) trail.new.values.items trail.new.entries.items) }
    ensures size { length trail.new.values.items ≡ length trail.old.values.items }
    ensures found { IfOk result (λ r. IsSearched (clauses_of given.now chains.now) (length trail.new.values.items)
        trail.new.entries.items r) }
{
    loop {
        if let Some(conflict) = propagate(given, chains, trail)? {
            return Ok(Some(conflict));
        }
        match trail.pick_branch() {
            None => return Ok(None),
            Some(variable) => trail.assign(variable, false, None)?,
        }
    }
}

/// The values of all variables.
pub fn model(alloc: Global, trail: &Trail) -> Result<Seq<bool>, OutOfMemory>
    requires { 0 < length trail.now.values.items }
    ensures { IfOk result (λ r. AreValues trail.now.values.items r) }
{
    let mut values = Seq::new(alloc);
    for variable in 1..trail.values.len() {
        let value = matches!(trail.values[variable], Some(true));
        values.push(value)?;
    }
    Ok(values)
}

/// Derives a clause from a conflict, logs it and takes back values: whether the clause is empty.
pub fn learn(
    alloc: Global,
    given: &Seq<Clause>,
    chains: &mut Seq<Chain>,
    trail: &mut Trail,
    conflict: usize,
) -> Result<bool, OutOfMemory>
    requires state { IsState (clauses_of given.now chains.old) trail.old.values.items trail.old.entries.items }
    requires conflict { IsConflict (clauses_of given.now chains.old) trail.old.entries.items conflict }
    requires few { length given.now < 2 ^ 30 }
    requires few_more { length chains.old < 2 ^ 30 }
    ensures state { OnOk result
        (IsState (clauses_of given.now chains.new) trail.new.values.items trail.new.entries.items) }
    ensures size { length trail.new.values.items ≡ length trail.old.values.items }
    ensures learned { IfOk result (λ r. HasLearned given.now (length trail.old.values.items) chains.old chains.new r) }
{
    let derived = analyze(alloc, given, chains, trail, conflict)?;
    let numbers = marked(alloc, &derived.seen)?;
    let empty = numbers.len() == 0;
    let kept = backjump(trail, last_but_one(&numbers));
    trail.cancel_until(kept);
    chains.push(Chain {
        start: conflict as u32 + 1,
        steps: Seq::from_vec(derived.steps),
        gives: Clause::from_numbers(numbers),
    })?;
    Ok(empty)
}

// what the type says of each clause
fn are_clauses(given: &Seq<Clause>)
    ensures { (c : List ℤ) → Contains given.now c → IsClause c }
{
    for clause in given.as_slice() {
        let _ = clause.numbers();
    }
}

/// Decides whether values of the variables satisfy every clause, by deriving at most `budget` clauses.
pub fn solve_plainly(alloc: Global, cnf: &Cnf, budget: u64) -> Result<Answer, OutOfMemory>
    requires few { length cnf.now.clauses < 2 ^ 30 }
    requires some { 1 ≤ budget }
    requires bounded { budget ≤ 2 ^ 30 }
    ensures { IfOk result (λ r. IsAnswer cnf.now.variables cnf.now.clauses budget r) }
{
    are_clauses(&cnf.clauses);
    let mut trail = no_values(alloc, cnf.variables)?;
    let mut chains = Seq::new(alloc);
    for _ in 0..budget {
        match search(&cnf.clauses, &chains, &mut trail)? {
            None => {
                let values = model(alloc, &trail)?;
                return Ok(Answer::Model(values));
            }
            Some(conflict) => {
                if learn(alloc, &cnf.clauses, &mut chains, &mut trail, conflict)? {
                    return Ok(Answer::Refuted(Refutation { chains }));
                }
            }
        }
    }
    Ok(Answer::Spent(Refutation { chains }))
}
