// Logs that are spent.
ghost use Rattle.std.specs.Prelude.{◌≡◌, ◌≤◌, ◌^◌, ◌+◌, ◌-◌, ℕ, IsTrue, IfOk};
ghost use Rattle.clauses.specs.Spent.{IsSpent, Decides};
ghost use Rattle.sat_newness.specs.Kept.{IsKept};

use crate::newness::learn_new;
use crate::undecided::{few_variables, is_undecided};
use clauses::{Cnf, Refutation, accepts_log};
use sat_search::{Outcome, weights_of_first};
use std::alloc::Global;
use wv_base::OutOfMemory;

// whether no first variables decide the clauses that are too few for a budget
fn is_earned(alloc: Global, cnf: &Cnf, budget: u64) -> Result<bool, OutOfMemory>
    requires { budget ≤ 2 ^ 30 }
    ensures { IfOk result (λ r. IsTrue r → (k : ℕ) → Decides k cnf.now.variables cnf.now.clauses
        → budget ≤ 2 ^ (k + 1) - 2) }
{
    let Some(k) = few_variables(budget) else {
        return Ok(false);
    };
    let table = weights_of_first(alloc, cnf, k)?;
    let undecided = is_undecided(alloc, &table, cnf, k)?;
    Ok(undecided)
}

/// What a search that keeps all clauses comes to: a spent log, or something else of which nothing is known.
#[derive(Drop)]
pub enum Kept {
    Spent(Refutation),
    Other(Outcome),
}

/// Searches with all clauses kept until a budget is spent, and shows that it is.
pub fn find_spent(alloc: Global, cnf: &Cnf, budget: u64) -> Result<Kept, OutOfMemory>
    requires { budget ≤ 2 ^ 30 }
    ensures { IfOk result (IsKept cnf.now.variables cnf.now.clauses budget) }
{
    match learn_new(alloc, cnf, budget)? {
        Kept::Other(outcome) => Ok(Kept::Other(outcome)),
        Kept::Spent(log) => {
            if !is_earned(alloc, cnf, budget)? {
                return Ok(Kept::Other(Outcome::Nothing));
            }
            if !accepts_log(alloc, cnf, &log)? {
                return Ok(Kept::Other(Outcome::Nothing));
            }
            Ok(Kept::Spent(log))
        }
    }
}
