// The solver: a search whose findings are checked, and where it finds nothing the plain solver.
ghost use Rattle.std.specs.Prelude.{◌≡◌, ◌≤◌, ◌<◌, ◌^◌, length, IfOk, IfSome};
ghost use Rattle.sat_core.specs.Answers.{IsAnswer};

use crate::check::{is_model, is_refutation};
use crate::plain::solve_plainly;
use clauses::{Cnf, Refutation};
use sat_newness::{Kept, find_spent};
use sat_search::{Outcome, find};
use std::alloc::Global;
use wv_base::{OutOfMemory, Seq};

/// Values of the variables in order that satisfy every clause; a log of resolution down to the empty clause; or a log
/// of as many chains as the budget allows.
#[derive(Drop)]
pub enum Answer {
    Model(Seq<bool>),
    Refuted(Refutation),
    Spent(Refutation),
}

// what a search finds, where it stands the check
fn checked(
    alloc: Global,
    cnf: &Cnf,
    outcome: Outcome,
    budget: u64,
) -> Result<Option<Answer>, OutOfMemory>
    ensures { IfOk result (λ r. IfSome r (λ a. IsAnswer cnf.now.variables cnf.now.clauses budget a)) }
{
    match outcome {
        Outcome::Model(values) => {
            if is_model(cnf, values.as_slice()) {
                return Ok(Some(Answer::Model(values)));
            }
        }
        Outcome::Refuted(log) => {
            if is_refutation(alloc, cnf, &log, budget)? {
                return Ok(Some(Answer::Refuted(log)));
            }
        }
        Outcome::Nothing => {}
    }
    Ok(None)
}

// what a search that keeps all clauses finds, where it stands the check
fn find_keeping(alloc: Global, cnf: &Cnf, budget: u64) -> Result<Option<Answer>, OutOfMemory>
    requires { budget ≤ 2 ^ 30 }
    ensures { IfOk result (λ r. IfSome r (λ a. IsAnswer cnf.now.variables cnf.now.clauses budget a)) }
{
    match find_spent(alloc, cnf, budget)? {
        Kept::Spent(log) => Ok(Some(Answer::Spent(log))),
        Kept::Other(outcome) => checked(alloc, cnf, outcome, budget),
    }
}

/// Decides whether values of the variables satisfy every clause, by deriving at most `budget` clauses.
///
/// Example: `print_answer` in `crates/sat_solver/src/report.rt`.
pub fn solve(alloc: Global, cnf: &Cnf, budget: u64) -> Result<Answer, OutOfMemory>
    requires few { length cnf.now.clauses < 2 ^ 30 }
    requires some { 1 ≤ budget }
    requires bounded { budget ≤ 2 ^ 30 }
    ensures { IfOk result (λ r. IsAnswer cnf.now.variables cnf.now.clauses budget r) }
{
    // a search that drops clauses decides more; one that keeps them all shows that each is new
    let outcome = find(alloc, cnf, budget)?;
    if let Some(answer) = checked(alloc, cnf, outcome, budget)? {
        return Ok(answer);
    }
    match find_keeping(alloc, cnf, budget)? {
        Some(answer) => Ok(answer),
        None => solve_plainly(alloc, cnf, budget),
    }
}
