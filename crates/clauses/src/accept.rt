// The checker of logs.
ghost use Rattle.std.specs.Prelude.{◌≡◌, ◌<◌, ◌≤◌, ◌++◌, ◌↔◌, ℕ, ℤ, Bool, false, List, take, length, IfOk, IsTrue, MatchOption};
ghost use Rattle.std.specs.List.{All};
ghost use Rattle.clauses.specs.Assignment.{all_hold};
ghost use Rattle.clauses.specs.Clause.{IsClause};
ghost use Rattle.clauses.specs.Log.{IsClauseAt, IsAccepted, Refutes, given};
ghost use Rattle.clauses.specs.Table.{Fits, IsClear, Resolves, Matches, ChainJudged};

use crate::table::{add, are_apart, are_blank, blank, erase, holds_all, holds_opposite};
use crate::{Chain, Clause, Cnf, Refutation};
use std::alloc::Global;
use wv_base::OutOfMemory;

// the clause with a number, of the given ones and those that the first chains give
fn clause_at<'a>(
    cnf: &'a Cnf,
    log: &'a Refutation,
    chains: usize,
    number: u32,
) -> Option<&'a Clause>
    requires { chains ≤ length log.now.chains }
    ensures { let clauses = cnf.now.clauses ++ given (take chains log.now.chains) in MatchOption result
        ((c : List ℤ) → IsClauseAt clauses number c → ⊥) (λ c. IsClauseAt clauses number c.now) }
{
    if number == 0 {
        return None;
    }
    let at = number as usize - 1;
    if at < cnf.clauses.len() {
        return cnf.clauses.get(at);
    }
    let behind = at - cnf.clauses.len();
    if behind >= chains {
        return None;
    }
    match log.chains.get(behind) {
        Some(chain) => Some(&chain.gives),
        None => None,
    }
}

// resolves the clause in the table with another one, where the two clash on exactly this variable
fn resolve(
    cells: &mut [i32],
    touched: &mut Vec<u32>,
    clause: &[i32],
    on: u32,
) -> Result<bool, OutOfMemory>
    requires fine { IsClause clause.now }
    requires within { All (Fits cells.old) clause.now }
    ensures { IfOk result (λ r. Resolves cells.old touched.old.items clause.now on r cells.new touched.new.items) }
{
    let place = on as usize;
    if place >= cells.len() || cells[place] == 0 {
        return Ok(false);
    }
    if !holds_opposite(clause, cells[place]) {
        return Ok(false);
    }
    cells[place] = 0;
    if !are_apart(cells, clause) {
        return Ok(false);
    }
    add(cells, touched, clause)?;
    cells[place] = 0;
    Ok(true)
}

// whether the clause in the table is this one; if so, the table is clear again
fn matches_clause(cells: &mut [i32], touched: &[u32], clause: &[i32]) -> bool
    requires { IsClause clause.now }
    ensures { Matches cells.old touched.now clause.now result cells.new }
{
    if !holds_all(cells, clause) {
        return false;
    }
    erase(cells, clause);
    are_blank(cells, touched)
}

// whether a chain is right over the clauses and what the chains before it give; if so, the table is clear again
fn is_right(
    alloc: Global,
    cells: &mut [i32],
    cnf: &Cnf,
    log: &Refutation,
    at: usize,
    chain: &Chain,
) -> Result<bool, OutOfMemory>
    requires before { at ≤ length log.now.chains }
    requires clear { IsClear cells.old }
    requires within { All (All (Fits cells.old)) (cnf.now.clauses ++ given (take at log.now.chains)) }
    ensures { IfOk result (λ r. ChainJudged cells.old (cnf.now.clauses ++ given (take at log.now.chains)) chain.now r
        cells.new) }
{
    let mut touched = Vec::new(alloc);
    let Some(first) = clause_at(cnf, log, at, chain.start) else {
        return Ok(false);
    };
    add(cells, &mut touched, first.numbers())?;
    for step in chain.steps.as_slice() {
        let Some(clause) = clause_at(cnf, log, at, step.with) else {
            return Ok(false);
        };
        let resolved = resolve(cells, &mut touched, clause.numbers(), step.on)?;
        if !resolved {
            return Ok(false);
        }
    }
    let same = matches_clause(cells, touched.as_slice(), chain.gives.numbers());
    Ok(same)
}

/// Whether each chain of a log resolves earlier clauses, on exactly one clashing variable a step, to the clause that it
/// gives.
pub fn accepts_log(alloc: Global, cnf: &Cnf, log: &Refutation) -> Result<bool, OutOfMemory>
    ensures { IfOk result (λ r. IsTrue r ↔ IsAccepted cnf.now.clauses log.now.chains) }
{
    let mut cells = blank(alloc, cnf.variables as usize + 1)?;
    let chains = log.chains.as_slice();
    for at in 0..chains.len() {
        if !is_right(alloc, &mut cells, cnf, log, at, &chains[at])? {
            return Ok(false);
        }
    }
    Ok(true)
}

/// Whether a log is accepted, and its last clause is empty: then no assignment satisfies the clauses.
pub fn accepts(alloc: Global, cnf: &Cnf, log: &Refutation) -> Result<bool, OutOfMemory>
    ensures exact { IfOk result (λ r. IsTrue r ↔ Refutes cnf.now.clauses log.now.chains) }
    ensures unsatisfiable { IfOk result (λ r. IsTrue r → (v : ℕ → Bool) → all_hold v cnf.now.clauses ≡ false) }
{
    let chains = log.chains.as_slice();
    if chains.is_empty() || chains[chains.len() - 1].gives.numbers().len() > 0 {
        return Ok(false);
    }
    accepts_log(alloc, cnf, log)
}
