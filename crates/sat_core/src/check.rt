// What is known of an answer of the search: these tests are all that the promise of `solve` rests on.
ghost use Rattle.std.specs.Prelude.{◌≡◌, true, IsTrue, IfOk};
ghost use Rattle.clauses.specs.Assignment.{number_holds, clause_holds};
ghost use Rattle.clauses.specs.Clause.{IsNumber};
ghost use Rattle.sat_core.specs.Derived.{AreOnce};
ghost use Rattle.sat_core.specs.Answers.{value_at, IsModel, IsRefuted, AreAllOnce};

use clauses::{Chain, Clause, Cnf, Refutation, Resolve, accepts};
use sat_search::filled;
use std::alloc::Global;
use wv_base::OutOfMemory;

// whether the values make a number true
fn is_true(values: &[bool], number: i32) -> bool
    requires { IsNumber number }
    ensures { IsTrue result → number_holds (value_at values.now) number ≡ true }
{
    let place = number.unsigned_abs() as usize - 1;
    if place >= values.len() {
        return false;
    }
    values[place] == (number > 0)
}

// whether the values make a number of a clause true
fn satisfies(values: &[bool], clause: &Clause) -> bool
    ensures { IsTrue result → clause_holds (value_at values.now) clause.now ≡ true }
{
    for number in clause.numbers() {
        if is_true(values, *number) {
            return true;
        }
    }
    false
}

/// Whether values are there for all variables, and satisfy every clause.
pub fn is_model(cnf: &Cnf, values: &[bool]) -> bool
    ensures { IsTrue result → IsModel cnf.now.variables cnf.now.clauses values.now }
{
    if values.len() != cnf.variables as usize {
        return false;
    }
    for clause in cnf.clauses.as_slice() {
        if !satisfies(values, clause) {
            return false;
        }
    }
    true
}

// whether no two steps resolve on one variable: each variable bears the stamp of the chain that resolved on it last
fn is_once(stamps: &mut [u32], stamp: u32, steps: &[Resolve]) -> bool
    ensures { IsTrue result → AreOnce steps.now }
{
    for step in steps {
        let on = step.on as usize;
        if on >= stamps.len() || stamps[on] == stamp {
            return false;
        }
        stamps[on] = stamp;
    }
    true
}

// whether no chain resolves on a variable twice
fn are_once(alloc: Global, variables: u32, chains: &[Chain]) -> Result<bool, OutOfMemory>
    ensures { IfOk result (λ r. IsTrue r → AreAllOnce chains.now) }
{
    let mut stamps = filled(alloc, variables as usize + 1, 0)?;
    let mut stamp = 0u32;
    for chain in chains {
        stamp = stamp.wrapping_add(1);
        if !is_once(&mut stamps, stamp, chain.steps.as_slice()) {
            return Ok(false);
        }
    }
    Ok(true)
}

/// Whether a log is an accepted refutation of at most `budget` chains, none of which resolves on a variable twice.
pub fn is_refutation(
    alloc: Global,
    cnf: &Cnf,
    log: &Refutation,
    budget: u64,
) -> Result<bool, OutOfMemory>
    ensures { IfOk result (λ r. IsTrue r → IsRefuted cnf.now.clauses budget log.now.chains) }
{
    if log.chains.len() as u64 > budget {
        return Ok(false);
    }
    if !are_once(alloc, cnf.variables, log.chains.as_slice())? {
        return Ok(false);
    }
    accepts(alloc, cnf, log)
}
