// Clauses that are new to unit propagation. Of each clause a table shows it: the table makes the opposites of all its
// numbers but one true, doesn't make that one true, and leaves no unit among the earlier clauses. Where the tables come
// from doesn't matter: here they are the values of the search that learns the clauses.
ghost use Rattle.std.specs.Prelude.{◌≡◌, ◌+◌, ◌++◌, ◌∷◌, [], length, IsTrue, IfOk, IfSome};
ghost use Rattle.clauses.specs.Log.{given};
ghost use Rattle.clauses.specs.Spent.{IsNew, AreNew};
ghost use Rattle.sat_newness.specs.Clauses.{clauses_of};
ghost use Rattle.sat_newness.specs.Weights.{IsLast};
ghost use Rattle.sat_newness.specs.Pairs.{ArePairs};
ghost use Rattle.sat_newness.specs.Kept.{IsNewLog, IsLonger, IsAllNew};

use crate::pairs::{NO_PAIR, Pair, are_settled, no_pairs};
use crate::spent::Kept;
use crate::table::{at, code, is_table, opposite_code};
use clauses::{Chain, Clause, Cnf, Refutation};
use sat_search::{Learner, Outcome, Step};
use std::alloc::Global;
use wv_base::{OutOfMemory, Seq};

// the number of a clause that a table leaves when all others are false, if it isn't true
fn last_number(table: &[u8], clause: &Clause) -> Option<i32>
    ensures { IfSome result (λ x. IsLast table.now clause.now x) }
{
    let mut last = None;
    for number in clause.numbers() {
        if at(table, opposite_code(*number)) < 2 {
            match last {
                Some(_) => return None,
                None => {}
            }
            if at(table, code(*number)) >= 2 {
                return None;
            }
            last = Some(*number);
        }
    }
    last
}

// whether a table shows that a clause is new to the clauses and to what the chains give
fn is_new(
    table: &[u8],
    clauses: &Seq<Clause>,
    chains: &Seq<Chain>,
    gives: &Clause,
    pairs: &mut [Pair],
) -> bool
    requires many { length pairs.old ≡ length clauses.now + length chains.now }
    requires held { ArePairs (clauses_of clauses.now chains.now) pairs.old }
    ensures held { ArePairs (clauses_of clauses.now chains.now) pairs.new }
    ensures next { IsTrue result → AreNew clauses.now (given chains.now)
        → AreNew clauses.now (given chains.now ++ gives.now ∷ []) }
{
    if !is_table(table) {
        return false;
    }
    match last_number(table, gives) {
        None => false,
        Some(_) => are_settled(table, clauses, chains, pairs),
    }
}

// a chain more, where a table shows that its clause is new: whether it does
fn add_new(
    table: &[u8],
    clauses: &Seq<Clause>,
    chains: &mut Seq<Chain>,
    chain: Chain,
    pairs: &mut Vec<Pair>,
) -> Result<bool, OutOfMemory>
    requires { IsNewLog clauses.now chains.old pairs.old.items }
    ensures { IfOk result (λ r. IsTrue r → IsLonger clauses.now chains.old chains.new pairs.new.items) }
{
    if !is_new(table, clauses, chains, &chain.gives, pairs) {
        return Ok(false);
    }
    pairs.push(NO_PAIR)?;
    chains.push(chain)?;
    Ok(true)
}

/// Learns as many clauses as a budget says, each of which is new; or what the search comes to before.
pub fn learn_new(alloc: Global, cnf: &Cnf, budget: u64) -> Result<Kept, OutOfMemory>
    ensures { IfOk result (IsAllNew cnf.now.clauses budget) }
{
    let mut learner = Learner::new(alloc, cnf, true)?;
    let mut pairs = no_pairs(alloc, cnf.clauses.len())?;
    let mut chains = Seq::new(alloc);
    for _ in 0..budget {
        match learner.learn()? {
            Step::Learned(chain) => {
                if !add_new(
                    learner.weights(),
                    &cnf.clauses,
                    &mut chains,
                    chain,
                    &mut pairs,
                )? {
                    return Ok(Kept::Other(Outcome::Nothing));
                }
            }
            Step::Model(values) => return Ok(Kept::Other(Outcome::Model(values))),
            Step::Refuted(chain) => {
                chains.push(chain)?;
                return Ok(Kept::Other(Outcome::Refuted(Refutation { chains })));
            }
            Step::Nothing => return Ok(Kept::Other(Outcome::Nothing)),
        }
    }
    Ok(Kept::Spent(Refutation { chains }))
}
