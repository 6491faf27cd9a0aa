// Which clauses a table settles, so that none is a unit. Of each clause two numbers are kept that settled it last:
// mostly they still do, and its other numbers aren't looked at.
ghost use Rattle.std.specs.Prelude.{◌≡◌, ◌+◌, ◌≤◌, ◌++◌, [], ◌∷◌, replicate, length, IsTrue, IfOk, IfSome};
ghost use Rattle.sat_newness.specs.Clauses.{clauses_of};
ghost use Rattle.sat_newness.specs.Pairs.{ArePairs, Settles, IsFound, AreSettledTo};

use crate::database::clause_at;
use crate::table::{at, code};
use clauses::{Chain, Clause};
use std::alloc::Global;
use wv_base::{OutOfMemory, Seq};

/// The codes of two numbers of a clause, or two equal codes.
#[derive(Clone, Copy)]
pub struct Pair {
    pub one: u32,
    pub other: u32,
}

/// No numbers.
pub const NO_PAIR: Pair = Pair { one: 0, other: 0 };

/// So many pairs of no numbers.
pub fn no_pairs(alloc: Global, many: usize) -> Result<Vec<Pair>, OutOfMemory>
    ensures { IfOk result (λ r. r.items ≡ replicate many (record { one = 0; other = 0 })) }
{
    let mut pairs = Vec::new(alloc);
    for _ in 0..many {
        pairs.push(NO_PAIR)?;
    }
    Ok(pairs)
}

// whether two numbers weigh enough
#[inline(always)]
fn settles(table: &[u8], pair: Pair) -> bool
    ensures { IsTrue result → Settles table.now pair }
{
    pair.one != pair.other && at(table, pair.one) as u32 + at(table, pair.other) as u32 >= 2
}

// two numbers of a clause that settle it, a true one with whatever other; two equal codes where it has no other
fn find_pair(table: &[u8], clause: &Clause) -> Option<Pair>
    ensures { IfSome result (λ p. IsFound table.now clause.now p) }
{
    let mut open = None;
    for number in clause.numbers() {
        let other = code(*number);
        match open {
            None => open = Some(other),
            Some(one) => {
                let pair = Pair { one, other };
                if settles(table, pair) {
                    return Some(pair);
                }
                if at(table, other) > at(table, one) {
                    open = Some(other);
                }
            }
        }
    }
    let Some(one) = open else {
        return None;
    };
    if at(table, one) >= 2 {
        return Some(Pair { one, other: one });
    }
    None
}

/// Whether the first clauses, as many as there are pairs, are settled.
pub fn are_settled(
    table: &[u8],
    given: &Seq<Clause>,
    chains: &Seq<Chain>,
    pairs: &mut [Pair],
) -> bool
    requires few { length pairs.old ≤ length given.now + length chains.now }
    requires held { ArePairs (clauses_of given.now chains.now) pairs.old }
    ensures held { ArePairs (clauses_of given.now chains.now) pairs.new }
    ensures settled { IsTrue result → AreSettledTo table.now (clauses_of given.now chains.now) (length pairs.new) }
{
    for place in 0..pairs.len() {
        if !settles(table, pairs[place]) {
            match find_pair(table, clause_at(given, chains, place)) {
                Some(pair) => pairs[place] = pair,
                None => return false,
            }
        }
    }
    true
}
