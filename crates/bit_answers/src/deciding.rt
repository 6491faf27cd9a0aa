// Can a bit be true?
ghost use Rattle.std.specs.Prelude.{◌≤◌, ◌<◌, ◌^◌, IfOk, IsTrue, length};
ghost use Rattle.circuits.specs.Net.{IsIn};
ghost use Rattle.bit_answers.specs.Deciding.{IsDecidedAs, IsNeverTrue};

use circuits::{Bit, Net};
use clauses::{Refutation, SpentAt, cnf_of};
use sat_core::{Answer, solve};
use std::alloc::Global;
use wv_base::{OutOfMemory, Seq};

/// What is known of a bit: no inputs make it true, by this log; it is true where the inputs of the net have the first
/// of these values; or the budget was spent.
#[derive(Drop)]
pub enum Finding {
    NeverTrue(Refutation),
    TrueUnder(Seq<bool>),
    Spent(SpentAt),
}

/// Whether a bit is the opposite of the constant, which no inputs make true.
pub fn is_false(net: &Net, bit: Bit) -> bool
    ensures { IsTrue result → IsNeverTrue net.now bit }
{
    let _ = net.nodes();
    bit.node == 0 && bit.negated
}

/// Decides a bit by its clauses, with a budget of conflicts; the constant without any.
///
/// Example: `ask` in `crates/wv_weed/src/rounds.rt`.
pub fn decide_bit(
    alloc: Global,
    net: &Net,
    bit: Bit,
    conflicts: u64,
) -> Result<Finding, OutOfMemory>
    requires bit_in { IsIn net.now bit }
    requires room { length net.now < 2 ^ 28 }
    requires some { 1 ≤ conflicts }
    requires bounded { conflicts ≤ 1000000 }
    ensures { IfOk result (IsDecidedAs conflicts net.now bit) }
{
    let _ = net.nodes();
    if bit.node == 0 && !bit.negated {
        return Ok(Finding::TrueUnder(Seq::new(alloc)));
    }
    let clauses = cnf_of(alloc, net, bit)?;
    match solve(alloc, &clauses, conflicts)? {
        Answer::Model(values) => Ok(Finding::TrueUnder(values)),
        Answer::Refuted(log) => Ok(Finding::NeverTrue(log)),
        Answer::Spent(log) => Ok(Finding::Spent(SpentAt { clauses, log })),
    }
}
