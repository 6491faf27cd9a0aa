// One bit, asked of a net that others which are never true make smaller.
ghost use Rattle.std.specs.Prelude.{◌≤◌, ◌<◌, ◌^◌, IfOk, OnOk, length};
ghost use Rattle.bit_answers.specs.Deciding.{IsNeverTrue};
ghost use Rattle.circuits.specs.Net.{IsIn};
ghost use Rattle.folded_nets.specs.Following.{Follows};
ghost use Rattle.judge_obligations.specs.Deciding.{IsAskedAs};

use bit_answers::{Finding, decide_bit, is_false};
use circuits::{Bit, Net};
use folded_nets::FoldedNet;
use std::alloc::Global;
use wv_base::{OutOfMemory, Seq};

/// What a folded net says of a bit: no inputs make it true; it is true under these; or nothing, as it wasn't asked or
/// the budget was spent.
#[derive(Drop)]
pub enum Asked {
    NeverTrue,
    TrueUnder(Seq<bool>),
    Open,
}

// a copy is asked for so many conflicts at most: what holds before may be what its answer follows from
const FEW: u64 = 50;

// where so many copies in a row had no answer, no more are made
const MISSES: u32 = 2;

// the part of the budget that a copy gets: a bit that isn't decided by it is asked in the net itself, with the whole
fn part_of(conflicts: u64) -> u64
    requires some { 1 ≤ conflicts }
    requires bounded { conflicts ≤ 1000000 }
    ensures some { 1 ≤ result }
    ensures bounded { result ≤ 1000000 }
{
    if conflicts < FEW { conflicts } else { FEW }
}

/// A folded net, and how many of its copies in a row had no answer.
#[derive(Drop)]
pub struct Folding {
    pub folded: FoldedNet,
    misses: u32,
}

impl Folding {
    /// Nothing is known yet.
    pub fn new(alloc: Global, net: &Net) -> Result<Folding, OutOfMemory>
        ensures { IfOk result (λ r. Follows net.now r.folded) }
    {
        let folded = FoldedNet::new(alloc, net)?;
        Ok(Folding { folded, misses: 0 })
    }

    /// Keeps in mind that no inputs make a bit true.
    pub fn keep(&mut self, net: &Net, bit: Bit) -> Result<(), OutOfMemory>
        requires bit_in { IsIn net.now bit }
        requires room { length net.now < 2 ^ 28 }
        requires never { IsNeverTrue net.now bit }
        requires follows { Follows net.now self.old.folded }
        ensures { OnOk result (Follows net.now self.new.folded) }
    {
        if MISSES <= self.misses {
            return Ok(());
        }
        self.folded.copy(net, bit)?;
        self.folded.note_never(net, bit)
    }

    // asks the copy of a bit
    fn ask_copy(
        &mut self,
        alloc: Global,
        net: &Net,
        bit: Bit,
        conflicts: u64,
    ) -> Result<Asked, OutOfMemory>
        requires bit_in { IsIn net.now bit }
        requires room { length net.now < 2 ^ 28 }
        requires some { 1 ≤ conflicts }
        requires bounded { conflicts ≤ 1000000 }
        requires follows { Follows net.now self.old.folded }
        ensures follows { OnOk result (Follows net.now self.new.folded) }
        ensures asked { IfOk result (IsAskedAs net.now bit) }
    {
        let copy = self.folded.copy(net, bit)?;
        if is_false(&self.folded.net, copy) {
            return Ok(Asked::NeverTrue);
        }
        match decide_bit(alloc, &self.folded.net, copy, part_of(conflicts))? {
            Finding::NeverTrue(_) => {
                self.folded.note_never(net, bit)?;
                Ok(Asked::NeverTrue)
            }
            Finding::TrueUnder(values) => Ok(Asked::TrueUnder(values)),
            Finding::Spent(_) => Ok(Asked::Open),
        }
    }

    /// Asks the folded net of a bit, and keeps in mind where no inputs make it true. It isn't asked while nothing is
    /// known that makes it smaller, nor after copies that had no answer.
    pub fn ask(
        &mut self,
        alloc: Global,
        net: &Net,
        bit: Bit,
        conflicts: u64,
    ) -> Result<Asked, OutOfMemory>
        requires bit_in { IsIn net.now bit }
        requires room { length net.now < 2 ^ 28 }
        requires some { 1 ≤ conflicts }
        requires bounded { conflicts ≤ 1000000 }
        requires follows { Follows net.now self.old.folded }
        ensures follows { OnOk result (Follows net.now self.new.folded) }
        ensures asked { IfOk result (IsAskedAs net.now bit) }
    {
        if self.folded.is_plain() || MISSES <= self.misses {
            return Ok(Asked::Open);
        }
        let asked = self.ask_copy(alloc, net, bit, conflicts)?;
        self.misses = match &asked {
            Asked::Open => self.misses.saturating_add(1),
            Asked::NeverTrue | Asked::TrueUnder(_) => 0,
        };
        Ok(asked)
    }
}
