// A net that follows another one.
ghost use Rattle.std.specs.Prelude.{◌≡◌, ◌+◌, ◌<◌, ◌==◌, ◌^◌, ◌&&◌, IfOk, OnOk, IfSome, length, set};
ghost use Rattle.circuits.specs.Net.{holds, Grown, IsIn, Means};
ghost use Rattle.folded_nets.specs.Following.{AreAllApart, Follows, AreApart, IsBut, IsNever, IsNextOf, SameBut, never_true};

use crate::pairs::{Apart, told};
use circuits::{Bit, Net, NetNode, not};
use std::alloc::Global;
use std::collections::HashMap;
use wv_base::OutOfMemory;

/// The first nodes of a net, copied in their order. Where a copy is known to be never true, what follows of it makes
/// later copies smaller.
#[derive(Drop)]
pub struct FoldedNet {
    pub net: Net,
    /// the copy of each node
    copies: Vec<Bit>,
    /// which bits of the net are never true together
    apart: Vec<Apart>,
    /// where a pair stands, by its nodes; a hint
    places: HashMap<(u32, u32), usize>,
}

impl FoldedNet {
    /// The copy of the constant alone.
    pub fn new(alloc: Global, old: &Net) -> Result<FoldedNet, OutOfMemory>
        ensures { IfOk result (Follows old.now) }
    {
        let _ = old.nodes();
        let net = Net::new(alloc)?;
        let mut copies = Vec::new(alloc);
        copies.push(net.yes())?;
        Ok(FoldedNet {
            net,
            copies,
            apart: Vec::new(alloc),
            places: HashMap::new(alloc),
        })
    }

    /// Whether nothing is known that makes a copy smaller.
    pub fn is_plain(&self) -> bool
        ensures { result ≡ (length self.now.apart.items == 0) }
    {
        self.apart.is_empty()
    }

    // the copy of a bit
    fn copy_of(&self, old: &Net, bit: Bit) -> Bit
        requires follows { Follows old.now self.now }
        requires copied { bit.node < length self.now.copies.items }
        ensures { Means self.now.net result (λ v. holds v old.now bit) }
    {
        let copy = self.copies[bit.node as usize];
        if bit.negated { not(copy) } else { copy }
    }

    // the bit that is their conjunction already, where a pair is known to tell; a stands before b
    fn known(&self, a: Bit, b: Bit) -> Option<Bit>
        requires a_in { IsIn self.now.net a }
        requires b_in { IsIn self.now.net b }
        requires apart { AreAllApart self.now }
        ensures { IfSome result (λ r. Means self.now.net r (λ v. holds v self.now.net a && holds v self.now.net b)) }
    {
        let place = *self.places.get(&(a.node, b.node))?;
        let pair = *self.apart.get(place)?;
        told(&self.net, pair, a, b)
    }

    // the conjunction; a stands before b
    #[tactic(auto, using(circuits::proofs::Nets::grown_not))]
    fn ordered(&mut self, a: Bit, b: Bit) -> Result<Bit, OutOfMemory>
        requires a_in { IsIn self.old.net a }
        requires b_in { IsIn self.old.net b }
        requires room { length self.old.net < 2 ^ 31 }
        requires apart { AreAllApart self.old }
        ensures grown { OnOk result (Grown 1 self.old.net self.new.net) }
        ensures same { SameBut self.old self.new }
        ensures value { IfOk result (λ r. Means self.new.net r
            (λ v. holds v self.old.net a && holds v self.old.net b)) }
    {
        if let Some(bit) = self.known(a, b) {
            return Ok(bit);
        }
        self.net.and(a, b)
    }

    // the conjunction
    #[tactic(auto, using(circuits::proofs::Nodes::means_swapped))]
    fn both(&mut self, a: Bit, b: Bit) -> Result<Bit, OutOfMemory>
        requires a_in { IsIn self.old.net a }
        requires b_in { IsIn self.old.net b }
        requires room { length self.old.net < 2 ^ 31 }
        requires apart { AreAllApart self.old }
        ensures grown { OnOk result (Grown 1 self.old.net self.new.net) }
        ensures same { SameBut self.old self.new }
        ensures value { IfOk result (λ r. Means self.new.net r
            (λ v. holds v self.old.net a && holds v self.old.net b)) }
    {
        if b.node < a.node {
            self.ordered(b, a)
        } else {
            self.ordered(a, b)
        }
    }

    // the copy of the next node, in a net that has room for it
    fn next(&mut self, old: &Net) -> Result<Bit, OutOfMemory>
        requires follows { Follows old.now self.old }
        requires more { length self.old.copies.items < length old.now }
        requires room { length old.now < 2 ^ 31 }
        ensures { IfOk result (IsNextOf old.now self.old self.new) }
    {
        let _ = old.nodes();
        match old.node(self.copies.len() as u32) {
            NetNode::Constant(_) => Ok(self.net.yes()),
            NetNode::Input(_) => self.net.input(),
            NetNode::And(a, b) => {
                let left = self.copy_of(old, a);
                let right = self.copy_of(old, b);
                self.both(left, right)
            }
        }
    }

    // copies the next node
    fn copy_next(&mut self, old: &Net) -> Result<(), OutOfMemory>
        requires follows { Follows old.now self.old }
        requires more { length self.old.copies.items < length old.now }
        requires room { length old.now < 2 ^ 31 }
        ensures follows { OnOk result (Follows old.now self.new) }
        ensures counted { OnOk result (length self.new.copies.items ≡ length self.old.copies.items + 1) }
    {
        let copy = self.next(old)?;
        self.copies.push(copy)?;
        Ok(())
    }

    /// Copies the nodes up to that of a bit, and gives the copy of the bit.
    pub fn copy(&mut self, old: &Net, bit: Bit) -> Result<Bit, OutOfMemory>
        requires follows { Follows old.now self.old }
        requires bit_in { IsIn old.now bit }
        requires room { length old.now < 2 ^ 31 }
        ensures follows { OnOk result (Follows old.now self.new) }
        ensures copied { OnOk result (bit.node < length self.new.copies.items) }
        ensures value { IfOk result (λ r. Means self.new.net r (λ v. holds v old.now bit)) }
    {
        let _ = old.nodes();
        for at in self.copies.len()..bit.node as usize + 1 {
            self.copy_next(old)?;
        }
        Ok(self.copy_of(old, bit))
    }

    // a pair more
    fn note_apart(&mut self, pair: Apart) -> Result<(), OutOfMemory>
        requires apart { AreAllApart self.old }
        requires pair { AreApart self.old.net pair }
        ensures { OnOk result (IsBut self.old self.new) }
    {
        let place = self.apart.len();
        self.apart.push(pair)?;
        self.places
            .insert((pair.left.node, pair.right.node), place)?;
        Ok(())
    }

    // the arguments of a conjunction that is never true are never true together
    fn note_arguments(&mut self, copy: Bit) -> Result<(), OutOfMemory>
        requires apart { AreAllApart self.old }
        requires copy_in { IsIn self.old.net copy }
        requires never { IsNever self.old.net copy }
        ensures { OnOk result (IsBut self.old self.new) }
    {
        let _ = self.net.nodes();
        if copy.negated {
            return Ok(());
        }
        match self.net.node(copy.node) {
            NetNode::And(left, right) => self.note_apart(Apart { left, right }),
            NetNode::Constant(_) | NetNode::Input(_) => Ok(()),
        }
    }

    /// Keeps in mind that no inputs make a bit true that is copied. After a refusal nothing is promised of it.
    pub fn note_never(&mut self, old: &Net, bit: Bit) -> Result<(), OutOfMemory>
        requires follows { Follows old.now self.old }
        requires copied { bit.node < length self.old.copies.items }
        requires never { IsNever old.now bit }
        ensures follows { OnOk result (Follows old.now self.new) }
        ensures told { OnOk result (self.new.copies.items ≡ set self.old.copies.items bit.node (never_true bit)) }
        ensures same { OnOk result (self.new.net ≡ self.old.net) }
    {
        let _ = self.net.nodes();
        let copy = self.copy_of(old, bit);
        self.note_arguments(copy)?;
        self.copies[bit.node as usize] = Bit {
            node: 0,
            negated: !bit.negated,
        };
        Ok(())
    }
}
