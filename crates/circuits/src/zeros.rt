// Bits that tell where polynomials are 0: equal questions have one answer.
ghost use Rattle.std.specs.Prelude.{◌≡◌, ◌<◌, ◌≤◌, ◌^◌, List, [], IfSome, false, length};
ghost use Rattle.circuits.specs.declared.net.Bit.{Bit};
ghost use Rattle.circuits.specs.declared.net.NetNode.{NetNode};
ghost use Rattle.circuits.specs.Words.{AreZeros, IsZeroOf};

use crate::Bit;
use crate::slots::{REACH, Slots};
use polynomials::Polynomial;
use std::alloc::Global;

/// A bit that is true exactly where a polynomial is 0 modulo 2^width.
#[derive(Drop)]
pub struct Zero {
    pub width: u32,
    pub polynomial: Polynomial,
    pub bit: Bit,
}

/// Such bits, each found again by its polynomial, which is one in its normal form.
#[derive(Drop)]
pub struct Zeros {
    pub list: Vec<Zero>,
    /// places of laws, whose bit is the constant true; a hint: whoever reads one looks whether it is within the list
    pub laws: Vec<u32>,
    slots: Slots,
    by_node: Slots,
}

// more bits than these aren't kept
const MOST_ZEROS: usize = 1 << 20;
// more laws than these aren't kept
const MOST_LAWS: usize = 64;

impl Zeros {
    /// No question was asked.
    pub fn new(alloc: Global) -> Zeros
        ensures { result.list.items ≡ [] }
    {
        Zeros {
            list: Vec::new(alloc),
            laws: Vec::new(alloc),
            slots: Slots::new(alloc),
            by_node: Slots::new(alloc),
        }
    }

    /// The bit that tells where a polynomial is 0.
    pub fn find(&self, width: u32, polynomial: &Polynomial) -> Option<Bit>
        ensures { IfSome result (λ bit. (net : List NetNode) (words : List (List Bit))
            → AreZeros net words self.now.list.items → IsZeroOf net words width polynomial.now bit) }
    {
        let hash = hash_of(width, polynomial);
        for step in 0..REACH {
            let number = self.slots.number(hash, step) as usize;
            if number == 0 {
                break;
            }
            if let Some(bit) = self.answer(number - 1, width, polynomial) {
                return Some(bit);
            }
        }
        None
    }

    // the bit of this number, where it is about this polynomial
    fn answer(&self, at: usize, width: u32, polynomial: &Polynomial) -> Option<Bit>
        ensures { IfSome result (λ bit. (net : List NetNode) (words : List (List Bit))
            → AreZeros net words self.now.list.items → IsZeroOf net words width polynomial.now bit) }
    {
        let zero = self.list.get(at)?;
        if zero.width == width && zero.polynomial.same_terms(polynomial) {
            return Some(zero.bit);
        }
        None
    }

    /// The place of a bit of this node.
    pub fn of_node(&self, node: u32) -> Option<usize>
        ensures { IfSome result (λ at. at < length self.now.list.items) }
    {
        let hash = hash_of_node(node);
        for step in 0..REACH {
            let number = self.by_node.number(hash, step) as usize;
            if number == 0 || number > self.list.len() {
                break;
            }
            if self.list[number - 1].bit.node == node {
                return Some(number - 1);
            }
        }
        None
    }

    // lets the last bit be found by its polynomial
    fn put_last(&mut self)
        requires { length self.old.list.items ≤ 2 ^ 20 }
        ensures { self.new.list ≡ self.old.list }
    {
        let count = self.list.len();
        let from = if self.slots.spread(count) {
            0
        } else {
            count.saturating_sub(1)
        };
        for at in from..count {
            let hash = hash_of(self.list[at].width, &self.list[at].polynomial);
            self.slots.put(hash, at as u32 + 1);
        }
    }

    // lets the last bit be found by its node
    fn put_last_node(&mut self)
        requires { length self.old.list.items ≤ 2 ^ 20 }
        ensures { self.new.list ≡ self.old.list }
    {
        let count = self.list.len();
        let from = if self.by_node.spread(count) {
            0
        } else {
            count.saturating_sub(1)
        };
        for at in from..count {
            let node = self.list[at].bit.node;
            // (nobody asks for the constant, which all laws have)
            if node != 0 {
                self.by_node.put(hash_of_node(node), at as u32 + 1);
            }
        }
    }

    /// Keeps such a bit, where memory allows it.
    pub fn add(&mut self, width: u32, polynomial: Polynomial, bit: Bit)
        ensures { (net : List NetNode) (words : List (List Bit)) → AreZeros net words self.old.list.items
            → IsZeroOf net words width polynomial bit → AreZeros net words self.new.list.items }
    {
        let zero = Zero {
            width,
            polynomial,
            bit,
        };
        if self.list.len() < MOST_ZEROS && self.list.push(zero).is_ok() {
            self.put_last();
            self.put_last_node();
        }
    }

    /// Keeps a law, a polynomial that is 0 under every input, where memory and the limits allow it.
    pub fn add_law(&mut self, width: u32, polynomial: Polynomial)
        ensures { (net : List NetNode) (words : List (List Bit)) → AreZeros net words self.old.list.items
            → IsZeroOf net words width polynomial (record { node = 0; negated = false })
            → AreZeros net words self.new.list.items }
    {
        let at = self.list.len();
        if at >= MOST_ZEROS || self.laws.len() >= MOST_LAWS {
            return;
        }
        if self.find(width, &polynomial).is_some() || self.laws.push(at as u32).is_err() {
            return;
        }
        let yes = Bit {
            node: 0,
            negated: false,
        };
        self.add(width, polynomial, yes);
    }
}

fn hash_of_node(node: u32) -> u64 {
    u64::from(node).wrapping_mul(0x9e37_79b9_7f4a_7c15)
}

fn hash_of(width: u32, polynomial: &Polynomial) -> u64 {
    polynomial.hash().wrapping_add(u64::from(width) << 32)
}
