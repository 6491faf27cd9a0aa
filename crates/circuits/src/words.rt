// Words: lists of bits whose numbers are known as polynomials.
ghost use Rattle.std.specs.Prelude.{◌≡◌, ℕ, Bool, List, ◌<◌, ◌≤◌, ◌^◌, ◌++◌, ◌∷◌, [], IfSome, IsTrue, OnOk, OnErr, Some, length, slice_get};
ghost use Rattle.circuits.specs.declared.net.NetNode.{NetNode};
ghost use Rattle.circuits.specs.Net.{holds, IsIn, IsNet};
ghost use Rattle.circuits.specs.Numbers.{digit, number, AreIn};
ghost use Rattle.circuits.specs.Words.{AreWords, Continues, Tells, bits_of};
ghost use Rattle.circuits.specs.Facts.{IsDigit};

use crate::slots::{REACH, Slots};
use crate::{Bit, NetNode};
use polynomials::{Polynomial, Term};
use std::alloc::Global;
use wv_base::OutOfMemory;

/// Bits of a net, and a polynomial over words that tells their number.
#[derive(Drop)]
pub struct Word {
    pub bits: Vec<Bit>,
    pub polynomial: Polynomial,
}

/// Words, each found again by its bits.
#[derive(Drop)]
pub struct Words {
    pub list: Vec<Word>,
    slots: Slots,
}

// more words than these aren't kept
const MOST_WORDS: usize = 1 << 20;

impl Words {
    /// No word is known.
    pub fn new(alloc: Global) -> Words
        ensures { result.list.items ≡ [] }
    {
        Words {
            list: Vec::new(alloc),
            slots: Slots::new(alloc),
        }
    }

    // the word of these bits
    fn find(&self, bits: &[Bit]) -> Option<usize>
        ensures few { IfSome result (λ at. at < 2 ^ 20) }
        ensures found { IfSome result (λ at. Some bits.now ≡ slice_get (bits_of self.now.list.items) at) }
    {
        let hash = hash_of(bits);
        for step in 0..REACH {
            let number = self.slots.number(hash, step) as usize;
            if number == 0 || number > MOST_WORDS {
                break;
            }
            if self.is_of(number - 1, bits) {
                return Some(number - 1);
            }
        }
        None
    }

    // whether this word has these bits
    fn is_of(&self, at: usize, bits: &[Bit]) -> bool
        ensures { IsTrue result → Some bits.now ≡ slice_get (bits_of self.now.list.items) at }
    {
        match self.list.get(at) {
            Some(word) => word.bits.as_slice() == bits,
            None => false,
        }
    }

    // lets the last word be found
    fn put_last(&mut self)
        requires { length self.old.list.items ≤ 2 ^ 20 }
        ensures { self.new.list ≡ self.old.list }
    {
        let count = self.list.len();
        let from = if self.slots.spread(count) {
            0
        } else {
            count.saturating_sub(1)
        };
        for at in from..count {
            let hash = hash_of(&self.list[at].bits);
            self.slots.put(hash, at as u32 + 1);
        }
    }

    // one more word; a refusal leaves all as it was
    fn add(
        &mut self,
        alloc: Global,
        nodes: &[NetNode],
        bits: &[Bit],
        polynomial: Polynomial,
    ) -> Result<(), OutOfMemory>
        requires room { length self.old.list.items < 2 ^ 20 }
        requires words { AreWords nodes.now self.old.list.items }
        requires bits_in { AreIn nodes.now bits.now }
        requires wide { length bits.now ≤ 64 }
        requires tells { Tells nodes.now (bits_of self.old.list.items ++ bits.now ∷ []) (length bits.now) polynomial
            (λ v. number v nodes.now bits.now) }
        ensures words { AreWords nodes.now self.new.list.items }
        ensures added { OnOk result (bits_of self.new.list.items ≡ bits_of self.old.list.items ++ bits.now ∷ []) }
        ensures refused { OnErr result (self.new.list.items ≡ self.old.list.items) }
        ensures more { Continues self.old.list.items self.new.list.items }
    {
        let bits = bits.to_vec(alloc)?;
        self.list.push(Word { bits, polynomial })?;
        self.put_last();
        Ok(())
    }

    /// The polynomial that tells whether a bit is true: a constant, an unknown that is 0 or 1, or 1 less one. None
    /// where memory or a limit doesn't allow it.
    pub fn truth(&mut self, alloc: Global, nodes: &[NetNode], bit: Bit) -> Option<Polynomial>
        requires net { IsNet nodes.now }
        requires words { AreWords nodes.now self.old.list.items }
        requires bit_in { IsIn nodes.now bit }
        ensures words { AreWords nodes.now self.new.list.items }
        ensures more { Continues self.old.list.items self.new.list.items }
        ensures tells { IfSome result (λ p. Tells nodes.now (bits_of self.new.list.items) 64 p
            (λ v. digit (holds v nodes.now bit))) }
    {
        if bit.node == 0 {
            return Polynomial::constant(alloc, 64, if bit.negated { 0 } else { 1 }).ok();
        }
        let plain = Bit {
            node: bit.node,
            negated: false,
        };
        let truth = self.unknown_truth(alloc, nodes, plain)?;
        if !bit.negated {
            return Some(truth);
        }
        let mut other = Polynomial::constant(alloc, 64, 1).ok()?;
        match other.add_multiple(64, u64::MAX, [0; 6], &truth) {
            Ok(true) => Some(other),
            _ => None,
        }
    }

    // the unknown that is 1 where the bit is true
    fn unknown_truth(&mut self, alloc: Global, nodes: &[NetNode], bit: Bit) -> Option<Polynomial>
        requires words { AreWords nodes.now self.old.list.items }
        requires bit_in { IsIn nodes.now bit }
        ensures words { AreWords nodes.now self.new.list.items }
        ensures more { Continues self.old.list.items self.new.list.items }
        ensures tells { IfSome result (λ p. Tells nodes.now (bits_of self.new.list.items) 64 p
            (λ v. digit (holds v nodes.now bit))) }
    {
        let bits = [bit];
        let at = match self.find(&bits) {
            Some(at) => at,
            None => self.own_word(alloc, nodes, &bits)?,
        };
        Polynomial::unknown(alloc, 2 * at as u32 + 3).ok()
    }

    // one more word of these bits, whose polynomial is an unknown of its own: its place
    fn own_word(&mut self, alloc: Global, nodes: &[NetNode], bits: &[Bit]) -> Option<usize>
        requires words { AreWords nodes.now self.old.list.items }
        requires bits_in { AreIn nodes.now bits.now }
        requires wide { length bits.now ≤ 64 }
        ensures words { AreWords nodes.now self.new.list.items }
        ensures more { Continues self.old.list.items self.new.list.items }
        ensures few { IfSome result (λ at. at < 2 ^ 20) }
        ensures own { IfSome result (λ at. Some bits.now ≡ slice_get (bits_of self.new.list.items) at) }
    {
        let at = self.list.len();
        if at >= MOST_WORDS {
            return None;
        }
        let own = Polynomial::unknown(alloc, 2 * at as u32 + 2).ok()?;
        self.add(alloc, nodes, bits, own).ok()?;
        Some(at)
    }

    /// A polynomial that tells the number of bits: what is known of them, or an unknown of their own. None where
    /// memory or a limit doesn't allow it.
    pub fn polynomial(
        &mut self,
        alloc: Global,
        nodes: &[NetNode],
        bits: &[Bit],
    ) -> Option<Polynomial>
        requires net { IsNet nodes.now }
        requires words { AreWords nodes.now self.old.list.items }
        requires bits_in { AreIn nodes.now bits.now }
        requires wide { length bits.now ≤ 64 }
        ensures words { AreWords nodes.now self.new.list.items }
        ensures more { Continues self.old.list.items self.new.list.items }
        ensures tells { IfSome result (λ p. Tells nodes.now (bits_of self.new.list.items) (length bits.now) p
            (λ v. number v nodes.now bits.now)) }
    {
        if let Some(lowest) = lone_digit(bits) {
            return self.truth(alloc, nodes, lowest);
        }
        if let Some(number) = constant_of(bits) {
            return Polynomial::constant(alloc, 64, number).ok();
        }
        if let Some(at) = self.find(bits) {
            return self.list[at].polynomial.copy(alloc).ok();
        }
        let at = self.own_word(alloc, nodes, bits)?;
        Polynomial::unknown(alloc, 2 * at as u32 + 2).ok()
    }

    // whether a polynomial is known of bits as they are, without an unknown of their own
    fn is_known(&self, bits: &[Bit]) -> bool
        requires { length bits.now ≤ 64 }
    {
        lone_digit(bits).is_some() || constant_of(bits).is_some() || self.find(bits).is_some()
    }

    /// Whether bits are constants, a digit alone, or a word.
    pub fn is_word(&self, bits: &[Bit]) -> bool {
        for bit in bits {
            if bit.node != 0 {
                return lone_digit(bits).is_some() || self.find(bits).is_some();
            }
        }
        true
    }

    /// Whether more is known of bits than an unknown of their own.
    pub fn is_told(&self, bits: &[Bit]) -> bool {
        let Some(at) = self.find(bits) else {
            return false;
        };
        let own = Term {
            coefficient: 1,
            factors: [2 * at as u32 + 2, 0, 0, 0, 0, 0],
        };
        match self.list.get(at) {
            Some(word) => word.polynomial.terms() != [own].as_slice(),
            None => false,
        }
    }

    /// The bit that an odd unknown stands for.
    pub fn digit(&self, truth: u32) -> Option<Bit>
        ensures is { IfSome result (λ b. IsDigit (bits_of self.now.list.items) truth b) }
        ensures inside { IfSome result (λ b. (net : List NetNode) → AreWords net self.now.list.items → IsIn net b) }
    {
        if truth < 3 || truth % 2 == 0 {
            return None;
        }
        let word = self.list.get((truth as usize - 3) / 2)?;
        let (lowest, _above) = word.bits.as_slice().split_first()?;
        Some(*lowest)
    }

    /// Keeps what the number of bits is, where they aren't known yet.
    pub fn note(&mut self, alloc: Global, nodes: &[NetNode], bits: &[Bit], polynomial: Polynomial)
        requires words { AreWords nodes.now self.old.list.items }
        requires bits_in { AreIn nodes.now bits.now }
        requires wide { length bits.now ≤ 64 }
        requires tells { Tells nodes.now (bits_of self.old.list.items) (length bits.now) polynomial
            (λ v. number v nodes.now bits.now) }
        ensures words { AreWords nodes.now self.new.list.items }
        ensures more { Continues self.old.list.items self.new.list.items }
    {
        if self.list.len() >= MOST_WORDS || self.is_known(bits) {
            return;
        }
        let _ = self.add(alloc, nodes, bits, polynomial);
    }
}

// bits that differ little get hashes that lie far apart
fn hash_of(bits: &[Bit]) -> u64 {
    let mut sum: u64 = bits.len() as u64;
    for bit in bits {
        let own = 2 * u64::from(bit.node) + u64::from(bit.negated);
        sum = sum.wrapping_add(own).wrapping_mul(0xC13F_A9A9_02A6_328F);
        sum ^= sum >> 29;
    }
    sum
}

/// The digit that alone may differ from 0: the lowest, before digits that are constantly 0.
pub fn lone_digit(bits: &[Bit]) -> Option<Bit>
    ensures { IfSome result (λ b. (net : List NetNode) → IsNet net → AreIn net bits.now → IsIn net b
        × ((v : ℕ → Bool) → number v net bits.now ≡ digit (holds v net b))) }
{
    let (lowest, above) = bits.split_first()?;
    for bit in above {
        if bit.node != 0 || !bit.negated {
            return None;
        }
    }
    Some(*lowest)
}

// the number of at most 64 bits that are constants
fn constant_of(bits: &[Bit]) -> Option<u64>
    requires { length bits.now ≤ 64 }
    ensures { IfSome result (λ n. (net : List NetNode) → IsNet net → (v : ℕ → Bool) → number v net bits.now ≡ n) }
{
    let mut number: u64 = 0;
    for at in 0..bits.len() {
        let bit = bits[at];
        if bit.node != 0 {
            return None;
        }
        if !bit.negated {
            number |= 1 << at;
        }
    }
    Some(number)
}
