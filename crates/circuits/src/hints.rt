// What is known of words beside the nodes of a net. Where memory or a limit stands in the way, less is known.
ghost use Rattle.std.specs.Prelude.{◌≡◌, ℕ, Bool, ◌+◌, ◌*◌, ◌≤◌, IfSome, List, cond, length, nat_eq, nat_lt, ◌%◌, ◌^◌, true, replicate};
ghost use Rattle.polynomials.specs.Calls.{Multiplies, IsWithMultiple};
ghost use Rattle.polynomials.specs.Values.{Same};
ghost use Rattle.circuits.specs.declared.net.NetNode.{NetNode};
ghost use Rattle.circuits.specs.Net.{holds, IsIn, IsNet, Means};
ghost use Rattle.circuits.specs.Numbers.{digit, number, AreIn};
ghost use Rattle.circuits.specs.Words.{AreOperands, AreTrue, Asks, Continues, Tells, bits_of};

use crate::orders::Orders;
use crate::words::{Words, lone_digit};
use crate::zeros::Zeros;
use crate::{Bit, NetNode};
use polynomials::{Polynomial, masked, multiply};
use std::alloc::Global;

/// Words with their polynomials, and bits that tell where polynomials are 0 or in order.
#[derive(Drop)]
pub struct Hints {
    pub alloc: Global,
    pub words: Words,
    pub zeros: Zeros,
    pub orders: Orders,
}

// the product, where memory and the limits on polynomials allow it
fn times(alloc: Global, width: u32, p: &Polynomial, q: &Polynomial) -> Option<Polynomial>
    requires { width ≤ 64 }
    ensures { IfSome result (λ m. Multiplies width p.now q.now m) }
{
    match multiply(alloc, width, p, q) {
        Ok(Some(product)) => Some(product),
        _ => None,
    }
}

// p + coefficient * q, where memory and the limits on polynomials allow it
fn plus(width: u32, mut p: Polynomial, coefficient: u64, q: &Polynomial) -> Option<Polynomial>
    requires { width ≤ 64 }
    ensures { IfSome result (λ r. IsWithMultiple width p coefficient (replicate 6 0) q.now r) }
{
    match p.add_multiple(width, coefficient, [0; 6], q) {
        Ok(true) => Some(p),
        _ => None,
    }
}

impl Hints {
    /// Nothing is known.
    pub fn new(alloc: Global) -> Hints
        ensures { (nodes : List NetNode) → AreTrue nodes result }
    {
        Hints {
            alloc,
            words: Words::new(alloc),
            zeros: Zeros::new(alloc),
            orders: Orders::new(alloc),
        }
    }

    /// Whether a bit of this node tells something of words, and isn't to be taken apart.
    pub fn is_test(&self, node: u32) -> bool {
        self.zeros.of_node(node).is_some() || self.orders.of_node(node).is_some()
    }

    // a polynomial that tells the number of bits
    fn told(&mut self, alloc: Global, nodes: &[NetNode], bits: &[Bit]) -> Option<Polynomial>
        requires net { IsNet nodes.now }
        requires hints { AreTrue nodes.now self.old }
        requires bits_in { AreIn nodes.now bits.now }
        requires wide { length bits.now ≤ 64 }
        ensures hints { AreTrue nodes.now self.new }
        ensures more { Continues self.old.words.list.items self.new.words.list.items }
        ensures tells { IfSome result (λ p. Tells nodes.now (bits_of self.new.words.list.items) (length bits.now) p
            (λ v. number v nodes.now bits.now)) }
    {
        self.words.polynomial(alloc, nodes, bits)
    }

    // a polynomial that tells whether a bit is true
    fn truth(&mut self, alloc: Global, nodes: &[NetNode], bit: Bit) -> Option<Polynomial>
        requires net { IsNet nodes.now }
        requires hints { AreTrue nodes.now self.old }
        requires bit_in { IsIn nodes.now bit }
        ensures hints { AreTrue nodes.now self.new }
        ensures more { Continues self.old.words.list.items self.new.words.list.items }
        ensures tells { IfSome result (λ p. Tells nodes.now (bits_of self.new.words.list.items) 64 p
            (λ v. digit (holds v nodes.now bit))) }
    {
        self.words.truth(alloc, nodes, bit)
    }

    // keeps a polynomial that tells the number of bits
    fn note(&mut self, alloc: Global, nodes: &[NetNode], bits: &[Bit], polynomial: Polynomial)
        requires hints { AreTrue nodes.now self.old }
        requires bits_in { AreIn nodes.now bits.now }
        requires wide { length bits.now ≤ 64 }
        requires tells { Tells nodes.now (bits_of self.old.words.list.items) (length bits.now) polynomial
            (λ v. number v nodes.now bits.now) }
        ensures hints { AreTrue nodes.now self.new }
    {
        self.words.note(alloc, nodes, bits, polynomial);
    }

    // a + coefficient * b
    fn combined(
        &mut self,
        alloc: Global,
        nodes: &[NetNode],
        a: &[Bit],
        coefficient: u64,
        b: &[Bit],
    ) -> Option<Polynomial>
        requires net { IsNet nodes.now }
        requires hints { AreTrue nodes.now self.old }
        requires operands { AreOperands nodes.now a.now b.now }
        ensures hints { AreTrue nodes.now self.new }
        ensures tells { IfSome result (λ p. Tells nodes.now (bits_of self.new.words.list.items) (length a.now) p
            (λ v. number v nodes.now a.now + coefficient * number v nodes.now b.now)) }
    {
        let width = a.len() as u32;
        let mut sum = self.told(alloc, nodes, a)?;
        let other = self.told(alloc, nodes, b)?;
        match sum.add_multiple(width, coefficient, [0; 6], &other) {
            Ok(true) => Some(sum),
            _ => None,
        }
    }

    /// Bits are a + coefficient * b: sums where it is 1, differences where it is 2^64 - 1.
    pub fn note_combined(
        &mut self,
        alloc: Global,
        nodes: &[NetNode],
        a: &[Bit],
        coefficient: u64,
        b: &[Bit],
        out: &[Bit],
    )
        requires net { IsNet nodes.now }
        requires hints { AreTrue nodes.now self.old }
        requires operands { AreOperands nodes.now a.now b.now }
        requires out_in { AreIn nodes.now out.now }
        requires wide { length out.now ≡ length a.now }
        requires is { (v : ℕ → Bool) → Same (length out.now) (number v nodes.now out.now)
            (number v nodes.now a.now + coefficient * number v nodes.now b.now) }
        ensures hints { AreTrue nodes.now self.new }
    {
        if let Some(sum) = self.combined(alloc, nodes, a, coefficient, b) {
            self.note(alloc, nodes, out, sum);
        }
    }

    // a * b
    fn multiplied(
        &mut self,
        alloc: Global,
        nodes: &[NetNode],
        a: &[Bit],
        b: &[Bit],
    ) -> Option<Polynomial>
        requires net { IsNet nodes.now }
        requires hints { AreTrue nodes.now self.old }
        requires operands { AreOperands nodes.now a.now b.now }
        ensures hints { AreTrue nodes.now self.new }
        ensures tells { IfSome result (λ p. Tells nodes.now (bits_of self.new.words.list.items) (length a.now) p
            (λ v. number v nodes.now a.now * number v nodes.now b.now)) }
    {
        let left = self.told(alloc, nodes, a)?;
        let right = self.told(alloc, nodes, b)?;
        times(alloc, a.len() as u32, &left, &right)
    }

    /// Bits are a * b.
    pub fn note_product(
        &mut self,
        alloc: Global,
        nodes: &[NetNode],
        a: &[Bit],
        b: &[Bit],
        out: &[Bit],
    )
        requires net { IsNet nodes.now }
        requires hints { AreTrue nodes.now self.old }
        requires operands { AreOperands nodes.now a.now b.now }
        requires out_in { AreIn nodes.now out.now }
        requires wide { length out.now ≡ length a.now }
        requires is { (v : ℕ → Bool) → Same (length out.now) (number v nodes.now out.now)
            (number v nodes.now a.now * number v nodes.now b.now) }
        ensures hints { AreTrue nodes.now self.new }
    {
        if let Some(product) = self.multiplied(alloc, nodes, a, b) {
            self.note(alloc, nodes, out, product);
        }
    }

    // no + test * (yes - no)
    fn chosen(
        &mut self,
        alloc: Global,
        nodes: &[NetNode],
        test: Bit,
        yes: &[Bit],
        no: &[Bit],
    ) -> Option<Polynomial>
        requires net { IsNet nodes.now }
        requires hints { AreTrue nodes.now self.old }
        requires test_in { IsIn nodes.now test }
        requires operands { AreOperands nodes.now yes.now no.now }
        ensures hints { AreTrue nodes.now self.new }
        ensures tells { IfSome result (λ p. Tells nodes.now (bits_of self.new.words.list.items) (length yes.now) p
            (λ v. cond (holds v nodes.now test) (number v nodes.now yes.now) (number v nodes.now no.now))) }
    {
        let width = yes.len() as u32;
        let more = self.combined(alloc, nodes, yes, u64::MAX, no)?;
        let truth = self.truth(alloc, nodes, test)?;
        let part = times(alloc, width, &truth, &more)?;
        let mut chosen = self.told(alloc, nodes, no)?;
        match chosen.add_multiple(width, 1, [0; 6], &part) {
            Ok(true) => Some(chosen),
            _ => None,
        }
    }

    /// Bits are `yes` where the test is true, else `no`.
    pub fn note_choice(
        &mut self,
        alloc: Global,
        nodes: &[NetNode],
        test: Bit,
        yes: &[Bit],
        no: &[Bit],
        out: &[Bit],
    )
        requires net { IsNet nodes.now }
        requires hints { AreTrue nodes.now self.old }
        requires test_in { IsIn nodes.now test }
        requires operands { AreOperands nodes.now yes.now no.now }
        requires out_in { AreIn nodes.now out.now }
        requires wide { length out.now ≡ length yes.now }
        requires is { (v : ℕ → Bool) → number v nodes.now out.now
            ≡ cond (holds v nodes.now test) (number v nodes.now yes.now) (number v nodes.now no.now) }
        ensures hints { AreTrue nodes.now self.new }
    {
        // (the result is one of the two words)
        if test.node == 0 {
            return;
        }
        if let Some(chosen) = self.chosen(alloc, nodes, test, yes, no) {
            self.note(alloc, nodes, out, chosen);
        }
    }

    /// Bits are the lowest digits of a word.
    pub fn note_cut(&mut self, alloc: Global, nodes: &[NetNode], whole: &[Bit], out: &[Bit])
        requires net { IsNet nodes.now }
        requires hints { AreTrue nodes.now self.old }
        requires whole_in { AreIn nodes.now whole.now }
        requires few { length whole.now ≤ 64 }
        requires out_in { AreIn nodes.now out.now }
        requires wide { length out.now ≤ length whole.now }
        requires is { (v : ℕ → Bool) → Same (length out.now) (number v nodes.now out.now)
            (number v nodes.now whole.now) }
        ensures hints { AreTrue nodes.now self.new }
    {
        if out.len() == whole.len() {
            return;
        }
        let Some(all) = self.told(alloc, nodes, whole) else {
            return;
        };
        let mut low = Polynomial::new(alloc);
        if let Ok(true) = low.add_multiple(out.len() as u32, 1, [0; 6], &all) {
            self.note(alloc, nodes, out, low);
        }
    }

    // a polynomial that is 0 exactly where a and b are equal, in its normal form
    fn difference(
        &mut self,
        alloc: Global,
        nodes: &[NetNode],
        a: &[Bit],
        b: &[Bit],
    ) -> Option<Polynomial>
        requires net { IsNet nodes.now }
        requires hints { AreTrue nodes.now self.old }
        requires operands { AreOperands nodes.now a.now b.now }
        ensures hints { AreTrue nodes.now self.new }
        ensures asks { IfSome result (λ p. Asks nodes.now (bits_of self.new.words.list.items) a.now b.now p) }
    {
        let mut difference = self.combined(alloc, nodes, a, u64::MAX, b)?;
        difference.normalise(a.len() as u32);
        Some(difference)
    }

    /// A bit that tells whether two numbers are equal, where one is known.
    pub fn equal(&mut self, alloc: Global, nodes: &[NetNode], a: &[Bit], b: &[Bit]) -> Option<Bit>
        requires net { IsNet nodes.now }
        requires hints { AreTrue nodes.now self.old }
        requires operands { AreOperands nodes.now a.now b.now }
        ensures hints { AreTrue nodes.now self.new }
        ensures value { IfSome result (λ r. Means nodes.now r
            (λ v. nat_eq (number v nodes.now a.now) (number v nodes.now b.now))) }
    {
        let width = a.len() as u32;
        let difference = self.difference(alloc, nodes, a, b)?;
        match difference.as_constant() {
            Some(constant) => Some(Bit {
                node: 0,
                negated: masked(width, constant) != 0,
            }),
            None => self.zeros.find(width, &difference),
        }
    }

    /// A bit tells whether two numbers are equal.
    pub fn note_equal(&mut self, alloc: Global, nodes: &[NetNode], a: &[Bit], b: &[Bit], bit: Bit)
        requires net { IsNet nodes.now }
        requires hints { AreTrue nodes.now self.old }
        requires operands { AreOperands nodes.now a.now b.now }
        requires tells { Means nodes.now bit (λ v. nat_eq (number v nodes.now a.now) (number v nodes.now b.now)) }
        ensures hints { AreTrue nodes.now self.new }
    {
        // (a digit alone may be a conjunction, which facts are to look into)
        if lone_digit(a).is_some() && lone_digit(b).is_some() {
            return;
        }
        if let Some(difference) = self.difference(alloc, nodes, a, b) {
            self.zeros.add(a.len() as u32, difference, bit);
        }
    }

    // a polynomial that tells the number of bits + offset
    fn moved(
        &mut self,
        alloc: Global,
        nodes: &[NetNode],
        bits: &[Bit],
        offset: u64,
    ) -> Option<Polynomial>
        requires net { IsNet nodes.now }
        requires hints { AreTrue nodes.now self.old }
        requires bits_in { AreIn nodes.now bits.now }
        requires wide { length bits.now ≤ 64 }
        ensures hints { AreTrue nodes.now self.new }
        ensures more { Continues self.old.words.list.items self.new.words.list.items }
        ensures tells { IfSome result (λ p. Tells nodes.now (bits_of self.new.words.list.items) (length bits.now) p
            (λ v. number v nodes.now bits.now + offset)) }
    {
        let mut sum = self.told(alloc, nodes, bits)?;
        match sum.add_term(bits.len() as u32, offset, [0; 6]) {
            Ok(true) => Some(sum),
            _ => None,
        }
    }

    /// A bit tells whether a + offset is less than b + offset, where the sums wrap: with the sign digit as the offset,
    /// whether a is less than b in two's complement.
    pub fn note_below(&mut self, nodes: &[NetNode], a: &[Bit], b: &[Bit], offset: u64, bit: Bit)
        requires net { IsNet nodes.now }
        requires hints { AreTrue nodes.now self.old }
        requires operands { AreOperands nodes.now a.now b.now }
        requires tells { Means nodes.now bit (λ v. nat_lt ((number v nodes.now a.now + offset) % 2 ^ length a.now)
            ((number v nodes.now b.now + offset) % 2 ^ length a.now)) }
        ensures hints { AreTrue nodes.now self.new }
    {
        // (the order of two digits alone is a conjunction, which facts are to look into)
        if bit.node == 0 || (lone_digit(a).is_some() && lone_digit(b).is_some()) {
            return;
        }
        let alloc = self.alloc;
        let Some(lesser) = self.moved(alloc, nodes, a, offset) else {
            return;
        };
        if let Some(greater) = self.moved(alloc, nodes, b, offset) {
            self.orders.add(a.len() as u32, lesser, greater, bit);
        }
    }

    // quotient * b + rest - a
    fn left_over(
        &mut self,
        nodes: &[NetNode],
        a: &[Bit],
        b: &[Bit],
        quotient: &[Bit],
        rest: &[Bit],
    ) -> Option<Polynomial>
        requires net { IsNet nodes.now }
        requires hints { AreTrue nodes.now self.old }
        requires operands { AreOperands nodes.now a.now b.now }
        requires results { AreOperands nodes.now quotient.now rest.now }
        requires same { length quotient.now ≡ length a.now }
        ensures hints { AreTrue nodes.now self.new }
        ensures tells { IfSome result (λ p. Tells nodes.now (bits_of self.new.words.list.items) (length a.now) p
            (λ v. number v nodes.now quotient.now * number v nodes.now b.now + 1 * number v nodes.now rest.now
            + 18446744073709551615 * number v nodes.now a.now)) }
    {
        let width = a.len() as u32;
        let alloc = self.alloc;
        let product = self.multiplied(alloc, nodes, quotient, b)?;
        let part = self.told(alloc, nodes, rest)?;
        let whole = self.told(alloc, nodes, a)?;
        let sum = plus(width, product, 1, &part)?;
        plus(width, sum, u64::MAX, &whole)
    }

    // the truth of a bit, times what is 0 where it is true
    fn law(
        &mut self,
        nodes: &[NetNode],
        a: &[Bit],
        b: &[Bit],
        quotient: &[Bit],
        rest: &[Bit],
        some: Bit,
    ) -> Option<Polynomial>
        requires net { IsNet nodes.now }
        requires hints { AreTrue nodes.now self.old }
        requires operands { AreOperands nodes.now a.now b.now }
        requires results { AreOperands nodes.now quotient.now rest.now }
        requires same { length quotient.now ≡ length a.now }
        requires some_in { IsIn nodes.now some }
        ensures hints { AreTrue nodes.now self.new }
        ensures tells { IfSome result (λ p. Tells nodes.now (bits_of self.new.words.list.items) (length a.now) p
            (λ v. digit (holds v nodes.now some) * (number v nodes.now quotient.now * number v nodes.now b.now
            + 1 * number v nodes.now rest.now + 18446744073709551615 * number v nodes.now a.now))) }
    {
        let left_over = self.left_over(nodes, a, b, quotient, rest)?;
        let truth = self.truth(self.alloc, nodes, some)?;
        times(self.alloc, a.len() as u32, &truth, &left_over)
    }

    /// Where a bit is true, quotient * b + rest is a.
    pub fn note_quotient(
        &mut self,
        nodes: &[NetNode],
        a: &[Bit],
        b: &[Bit],
        quotient: &[Bit],
        rest: &[Bit],
        some: Bit,
    )
        requires net { IsNet nodes.now }
        requires hints { AreTrue nodes.now self.old }
        requires operands { AreOperands nodes.now a.now b.now }
        requires results { AreOperands nodes.now quotient.now rest.now }
        requires same { length quotient.now ≡ length a.now }
        requires some_in { IsIn nodes.now some }
        requires is { (v : ℕ → Bool) → holds v nodes.now some ≡ true → Same (length a.now)
            (number v nodes.now quotient.now * number v nodes.now b.now + number v nodes.now rest.now)
            (number v nodes.now a.now) }
        ensures hints { AreTrue nodes.now self.new }
    {
        if let Some(mut law) = self.law(nodes, a, b, quotient, rest, some) {
            law.normalise(a.len() as u32);
            // (a constant is 0, which says nothing)
            if law.as_constant().is_none() {
                self.zeros.add_law(a.len() as u32, law);
            }
        }
    }
}
