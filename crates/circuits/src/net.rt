// Nets of and-nodes.
ghost use Rattle.std.specs.Prelude.{◌≡◌, ℕ, Bool, ◌+◌, ◌*◌, ◌<◌, ◌≤◌, ◌^◌, IfOk, IfErr, IfSome, MatchOption, true, ◌&&◌, ◌||◌, Some, cond, length, nat_eq, nat_lt, ◌%◌, false, slice_get, slice_index_or, ◌++◌, ◌∷◌, []};
ghost use Rattle.polynomials.specs.Values.{Same};
ghost use Rattle.circuits.specs.declared.net.NetNode.TheVariants.{Constant, Input};
ghost use Rattle.circuits.specs.Numbers.{number, AreIn};
ghost use Rattle.circuits.specs.Words.{AreOperands};
ghost use Rattle.circuits.specs.Chosen.{AreAlike};
ghost use Rattle.circuits.specs.Net.{holds, opposite, Grown, Means, IsIn, IsNet, IsFolded, Folds, Stands, bit_in, node_in, values_of, count_ands, count_inputs};

use crate::answers::simplified;
use crate::chosen;
use crate::hints::Hints;
use crate::parts::parted;
use crate::shared::Shared;
use std::alloc::Global;
use std::marker::Model;
use wv_base::OutOfMemory;

/// The value of a node, or its opposite.
#[derive(Clone, Copy, Debug, PartialEq, Eq)]
pub struct Bit {
    pub node: u32,
    pub negated: bool,
}

/// An input carries its number, counted from 0. The arguments of an and-node are earlier nodes.
#[derive(Clone, Copy, Debug, PartialEq, Eq)]
pub enum NetNode {
    Constant(bool),
    Input(u32),
    And(Bit, Bit),
}

/// A net: the constant, inputs and and-nodes, each behind its arguments. Contracts see the list of its nodes.
#[derive(Drop)]
pub struct Net {
    nodes: Vec<NetNode>,
    inputs: u32,
    shared: Shared,
    hints: Hints,
    /// how many questions facts may still be asked
    questions: u32,
    /// how many choices may still be settled
    choices: u32,
}

// so many questions facts are asked for a net; each takes some milliseconds at most
const MOST_QUESTIONS: u32 = 1000;

// so many choices are settled for a net; each looks into what is known at its place
const MOST_SETTLED: u32 = 10_000;

impl Model for Net {
    ghost use Rattle.std.specs.Prelude.{List};
    ghost use Rattle.circuits.specs.declared.net.NetNode.{NetNode};
    ghost use Rattle.circuits.specs.Words.{IsSound};

    ghost Value = { List NetNode };

    ghost view = { λ n. n.nodes.items };

    ghost invariant = { λ n. IsSound n.nodes.items n.inputs n.hints };
}

/// The bit whose value is the opposite.
pub fn not(a: Bit) -> Bit
    ensures { result ≡ opposite a }
{
    Bit {
        node: a.node,
        negated: !a.negated,
    }
}

// the bit that is their conjunction already, if one is
fn folded(a: Bit, b: Bit) -> Option<Bit>
    ensures { MatchOption result (Stands a b) (λ r. IsFolded a b × Folds a b r) }
{
    let never = Bit {
        node: 0,
        negated: true,
    };
    if a.node == 0 {
        return Some(if a.negated { never } else { b });
    }
    if b.node == 0 {
        return Some(if b.negated { never } else { a });
    }
    if a.node == b.node {
        return Some(if a.negated == b.negated { a } else { never });
    }
    None
}

impl Net {
    /// The net of the constant alone.
    pub fn new(alloc: Global) -> Result<Net, OutOfMemory>
        ensures { IfOk result (λ n. n ≡ Constant true ∷ []) }
    {
        let mut nodes = Vec::new(alloc);
        nodes.push(NetNode::Constant(true))?;
        Ok(Net {
            nodes,
            inputs: 0,
            shared: Shared::new(alloc),
            hints: Hints::new(alloc),
            questions: MOST_QUESTIONS,
            choices: MOST_SETTLED,
        })
    }

    /// The bit that is always true.
    pub fn yes(&self) -> Bit
        ensures { Means self.now result (λ v. true) }
    {
        let _ = self.nodes.len();
        Bit {
            node: 0,
            negated: false,
        }
    }

    /// The number of all nodes: the constant, the inputs and the and-nodes.
    pub fn nodes(&self) -> u64
        ensures count { result ≡ length self.now }
        ensures fine { IsNet self.now }
    {
        self.nodes.len() as u64
    }

    /// How many inputs there are.
    pub fn inputs(&self) -> u64
        ensures { result ≡ count_inputs self.now }
    {
        let _ = self.nodes.len();
        u64::from(self.inputs)
    }

    /// The number of and-nodes.
    pub fn ands(&self) -> u64
        ensures { result ≡ count_ands self.now }
    {
        let nodes = self.nodes.len() as u64;
        nodes - 1 - u64::from(self.inputs)
    }

    /// The node with this number.
    pub fn node(&self, at: u32) -> NetNode
        requires { at < length self.now }
        ensures { Some result ≡ slice_get self.now at }
    {
        self.nodes[at as usize]
    }

    /// One more input. A refusal leaves the net as it was.
    pub fn input(&mut self) -> Result<Bit, OutOfMemory>
        requires room { length self.old < 2 ^ 31 }
        ensures added { IfOk result (λ r. self.new ≡ self.old ++ Input (count_inputs self.old) ∷ []) }
        ensures value { IfOk result (λ r. Means self.new r (λ v. v (count_inputs self.old))) }
        ensures refused { IfErr result (λ e. self.new ≡ self.old) }
    {
        let node = self.nodes.len() as u32;
        self.nodes.push(NetNode::Input(self.inputs))?;
        self.inputs += 1;
        Ok(Bit {
            node,
            negated: false,
        })
    }

    /// The conjunction: of two bits one node, in either order. A refusal leaves the net as it was.
    #[tactic(auto, using(crate::proofs::Nets::grown_not, crate::proofs::Nodes::means_swapped))]
    pub fn and(&mut self, a: Bit, b: Bit) -> Result<Bit, OutOfMemory>
        requires a_in { IsIn self.old a }
        requires b_in { IsIn self.old b }
        requires room { length self.old < 2 ^ 31 }
        ensures grown { Grown 1 self.old self.new }
        ensures value { IfOk result (λ r. Means self.new r (λ v. holds v self.old a && holds v self.old b)) }
        ensures folded { IsFolded a b → self.new ≡ self.old }
        ensures refused { IfErr result (λ e. self.new ≡ self.old) }
    {
        let _ = self.nodes.len();
        if let Some(r) = folded(a, b) {
            return Ok(r);
        }
        if b.node < a.node {
            self.node_of(b, a)
        } else {
            self.node_of(a, b)
        }
    }

    // the node of these arguments: one that is found, or a new one
    #[tactic(auto, using(crate::proofs::Nets::grown_not, crate::proofs::Nets::grown_pushed))]
    fn node_of(&mut self, a: Bit, b: Bit) -> Result<Bit, OutOfMemory>
        requires a_in { IsIn self.old a }
        requires b_in { IsIn self.old b }
        requires stands { Stands a b }
        requires room { length self.old < 2 ^ 31 }
        ensures grown { Grown 1 self.old self.new }
        ensures value { IfOk result (λ r. Means self.new r (λ v. holds v self.old a && holds v self.old b)) }
        ensures refused { IfErr result (λ e. self.new ≡ self.old) }
    {
        let negated = false;
        if let Some(node) = self.shared.find(&self.nodes, a, b) {
            return Ok(Bit { node, negated });
        }
        let node = self.nodes.len() as u32;
        self.nodes.push(NetNode::And(a, b))?;
        self.shared.add(&self.nodes, node, a, b);
        Ok(Bit { node, negated })
    }

    /// Whether the last nodes are inputs, and these bits.
    pub fn ends_with(&self, bits: &[Bit]) -> bool {
        let first = self.nodes.len().saturating_sub(bits.len());
        for at in 0..bits.len() {
            if bits[at].node as usize != first.saturating_add(at) || !self.is_input(bits[at]) {
                return false;
            }
        }
        true
    }

    fn is_input(&self, bit: Bit) -> bool {
        match self.nodes.get(bit.node as usize) {
            Some(NetNode::Input(_)) => !bit.negated,
            _ => false,
        }
    }

    /// Keeps in mind that bits are a + coefficient * b: sums where it is 1, differences where it is 2^64 - 1.
    pub fn note_combined(
        &mut self,
        alloc: Global,
        a: &[Bit],
        coefficient: u64,
        b: &[Bit],
        out: &[Bit],
    )
        requires operands { AreOperands self.old a.now b.now }
        requires out_in { AreIn self.old out.now }
        requires wide { length out.now ≡ length a.now }
        requires is { (v : ℕ → Bool) → Same (length out.now) (number v self.old out.now)
            (number v self.old a.now + coefficient * number v self.old b.now) }
        ensures { self.new ≡ self.old }
    {
        self.hints
            .note_combined(alloc, &self.nodes, a, coefficient, b, out);
    }

    /// Keeps in mind that bits are a * b.
    pub fn note_product(&mut self, alloc: Global, a: &[Bit], b: &[Bit], out: &[Bit])
        requires operands { AreOperands self.old a.now b.now }
        requires out_in { AreIn self.old out.now }
        requires wide { length out.now ≡ length a.now }
        requires is { (v : ℕ → Bool) → Same (length out.now) (number v self.old out.now)
            (number v self.old a.now * number v self.old b.now) }
        ensures { self.new ≡ self.old }
    {
        self.hints.note_product(alloc, &self.nodes, a, b, out);
    }

    /// Keeps in mind that bits are `yes` where the test is true, else `no`.
    pub fn note_choice(&mut self, alloc: Global, test: Bit, yes: &[Bit], no: &[Bit], out: &[Bit])
        requires test_in { IsIn self.old test }
        requires operands { AreOperands self.old yes.now no.now }
        requires out_in { AreIn self.old out.now }
        requires wide { length out.now ≡ length yes.now }
        requires is { (v : ℕ → Bool) → number v self.old out.now
            ≡ cond (holds v self.old test) (number v self.old yes.now) (number v self.old no.now) }
        ensures { self.new ≡ self.old }
    {
        self.hints
            .note_choice(alloc, &self.nodes, test, yes, no, out);
    }

    /// Keeps in mind that bits are the lowest digits of a word.
    pub fn note_cut(&mut self, alloc: Global, whole: &[Bit], out: &[Bit])
        requires whole_in { AreIn self.old whole.now }
        requires few { length whole.now ≤ 64 }
        requires out_in { AreIn self.old out.now }
        requires wide { length out.now ≤ length whole.now }
        requires is { (v : ℕ → Bool) → Same (length out.now) (number v self.old out.now) (number v self.old whole.now) }
        ensures { self.new ≡ self.old }
    {
        self.hints.note_cut(alloc, &self.nodes, whole, out);
    }

    /// A bit that tells whether two numbers are equal, where one is known.
    pub fn known_equal(&mut self, alloc: Global, a: &[Bit], b: &[Bit]) -> Option<Bit>
        requires operands { AreOperands self.old a.now b.now }
        ensures same { self.new ≡ self.old }
        ensures value { IfSome result (λ r. Means self.new r
            (λ v. nat_eq (number v self.new a.now) (number v self.new b.now))) }
    {
        self.hints.equal(alloc, &self.nodes, a, b)
    }

    /// Keeps in mind that a bit tells whether two numbers are equal.
    pub fn note_equal(&mut self, alloc: Global, a: &[Bit], b: &[Bit], bit: Bit)
        requires operands { AreOperands self.old a.now b.now }
        requires tells { Means self.old bit (λ v. nat_eq (number v self.old a.now) (number v self.old b.now)) }
        ensures { self.new ≡ self.old }
    {
        self.hints.note_equal(alloc, &self.nodes, a, b, bit);
    }

    /// Keeps in mind that a bit tells whether a + offset is less than b + offset, where the sums wrap.
    pub fn note_below(&mut self, a: &[Bit], b: &[Bit], offset: u64, bit: Bit)
        requires operands { AreOperands self.old a.now b.now }
        requires tells { Means self.old bit (λ v. nat_lt ((number v self.old a.now + offset) % 2 ^ length a.now)
            ((number v self.old b.now + offset) % 2 ^ length a.now)) }
        ensures { self.new ≡ self.old }
    {
        self.hints.note_below(&self.nodes, a, b, offset, bit);
    }

    /// Keeps in mind that quotient * b + rest is a, where a bit is true.
    pub fn note_quotient(&mut self, a: &[Bit], b: &[Bit], quotient: &[Bit], rest: &[Bit], some: Bit)
        requires operands { AreOperands self.old a.now b.now }
        requires results { AreOperands self.old quotient.now rest.now }
        requires same { length quotient.now ≡ length a.now }
        requires some_in { IsIn self.old some }
        requires is { (v : ℕ → Bool) → holds v self.old some ≡ true → Same (length a.now)
            (number v self.old quotient.now * number v self.old b.now + number v self.old rest.now)
            (number v self.old a.now) }
        ensures { self.new ≡ self.old }
    {
        self.hints
            .note_quotient(&self.nodes, a, b, quotient, rest, some);
    }

    /// The conjunction of where runs are and a bit. Where that bit's value is known there, no node is added; where a
    /// part of it is, that part is left out.
    pub fn under(&mut self, live: Bit, bit: Bit) -> Result<Bit, OutOfMemory>
        requires live_in { IsIn self.old live }
        requires bit_in { IsIn self.old bit }
        requires room { length self.old < 2 ^ 31 }
        ensures grown { Grown 1 self.old self.new }
        ensures value { IfOk result (λ r. Means self.new r (λ v. holds v self.old live && holds v self.old bit)) }
        ensures refused { IfErr result (λ e. self.new ≡ self.old) }
    {
        let mut questions = self.questions;
        let part = simplified(&self.nodes, &self.hints, live, bit, &mut questions);
        self.questions = questions;
        match part {
            Ok(part) => self.and(live, part),
            Err(OutOfMemory) => self.and(live, bit),
        }
    }

    /// Bits that have the number of others wherever `live` is true: what is left of a word that tests chose, where
    /// these are known. A word that is an unknown stays as it is, since facts speak of it. No node is added.
    pub fn settled(
        &mut self,
        alloc: Global,
        live: Bit,
        bits: &[Bit],
    ) -> Result<Vec<Bit>, OutOfMemory>
        requires live_in { IsIn self.old live }
        requires bits_in { AreIn self.old bits.now }
        ensures same { self.new ≡ self.old }
        ensures alike { IfOk result (λ r. AreAlike self.old (λ v. holds v self.old live) bits.now r.items) }
    {
        if self.choices == 0 || !chosen::is_choice(&self.nodes, &self.hints, bits) {
            return Ok(bits.to_vec(alloc)?);
        }
        self.choices -= 1;
        chosen::settled(&self.nodes, &self.hints, live, bits)
    }

    /// Where one of two bits is true. Where they part a bit by a test alone, it is that bit.
    pub fn together(&mut self, a: Bit, b: Bit) -> Result<Bit, OutOfMemory>
        requires a_in { IsIn self.old a }
        requires b_in { IsIn self.old b }
        requires room { length self.old < 2 ^ 31 }
        ensures grown { Grown 1 self.old self.new }
        ensures value { IfOk result (λ r. Means self.new r (λ v. holds v self.old a || holds v self.old b)) }
        ensures refused { IfErr result (λ e. self.new ≡ self.old) }
    {
        if let Some(whole) = parted(&self.nodes, a, b) {
            return Ok(whole);
        }
        let neither = self.and(not(a), not(b))?;
        Ok(not(neither))
    }

    /// The values of all nodes where input k has the value `inputs[k]`, and inputs beyond the last are false.
    pub fn values(&self, alloc: Global, inputs: &[bool]) -> Result<Vec<bool>, OutOfMemory>
        ensures { IfOk result (λ r. r.items ≡ values_of (λ k. slice_index_or inputs.now k false) self.now) }
    {
        let mut values = Vec::new(alloc);
        for i in 0..self.nodes.len() {
            let next = value_of_node(self.nodes[i], inputs, &values);
            values.push(next)?;
        }
        Ok(values)
    }

    /// The value of a bit where input k has the value `inputs[k]`.
    pub fn value(&self, alloc: Global, b: Bit, inputs: &[bool]) -> Result<bool, OutOfMemory>
        requires b_in { IsIn self.now b }
        requires all { length inputs.now ≡ count_inputs self.now }
        ensures { IfOk result (λ r. r ≡ holds (λ k. slice_index_or inputs.now k false) self.now b) }
    {
        let values = self.values(alloc, inputs)?;
        Ok(value_of_bit(&values, b))
    }
}

/// The value of a bit, of the values of all nodes.
pub fn value_of_bit(values: &[bool], b: Bit) -> bool
    ensures { result ≡ bit_in values.now b }
{
    let on = match values.get(b.node as usize) {
        Some(value) => *value,
        None => false,
    };
    if b.negated { !on } else { on }
}

fn value_of_node(node: NetNode, inputs: &[bool], values: &[bool]) -> bool
    ensures { result ≡ node_in (λ k. slice_index_or inputs.now k false) values.now node }
{
    match node {
        NetNode::Constant(value) => value,
        NetNode::Input(k) => match inputs.get(k as usize) {
            Some(value) => *value,
            None => false,
        },
        NetNode::And(a, b) => value_of_bit(values, a) && value_of_bit(values, b),
    }
}
