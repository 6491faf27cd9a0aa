// The clause form of a bit.
ghost use Rattle.std.specs.Prelude.{◌≡◌, ◌<◌, ◌^◌, ◌↔◌, [], ◌∷◌, ◌++◌, length, IfOk, OnOk, IsTrue, MatchOption, pos, neg_ℤ};
ghost use Rattle.std.specs.List.{All};
ghost use Rattle.circuits.specs.Net.{IsIn};
ghost use Rattle.clauses.specs.Within.{AreOf, IsOf};
ghost use Rattle.clauses.specs.Clause.{CanJoin};
ghost use Rattle.clauses.specs.Marks.{IsClosed, AreNumbers};
ghost use Rattle.clauses.specs.Tseitin.{ClausesOf, Describes, Fulfils, Propagates, gate_clauses, clauses_below, node_at, node_clauses, rising_two};

use crate::Clause;
use crate::clause::{number, one, three, two};
use crate::numbering::number_nodes;
use crate::reach::reached;
use circuits::{Bit, Net, NetNode};
use std::alloc::Global;
use wv_base::{OutOfMemory, Seq};

/// Clauses over the variables from 1 to `variables`.
#[derive(Drop)]
pub struct Cnf {
    pub variables: u32,
    pub clauses: Seq<Clause>,
    ghost within: { AreOf variables clauses },
}

// whether all numbers of a clause are those of the first variables
fn is_of(variables: u32, clause: &Clause) -> bool
    ensures { IsTrue result ↔ All (IsOf variables) clause.now }
{
    for x in clause.numbers() {
        if x.unsigned_abs() > variables {
            return false;
        }
    }
    true
}

// whether those of all clauses are
fn are_of(variables: u32, clauses: &[Clause]) -> bool
    ensures { IsTrue result ↔ AreOf variables clauses.now }
{
    for clause in clauses {
        if !is_of(variables, clause) {
            return false;
        }
    }
    true
}

impl Cnf {
    ghost use Rattle.clauses.specs.Cnf.{IsCnf};

    /// These clauses over these variables, or `None` where they speak of another one.
    pub fn new(variables: u32, clauses: Seq<Clause>) -> Option<Cnf>
        ensures { MatchOption result (AreOf variables clauses → ⊥) (λ c. IsCnf c variables clauses) }
    {
        if are_of(variables, clauses.as_slice()) {
            return Some(Cnf { variables, clauses });
        }
        None
    }
}

// the clause of v and of the opposites of a and b
fn third(v: u32, a: i32, b: i32) -> Clause
    requires { CanJoin v a b }
    ensures { result ≡ rising_two (neg_ℤ a) (neg_ℤ b) ++ pos v ∷ [] }
{
    let last = number(false, v);
    if -a < -b {
        return three(-a, -b, last);
    }
    three(-b, -a, last)
}

// the clauses of the conjunction v of a and b
fn push_gate(clauses: &mut Seq<Clause>, v: u32, a: i32, b: i32) -> Result<(), OutOfMemory>
    requires { CanJoin v a b }
    ensures { OnOk result (clauses.new ≡ clauses.old ++ gate_clauses v a b) }
{
    let opposite = number(true, v);
    clauses.push(two(opposite, a))?;
    clauses.push(two(opposite, b))?;
    clauses.push(third(v, a, b))?;
    Ok(())
}

// the clauses of a node
fn push_node(
    clauses: &mut Seq<Clause>,
    net: &Net,
    flags: &[bool],
    numbers: &[u32],
    at: usize,
) -> Result<(), OutOfMemory>
    requires within { at < length net.now }
    requires room { length net.now < 2 ^ 28 }
    requires flagged { length flags.now ≡ length net.now }
    requires closed { IsClosed net.now flags.now }
    requires numbered { AreNumbers flags.now net.now numbers.now (length net.now) }
    ensures { OnOk result (clauses.new ≡ clauses.old ++ node_clauses flags.now net.now at (node_at net.now at)) }
{
    let _ = net.nodes();
    match net.node(at as u32) {
        NetNode::Constant(c) => {
            clauses.push(one(number(!c, numbers[at])))?;
        }
        NetNode::Input(_) => {}
        NetNode::And(a, b) => {
            if flags[at] {
                let left = number(a.negated, numbers[a.node as usize]);
                let right = number(b.negated, numbers[b.node as usize]);
                push_gate(clauses, numbers[at], left, right)?;
            }
        }
    }
    Ok(())
}

// the clauses of all nodes
fn listed(
    alloc: Global,
    net: &Net,
    flags: &[bool],
    numbers: &[u32],
) -> Result<Seq<Clause>, OutOfMemory>
    requires room { length net.now < 2 ^ 28 }
    requires flagged { length flags.now ≡ length net.now }
    requires closed { IsClosed net.now flags.now }
    requires numbered { AreNumbers flags.now net.now numbers.now (length net.now) }
    ensures { IfOk result (λ r. r ≡ clauses_below flags.now net.now (length net.now)) }
{
    let mut clauses = Seq::new(alloc);
    for at in 0..flags.len() {
        push_node(&mut clauses, net, flags, numbers, at)?;
    }
    Ok(clauses)
}

/// The clauses of a bit over a variable for each input, for the constant and for each and-node that it reaches:
/// variable k + 1 is input k.
pub fn cnf_of(alloc: Global, net: &Net, bit: Bit) -> Result<Cnf, OutOfMemory>
    requires bit_in { IsIn net.now bit }
    requires room { length net.now < 2 ^ 28 }
    ensures exact { IfOk result (λ c. ClausesOf net.now bit c.variables c.clauses) }
    ensures few { IfOk result (λ c. length c.clauses < 2 ^ 30) }
    ensures describes { IfOk result (λ c. Describes net.now bit c.variables c.clauses) }
    ensures fulfils { IfOk result (λ c. Fulfils net.now bit c.clauses) }
    ensures propagates { IfOk result (λ c. Propagates net.now c.variables c.clauses) }
{
    let _ = net.nodes();
    let flags = reached(alloc, net, bit)?;
    let numbered = number_nodes(alloc, net, &flags)?;
    let mut clauses = listed(alloc, net, &flags, &numbered.numbers)?;
    let last = number(bit.negated, numbered.numbers[bit.node as usize]);
    clauses.push(one(last))?;
    Ok(Cnf {
        variables: numbered.variables,
        clauses,
    })
}
