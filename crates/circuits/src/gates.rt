// Gates of two and three bits.
ghost use Rattle.std.specs.Prelude.{◌≡◌, ℕ, ◌+◌, ◌≤◌, ◌^◌, IfOk, cond, ◌&&◌, ◌||◌, length};
ghost use Rattle.circuits.specs.Net.{holds, xor, Grown, Means, IsIn};
ghost use Rattle.circuits.specs.Gates.{IsSumOf, gate_of};

use crate::{Bit, Net, not};
use wv_base::OutOfMemory;

/// A gate of two bits.
#[derive(Clone, Copy, Debug, PartialEq, Eq)]
pub enum Gate {
    And,
    Xor,
    Or,
}

/// The two digits of a sum of bits.
#[derive(Clone, Copy)]
pub struct Sum {
    pub low: Bit,
    pub high: Bit,
}

/// A disjunction, as one and-node.
pub fn or(net: &mut Net, a: Bit, b: Bit) -> Result<Bit, OutOfMemory>
    requires a_in { IsIn net.old a }
    requires b_in { IsIn net.old b }
    requires room { length net.old + 1 ≤ 2 ^ 31 }
    ensures grown { Grown 1 net.old net.new }
    ensures value { IfOk result (λ r. Means net.new r (λ v. holds v net.old a || holds v net.old b)) }
{
    let neither = net.and(not(a), not(b))?;
    Ok(not(neither))
}

// the sum of two bits: its low digit is their exclusive or
fn half(net: &mut Net, a: Bit, b: Bit) -> Result<Sum, OutOfMemory>
    requires a_in { IsIn net.old a }
    requires b_in { IsIn net.old b }
    requires room { length net.old + 3 ≤ 2 ^ 31 }
    ensures grown { Grown 3 net.old net.new }
    ensures low { IfOk result (λ r. Means net.new r.low (λ v. xor (holds v net.old a) (holds v net.old b))) }
    ensures high { IfOk result (λ r. Means net.new r.high (λ v. holds v net.old a && holds v net.old b)) }
{
    let both = net.and(a, b)?;
    let neither = net.and(not(a), not(b))?;
    let low = net.and(not(both), not(neither))?;
    Ok(Sum { low, high: both })
}

/// An exclusive disjunction, as three and-nodes.
pub fn xor(net: &mut Net, a: Bit, b: Bit) -> Result<Bit, OutOfMemory>
    requires a_in { IsIn net.old a }
    requires b_in { IsIn net.old b }
    requires room { length net.old + 3 ≤ 2 ^ 31 }
    ensures grown { Grown 3 net.old net.new }
    ensures value { IfOk result (λ r. Means net.new r (λ v. xor (holds v net.old a) (holds v net.old b))) }
{
    let digits = half(net, a, b)?;
    Ok(digits.low)
}

/// `yes` where the test is true, else `other`.
pub fn pick(net: &mut Net, test: Bit, yes: Bit, other: Bit) -> Result<Bit, OutOfMemory>
    requires test_in { IsIn net.old test }
    requires yes_in { IsIn net.old yes }
    requires other_in { IsIn net.old other }
    requires room { length net.old + 3 ≤ 2 ^ 31 }
    ensures grown { Grown 3 net.old net.new }
    ensures value { IfOk result (λ r. Means net.new r (λ v. cond (holds v net.old test) (holds v net.old yes)
        (holds v net.old other))) }
{
    if yes == other {
        return Ok(yes);
    }
    let taken = net.and(test, yes)?;
    let left = net.and(not(test), other)?;
    let picked = or(net, taken, left)?;
    Ok(picked)
}

/// The sum of three bits, made of two sums of two bits: at most one of these has a high digit of 1.
#[tactic(auto, using(crate::proofs::Nets::grown_then))]
pub fn full(net: &mut Net, a: Bit, b: Bit, c: Bit) -> Result<Sum, OutOfMemory>
    requires a_in { IsIn net.old a }
    requires b_in { IsIn net.old b }
    requires c_in { IsIn net.old c }
    requires room { length net.old + 7 ≤ 2 ^ 31 }
    ensures grown { Grown 7 net.old net.new }
    ensures value { IfOk result (λ r. IsSumOf net.old net.new r.low r.high a b c) }
{
    let first = half(net, a, b)?;
    let second = half(net, first.low, c)?;
    let high = or(net, first.high, second.high)?;
    Ok(Sum {
        low: second.low,
        high,
    })
}

/// Whether a number is below another, `a` and `b` being their highest digits: `b` where these differ, else `lower`, the
/// answer for the digits below.
pub fn compared(net: &mut Net, a: Bit, b: Bit, lower: Bit) -> Result<Bit, OutOfMemory>
    requires a_in { IsIn net.old a }
    requires b_in { IsIn net.old b }
    requires lower_in { IsIn net.old lower }
    requires room { length net.old + 4 ≤ 2 ^ 31 }
    ensures grown { Grown 4 net.old net.new }
    ensures value { IfOk result (λ r. Means net.new r (λ v. cond (xor (holds v net.old a) (holds v net.old b))
        (holds v net.old b) (holds v net.old lower))) }
{
    let less = net.and(not(a), b)?;
    let more = net.and(a, not(b))?;
    let rest = net.and(not(more), lower)?;
    let compared = or(net, less, rest)?;
    Ok(compared)
}

/// The gate of a bitwise operator on one digit of each operand.
pub fn apply_gate(net: &mut Net, kind: Gate, a: Bit, b: Bit) -> Result<Bit, OutOfMemory>
    requires a_in { IsIn net.old a }
    requires b_in { IsIn net.old b }
    requires room { length net.old + 3 ≤ 2 ^ 31 }
    ensures grown { Grown 3 net.old net.new }
    ensures value { IfOk result (λ r. Means net.new r (λ v. gate_of kind (holds v net.old a) (holds v net.old b))) }
{
    match kind {
        Gate::And => {
            let bit = net.and(a, b)?;
            Ok(bit)
        }
        Gate::Xor => {
            let bit = xor(net, a, b)?;
            Ok(bit)
        }
        Gate::Or => {
            let bit = or(net, a, b)?;
            Ok(bit)
        }
    }
}
