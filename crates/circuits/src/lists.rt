// Circuits on lists of bits, lowest digit first.
ghost use Rattle.std.specs.Prelude.{◌≡◌, ℕ, ◌+◌, ◌-◌, ◌*◌, ◌≤◌, ◌<◌, ◌^◌, IfOk, cond, not, nat_eq, nat_lt, map, ◌++◌, length};
ghost use Rattle.circuits.specs.Net.{holds, opposite, Grown, Means, IsIn};
ghost use Rattle.circuits.specs.Numbers.{number, digit, AreIn, Counts};
ghost use Rattle.circuits.specs.Gates.{digits_of};

use crate::gates::{Gate, apply_gate, compared, full, pick};
use crate::words::lone_digit;
use crate::{Bit, Net, not};
use std::alloc::Global;
use wv_base::OutOfMemory;

/// The number 0.
pub fn zeros(alloc: Global, net: &Net, n: usize) -> Result<Vec<Bit>, OutOfMemory>
    ensures { IfOk result (λ r. Counts net.now r.items n (λ v. 0)) }
{
    let never = not(net.yes());
    let mut out = Vec::new(alloc);
    for i in 0..n {
        out.push(never)?;
    }
    Ok(out)
}

/// All bits negated.
pub fn flipped(alloc: Global, a: &[Bit]) -> Result<Vec<Bit>, OutOfMemory>
    ensures { IfOk result (λ r. r.items ≡ map opposite a.now) }
{
    let mut out = Vec::new(alloc);
    for bit in a {
        out.push(not(*bit))?;
    }
    Ok(out)
}

/// A copy of a list of bits.
pub fn copied(alloc: Global, a: &[Bit]) -> Result<Vec<Bit>, OutOfMemory>
    ensures { IfOk result (λ r. r.items ≡ a.now) }
{
    let mut out = Vec::new(alloc);
    out.extend_from_slice(a)?;
    Ok(out)
}

/// A list of bits after another, the low digits first.
pub fn joined(alloc: Global, low: &[Bit], high: &[Bit]) -> Result<Vec<Bit>, OutOfMemory>
    ensures { IfOk result (λ r. r.items ≡ low.now ++ high.now) }
{
    let mut out = low.to_vec(alloc)?;
    out.extend_from_slice(high)?;
    Ok(out)
}

/// Whether the number isn't 0.
pub fn any(net: &mut Net, bits: &[Bit]) -> Result<Bit, OutOfMemory>
    requires bits_in { AreIn net.old bits.now }
    requires room { length net.old + length bits.now ≤ 2 ^ 31 }
    ensures grown { Grown (length bits.now) net.old net.new }
    ensures value { IfOk result (λ r. Means net.new r (λ v. not (nat_eq (number v net.old bits.now) 0))) }
{
    let mut none = net.yes();
    for i in 0..bits.len() {
        none = net.and(none, not(bits[i]))?;
    }
    Ok(not(none))
}

/// The same, by a bit that tells it already where one is known. A digit alone needs none.
pub fn nonzero(alloc: Global, net: &mut Net, bits: &[Bit]) -> Result<Bit, OutOfMemory>
    requires bits_in { AreIn net.old bits.now }
    requires few { length bits.now ≤ 64 }
    requires room { length net.old + length bits.now ≤ 2 ^ 31 }
    ensures grown { Grown (length bits.now) net.old net.new }
    ensures value { IfOk result (λ r. Means net.new r (λ v. not (nat_eq (number v net.old bits.now) 0))) }
{
    if lone_digit(bits).is_some() {
        return any(net, bits);
    }
    let zero = zeros(alloc, net, bits.len())?;
    if let Some(equal) = net.known_equal(alloc, bits, &zero) {
        return Ok(not(equal));
    }
    let some = any(net, bits)?;
    net.note_equal(alloc, bits, &zero, not(some));
    Ok(some)
}

/// `yes` where the test is true, else `other`.
pub fn choose(
    alloc: Global,
    net: &mut Net,
    test: Bit,
    yes: &[Bit],
    other: &[Bit],
) -> Result<Vec<Bit>, OutOfMemory>
    requires test_in { IsIn net.old test }
    requires same { length other.now ≡ length yes.now }
    requires yes_in { AreIn net.old yes.now }
    requires other_in { AreIn net.old other.now }
    requires room { length net.old + 3 * length yes.now ≤ 2 ^ 31 }
    ensures grown { Grown (3 * length yes.now) net.old net.new }
    ensures value { IfOk result (λ r. Counts net.new r.items (length yes.now)
        (λ v. cond (holds v net.old test) (number v net.old yes.now) (number v net.old other.now))) }
{
    let mut out = Vec::new(alloc);
    for i in 0..yes.len() {
        let bit = pick(net, test, yes[i], other[i])?;
        out.push(bit)?;
    }
    Ok(out)
}

/// A gate at each pair of digits.
pub fn bitwise(
    alloc: Global,
    net: &mut Net,
    kind: Gate,
    a: &[Bit],
    b: &[Bit],
) -> Result<Vec<Bit>, OutOfMemory>
    requires same { length b.now ≡ length a.now }
    requires a_in { AreIn net.old a.now }
    requires b_in { AreIn net.old b.now }
    requires room { length net.old + 3 * length a.now ≤ 2 ^ 31 }
    ensures grown { Grown (3 * length a.now) net.old net.new }
    ensures value { IfOk result (λ r. Counts net.new r.items (length a.now)
        (λ v. digits_of kind (number v net.old a.now) (number v net.old b.now))) }
{
    let mut out = Vec::new(alloc);
    for i in 0..a.len() {
        let bit = apply_gate(net, kind, a[i], b[i])?;
        out.push(bit)?;
    }
    Ok(out)
}

/// The sum of a, b and c, one digit longer than they are.
pub fn sum(
    alloc: Global,
    net: &mut Net,
    a: &[Bit],
    b: &[Bit],
    c: Bit,
) -> Result<Vec<Bit>, OutOfMemory>
    requires same { length b.now ≡ length a.now }
    requires a_in { AreIn net.old a.now }
    requires b_in { AreIn net.old b.now }
    requires c_in { IsIn net.old c }
    requires room { length net.old + 7 * length a.now ≤ 2 ^ 31 }
    ensures grown { Grown (7 * length a.now) net.old net.new }
    ensures value { IfOk result (λ r. Counts net.new r.items (length a.now + 1)
        (λ v. number v net.old a.now + number v net.old b.now + digit (holds v net.old c))) }
{
    let mut carry = c;
    let mut out = Vec::new(alloc);
    for i in 0..a.len() {
        let digits = full(net, a[i], b[i], carry)?;
        out.push(digits.low)?;
        carry = digits.high;
    }
    out.push(carry)?;
    Ok(out)
}

/// a - b + 2^n at n digits, one digit longer: its highest digit is 0 where a is below b.
pub fn difference(
    alloc: Global,
    net: &mut Net,
    a: &[Bit],
    b: &[Bit],
) -> Result<Vec<Bit>, OutOfMemory>
    requires same { length b.now ≡ length a.now }
    requires a_in { AreIn net.old a.now }
    requires b_in { AreIn net.old b.now }
    requires room { length net.old + 7 * length a.now ≤ 2 ^ 31 }
    ensures grown { Grown (7 * length a.now) net.old net.new }
    ensures value { IfOk result (λ r. Counts net.new r.items (length a.now + 1)
        (λ v. number v net.old a.now + (2 ^ length a.now - number v net.old b.now))) }
{
    let other = flipped(alloc, b)?;
    let yes = net.yes();
    let out = sum(alloc, net, a, &other, yes)?;
    Ok(out)
}

/// Whether a is below b, from the lowest digit up.
pub fn smaller(net: &mut Net, a: &[Bit], b: &[Bit]) -> Result<Bit, OutOfMemory>
    requires same { length b.now ≡ length a.now }
    requires a_in { AreIn net.old a.now }
    requires b_in { AreIn net.old b.now }
    requires room { length net.old + 4 * length a.now ≤ 2 ^ 31 }
    ensures grown { Grown (4 * length a.now) net.old net.new }
    ensures value { IfOk result (λ r. Means net.new r (λ v. nat_lt (number v net.old a.now) (number v net.old b.now))) }
{
    let mut less = not(net.yes());
    for i in 0..a.len() {
        less = compared(net, a[i], b[i], less)?;
    }
    Ok(less)
}
