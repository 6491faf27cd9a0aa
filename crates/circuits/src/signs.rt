// Signs and magnitudes of numbers in two's complement.
ghost use Rattle.std.specs.Prelude.{◌≡◌, ℕ, ◌+◌, ◌-◌, ◌*◌, ◌%◌, ◌≤◌, ◌<◌, ◌^◌, ◌&&◌, IfOk, cond, not, nat_lt, length};
ghost use Rattle.c_core.specs.Types.{is_signed};
ghost use Rattle.circuits.specs.Net.{holds, Grown, Means, IsIn};
ghost use Rattle.circuits.specs.Numbers.{number, digit, AreIn, Counts};
ghost use Rattle.circuits.specs.Gates.{negative, size};

use crate::conversions::constant;
use crate::lists::{choose, copied, difference, flipped, joined, smaller, zeros};
use crate::{Bit, Net, not};
use c_core::{IntType, signed};
use std::alloc::Global;
use wv_base::OutOfMemory;

/// Whether the number is negative in the type.
pub fn sign(net: &Net, ty: IntType, a: &[Bit]) -> Bit
    requires some { 0 < length a.now }
    requires a_in { AreIn net.now a.now }
    ensures { Means net.now result (λ v. negative (length a.now) (is_signed ty) (number v net.now a.now)) }
{
    if signed(ty) {
        return a[a.len() - 1];
    }
    not(net.yes())
}

/// The opposite number where the test is true, else the number itself.
pub fn with_sign(
    alloc: Global,
    net: &mut Net,
    test: Bit,
    a: &[Bit],
) -> Result<Vec<Bit>, OutOfMemory>
    requires test_in { IsIn net.old test }
    requires a_in { AreIn net.old a.now }
    requires room { length net.old + 10 * length a.now ≤ 2 ^ 31 }
    ensures grown { Grown (10 * length a.now) net.old net.new }
    ensures value { IfOk result (λ r. Counts net.new r.items (length a.now)
        (λ v. cond (holds v net.old test) ((2 ^ length a.now - number v net.old a.now) % 2 ^ length a.now)
        (number v net.old a.now))) }
{
    // (as of all numbers of unsigned types)
    if test == not(net.yes()) {
        let same = copied(alloc, a)?;
        return Ok(same);
    }
    let zero = zeros(alloc, net, a.len())?;
    let mut opposite = difference(alloc, net, &zero, a)?;
    opposite.truncate(a.len());
    let out = choose(alloc, net, test, &opposite, a)?;
    Ok(out)
}

/// The complement where the test is true, else the number itself.
pub fn complemented(
    alloc: Global,
    net: &mut Net,
    test: Bit,
    a: &[Bit],
) -> Result<Vec<Bit>, OutOfMemory>
    requires test_in { IsIn net.old test }
    requires a_in { AreIn net.old a.now }
    requires room { length net.old + 3 * length a.now ≤ 2 ^ 31 }
    ensures grown { Grown (3 * length a.now) net.old net.new }
    ensures value { IfOk result (λ r. Counts net.new r.items (length a.now)
        (λ v. cond (holds v net.old test) (2 ^ length a.now - 1 - number v net.old a.now) (number v net.old a.now))) }
{
    let other = flipped(alloc, a)?;
    let out = choose(alloc, net, test, &other, a)?;
    Ok(out)
}

/// The distance of a number from 0.
pub fn magnitude(
    alloc: Global,
    net: &mut Net,
    ty: IntType,
    a: &[Bit],
) -> Result<Vec<Bit>, OutOfMemory>
    requires some { 0 < length a.now }
    requires a_in { AreIn net.old a.now }
    requires room { length net.old + 10 * length a.now ≤ 2 ^ 31 }
    ensures grown { Grown (10 * length a.now) net.old net.new }
    ensures value { IfOk result (λ r. Counts net.new r.items (length a.now)
        (λ v. size (length a.now) (is_signed ty) (number v net.old a.now))) }
{
    let test = sign(net, ty, a);
    let out = with_sign(alloc, net, test, a)?;
    Ok(out)
}

// the least distance from 0 that w digits don't hold, in n digits: 2^(w-1), and one more where the test is true
fn limit(alloc: Global, net: &Net, test: Bit, w: usize, n: usize) -> Result<Vec<Bit>, OutOfMemory>
    requires some { 1 < w }
    requires within { w ≤ n }
    requires test_in { IsIn net.now test }
    ensures { IfOk result (λ r. Counts net.now r.items n (λ v. 2 ^ (w - 1) + digit (holds v net.now test))) }
{
    let gap = zeros(alloc, net, w - 2)?;
    let rest = zeros(alloc, net, n - w)?;
    let mut low = joined(alloc, &[test], &gap)?;
    low.push(net.yes())?;
    let out = joined(alloc, &low, &rest)?;
    Ok(out)
}

/// Whether the type is signed and its w digits don't hold the number of this sign and of this distance from 0.
pub fn exceeds(
    alloc: Global,
    net: &mut Net,
    ty: IntType,
    w: usize,
    test: Bit,
    distance: &[Bit],
) -> Result<Bit, OutOfMemory>
    requires some { 1 < w }
    requires within { w ≤ length distance.now }
    requires test_in { IsIn net.old test }
    requires distance_in { AreIn net.old distance.now }
    requires room { length net.old + (4 * length distance.now + 1) ≤ 2 ^ 31 }
    ensures grown { Grown (4 * length distance.now + 1) net.old net.new }
    ensures value { IfOk result (λ r. Means net.new r
        (λ v. is_signed ty && not (nat_lt (number v net.old distance.now)
        (2 ^ (w - 1) + digit (holds v net.old test))))) }
{
    let least = limit(alloc, net, test, w, distance.len())?;
    let less = smaller(net, distance, &least)?;
    let kind = constant(net, signed(ty));
    let exceeds = net.and(kind, not(less))?;
    Ok(exceeds)
}
