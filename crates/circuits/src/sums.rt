// Addition, subtraction and comparisons in a type.
ghost use Rattle.std.specs.Prelude.{◌≡◌, ℕ, ◌+◌, ◌-◌, ◌*◌, ◌≤◌, ◌<◌, ◌^◌, IfOk, cond, not, ◌&&◌, int_lt, length};
ghost use Rattle.std.specs.Ordering.{int_eq};
ghost use Rattle.c_core.specs.Types.{is_signed, promote_of, width_of};
ghost use Rattle.c_core.specs.Operators.{apply_of};
ghost use Rattle.c_core.specs.declared.number.BinOp.TheVariants.{Add, Sub};
ghost use Rattle.circuits.specs.Net.{holds, xor, Grown, Means, IsIn};
ghost use Rattle.circuits.specs.Numbers.{typed, AreTyped};
ghost use Rattle.circuits.specs.Outcome.{Gives};

use crate::gates::{Gate, pick, xor};
use crate::lists::{any, bitwise, difference, smaller, sum};
use crate::signs::sign;
use crate::{Bit, Bits, Net, Outcome, not};
use c_core::{DataModel, IntType, signed};
use std::alloc::Global;
use wv_base::{OutOfMemory, Seq};

// whether a sum has another sign than both of its terms
fn turned(net: &mut Net, a: Bit, b: Bit, total: Bit) -> Result<Bit, OutOfMemory>
    requires a_in { IsIn net.old a }
    requires b_in { IsIn net.old b }
    requires total_in { IsIn net.old total }
    requires room { length net.old + 7 ≤ 2 ^ 31 }
    ensures grown { Grown 7 net.old net.new }
    ensures value { IfOk result (λ r. Means net.new r (λ v. not (xor (holds v net.old a) (holds v net.old b)) && xor
        (holds v net.old a) (holds v net.old total))) }
{
    let apart = xor(net, a, b)?;
    let other = xor(net, a, total)?;
    let turned = net.and(not(apart), other)?;
    Ok(turned)
}

// a sum, and whether it overflows
fn added(
    alloc: Global,
    net: &mut Net,
    model: DataModel,
    ty: IntType,
    a: &[Bit],
    b: &[Bit],
) -> Result<Outcome, OutOfMemory>
    requires promoted { promote_of ty ≡ ty }
    requires a_in { AreTyped model ty net.old a.now }
    requires b_in { AreTyped model ty net.old b.now }
    requires room { length net.old + 16 * width_of model ty ≤ 2 ^ 31 }
    ensures grown { Grown (16 * width_of model ty) net.old net.new }
    ensures value { IfOk result (λ r. Gives model ty net.new r
        (λ v. apply_of model Add ty (typed model ty v net.old a.now) (typed model ty v net.old b.now))) }
{
    let never = not(net.yes());
    let mut total = sum(alloc, net, a, b, never)?;
    total.truncate(a.len());
    let left = sign(net, ty, a);
    let right = sign(net, ty, b);
    let made = sign(net, ty, &total);
    let overflow = turned(net, left, right, made)?;
    let bits = Seq::from_vec(total);
    Ok(Outcome {
        value: Bits { bits },
        overflow,
        undefined: never,
    })
}

/// A sum, and whether it overflows.
pub fn add(
    alloc: Global,
    net: &mut Net,
    model: DataModel,
    ty: IntType,
    a: &[Bit],
    b: &[Bit],
) -> Result<Outcome, OutOfMemory>
    requires promoted { promote_of ty ≡ ty }
    requires a_in { AreTyped model ty net.old a.now }
    requires b_in { AreTyped model ty net.old b.now }
    requires room { length net.old + 16 * width_of model ty ≤ 2 ^ 31 }
    ensures grown { Grown (16 * width_of model ty) net.old net.new }
    ensures value { IfOk result (λ r. Gives model ty net.new r
        (λ v. apply_of model Add ty (typed model ty v net.old a.now) (typed model ty v net.old b.now))) }
{
    let out = added(alloc, net, model, ty, a, b)?;
    net.note_combined(alloc, a, 1, b, out.value.bits.as_slice());
    Ok(out)
}

// a difference, and whether it overflows
fn subtracted(
    alloc: Global,
    net: &mut Net,
    model: DataModel,
    ty: IntType,
    a: &[Bit],
    b: &[Bit],
) -> Result<Outcome, OutOfMemory>
    requires promoted { promote_of ty ≡ ty }
    requires a_in { AreTyped model ty net.old a.now }
    requires b_in { AreTyped model ty net.old b.now }
    requires room { length net.old + 16 * width_of model ty ≤ 2 ^ 31 }
    ensures grown { Grown (16 * width_of model ty) net.old net.new }
    ensures value { IfOk result (λ r. Gives model ty net.new r
        (λ v. apply_of model Sub ty (typed model ty v net.old a.now) (typed model ty v net.old b.now))) }
{
    let never = not(net.yes());
    let mut rest = difference(alloc, net, a, b)?;
    rest.truncate(a.len());
    let left = sign(net, ty, a);
    let right = sign(net, ty, b);
    let made = sign(net, ty, &rest);
    let overflow = turned(net, left, not(right), made)?;
    let bits = Seq::from_vec(rest);
    Ok(Outcome {
        value: Bits { bits },
        overflow,
        undefined: never,
    })
}

/// A difference, and whether it overflows.
pub fn subtract(
    alloc: Global,
    net: &mut Net,
    model: DataModel,
    ty: IntType,
    a: &[Bit],
    b: &[Bit],
) -> Result<Outcome, OutOfMemory>
    requires promoted { promote_of ty ≡ ty }
    requires a_in { AreTyped model ty net.old a.now }
    requires b_in { AreTyped model ty net.old b.now }
    requires room { length net.old + 16 * width_of model ty ≤ 2 ^ 31 }
    ensures grown { Grown (16 * width_of model ty) net.old net.new }
    ensures value { IfOk result (λ r. Gives model ty net.new r
        (λ v. apply_of model Sub ty (typed model ty v net.old a.now) (typed model ty v net.old b.now))) }
{
    let out = subtracted(alloc, net, model, ty, a, b)?;
    net.note_combined(alloc, a, u64::MAX, b, out.value.bits.as_slice());
    Ok(out)
}

// what a number of a type is moved by, so that two compare as unsigned ones: the sign digit of signed types
fn sign_digit(ty: IntType, width: usize) -> u64
    requires some { 0 < width }
    requires few { width ≤ 64 }
    ensures { result ≡ cond (is_signed ty) (2 ^ (width - 1)) 0 }
{
    if signed(ty) { 1 << (width - 1) } else { 0 }
}

// whether a is below b, bit by bit
fn below_in_bits(
    net: &mut Net,
    model: DataModel,
    ty: IntType,
    a: &[Bit],
    b: &[Bit],
) -> Result<Bit, OutOfMemory>
    requires promoted { promote_of ty ≡ ty }
    requires a_in { AreTyped model ty net.old a.now }
    requires b_in { AreTyped model ty net.old b.now }
    requires room { length net.old + 16 * width_of model ty ≤ 2 ^ 31 }
    ensures grown { Grown (16 * width_of model ty) net.old net.new }
    ensures value { IfOk result (λ r. Means net.new r
        (λ v. int_lt (typed model ty v net.old a.now) (typed model ty v net.old b.now))) }
{
    let less = smaller(net, a, b)?;
    let left = sign(net, ty, a);
    let right = sign(net, ty, b);
    let apart = xor(net, left, right)?;
    let below = pick(net, apart, left, less)?;
    Ok(below)
}

/// Whether a is below b.
pub fn below(
    net: &mut Net,
    model: DataModel,
    ty: IntType,
    a: &[Bit],
    b: &[Bit],
) -> Result<Bit, OutOfMemory>
    requires promoted { promote_of ty ≡ ty }
    requires a_in { AreTyped model ty net.old a.now }
    requires b_in { AreTyped model ty net.old b.now }
    requires room { length net.old + 16 * width_of model ty ≤ 2 ^ 31 }
    ensures grown { Grown (16 * width_of model ty) net.old net.new }
    ensures value { IfOk result (λ r. Means net.new r
        (λ v. int_lt (typed model ty v net.old a.now) (typed model ty v net.old b.now))) }
{
    let below = below_in_bits(net, model, ty, a, b)?;
    let offset = sign_digit(ty, a.len());
    net.note_below(a, b, offset, below);
    Ok(below)
}

// whether a and b are different numbers, bit by bit
fn differ_in_bits(
    alloc: Global,
    net: &mut Net,
    model: DataModel,
    ty: IntType,
    a: &[Bit],
    b: &[Bit],
) -> Result<Bit, OutOfMemory>
    requires a_in { AreTyped model ty net.old a.now }
    requires b_in { AreTyped model ty net.old b.now }
    requires room { length net.old + 16 * width_of model ty ≤ 2 ^ 31 }
    ensures grown { Grown (16 * width_of model ty) net.old net.new }
    ensures value { IfOk result (λ r. Means net.new r
        (λ v. not (int_eq (typed model ty v net.old a.now) (typed model ty v net.old b.now)))) }
{
    let apart = bitwise(alloc, net, Gate::Xor, a, b)?;
    let differ = any(net, &apart)?;
    Ok(differ)
}

/// Whether a and b are different numbers: by a bit that tells it already, where one is known.
pub fn differ(
    alloc: Global,
    net: &mut Net,
    model: DataModel,
    ty: IntType,
    a: &[Bit],
    b: &[Bit],
) -> Result<Bit, OutOfMemory>
    requires a_in { AreTyped model ty net.old a.now }
    requires b_in { AreTyped model ty net.old b.now }
    requires room { length net.old + 16 * width_of model ty ≤ 2 ^ 31 }
    ensures grown { Grown (16 * width_of model ty) net.old net.new }
    ensures value { IfOk result (λ r. Means net.new r
        (λ v. not (int_eq (typed model ty v net.old a.now) (typed model ty v net.old b.now)))) }
{
    if let Some(equal) = net.known_equal(alloc, a, b) {
        return Ok(not(equal));
    }
    let differ = differ_in_bits(alloc, net, model, ty, a, b)?;
    net.note_equal(alloc, a, b, not(differ));
    Ok(differ)
}
