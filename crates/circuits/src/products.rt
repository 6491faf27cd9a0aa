// Products.
ghost use Rattle.std.specs.Prelude.{◌≡◌, ℕ, ◌+◌, ◌*◌, ◌≤◌, ◌<◌, ◌^◌, IfOk, length};
ghost use Rattle.c_core.specs.Types.{promote_of, width_of, is_signed};
ghost use Rattle.c_core.specs.Operators.{apply_of};
ghost use Rattle.c_core.specs.declared.number.BinOp.TheVariants.{Mul};
ghost use Rattle.circuits.specs.Net.{holds, Grown, IsIn};
ghost use Rattle.circuits.specs.Numbers.{number, digit, typed, AreIn, AreTyped, Counts};
ghost use Rattle.circuits.specs.Gates.{size};
ghost use Rattle.circuits.specs.Outcome.{Gives};

use crate::gates::xor;
use crate::lists::{sum, zeros};
use crate::signs::{exceeds, magnitude, sign, with_sign};
use crate::{Bit, Bits, Net, Outcome, not};
use c_core::{DataModel, IntType};
use std::alloc::Global;
use wv_base::{OutOfMemory, Seq};

// a where b is true, else 0
fn scaled(alloc: Global, net: &mut Net, a: &[Bit], b: Bit) -> Result<Vec<Bit>, OutOfMemory>
    requires a_in { AreIn net.old a.now }
    requires b_in { IsIn net.old b }
    requires room { length net.old + length a.now ≤ 2 ^ 31 }
    ensures grown { Grown (length a.now) net.old net.new }
    ensures value { IfOk result (λ r. Counts net.new r.items (length a.now)
        (λ v. digit (holds v net.old b) * number v net.old a.now)) }
{
    let mut out = Vec::new(alloc);
    for i in 0..a.len() {
        let bit = net.and(a[i], b)?;
        out.push(bit)?;
    }
    Ok(out)
}

// a row of a written multiplication: a from digit i on where b is true, added to the total so far
fn add_row(
    alloc: Global,
    net: &mut Net,
    a: &[Bit],
    b: Bit,
    mut total: Vec<Bit>,
    i: usize,
) -> Result<Vec<Bit>, OutOfMemory>
    requires a_in { AreIn net.old a.now }
    requires b_in { IsIn net.old b }
    requires total_in { AreIn net.old total.items }
    requires wide { length total.items ≡ length a.now + i }
    requires room { length net.old + 8 * length a.now ≤ 2 ^ 31 }
    ensures grown { Grown (8 * length a.now) net.old net.new }
    ensures value { IfOk result (λ r. Counts net.new r.items (length a.now + i + 1)
        (λ v. number v net.old total.items + 2 ^ i * (digit (holds v net.old b) * number v net.old a.now))) }
{
    let row = scaled(alloc, net, a, b)?;
    let never = not(net.yes());
    let mut upper = sum(alloc, net, &total[i..], &row, never)?;
    total.truncate(i);
    total.append(&mut upper)?;
    Ok(total)
}

/// The product, as long as both factors together.
fn product(alloc: Global, net: &mut Net, a: &[Bit], b: &[Bit]) -> Result<Vec<Bit>, OutOfMemory>
    requires a_in { AreIn net.old a.now }
    requires b_in { AreIn net.old b.now }
    requires room { length net.old + length b.now * (8 * length a.now) ≤ 2 ^ 31 }
    ensures grown { Grown (length b.now * (8 * length a.now)) net.old net.new }
    ensures value { IfOk result (λ r. Counts net.new r.items (length a.now + length b.now)
        (λ v. number v net.old a.now * number v net.old b.now)) }
{
    let mut total = zeros(alloc, net, a.len())?;
    for i in 0..b.len() {
        total = add_row(alloc, net, a, b[i], total, i)?;
    }
    Ok(total)
}

// the product of the distances from 0
fn size_of_product(
    alloc: Global,
    net: &mut Net,
    ty: IntType,
    a: &[Bit],
    b: &[Bit],
) -> Result<Vec<Bit>, OutOfMemory>
    requires some { 0 < length a.now }
    requires same { length b.now ≡ length a.now }
    requires few { length a.now ≤ 64 }
    requires a_in { AreIn net.old a.now }
    requires b_in { AreIn net.old b.now }
    requires room { length net.old + (20 * length a.now + length a.now * (8 * length a.now)) ≤ 2 ^ 31 }
    ensures grown { Grown (20 * length a.now + length a.now * (8 * length a.now)) net.old net.new }
    ensures value { IfOk result (λ r. Counts net.new r.items (length a.now + length a.now)
        (λ v. size (length a.now) (is_signed ty) (number v net.old a.now) * size (length a.now) (is_signed ty)
        (number v net.old b.now))) }
{
    let x = magnitude(alloc, net, ty, a)?;
    let y = magnitude(alloc, net, ty, b)?;
    let out = product(alloc, net, &x, &y)?;
    Ok(out)
}

// the product of two numbers in a type
fn multiplied(
    alloc: Global,
    net: &mut Net,
    model: DataModel,
    ty: IntType,
    a: &[Bit],
    b: &[Bit],
) -> Result<Outcome, OutOfMemory>
    requires promoted { promote_of ty ≡ ty }
    requires a_in { AreTyped model ty net.old a.now }
    requires b_in { AreTyped model ty net.old b.now }
    requires room { length net.old + 32 * width_of model ty ^ 2 ≤ 2 ^ 31 }
    ensures grown { Grown (32 * width_of model ty ^ 2) net.old net.new }
    ensures value { IfOk result (λ r. Gives model ty net.new r
        (λ v. apply_of model Mul ty (typed model ty v net.old a.now) (typed model ty v net.old b.now))) }
{
    let never = not(net.yes());
    let left = sign(net, ty, a);
    let right = sign(net, ty, b);
    let mut size = size_of_product(alloc, net, ty, a, b)?;
    let test = xor(net, left, right)?;
    let overflow = exceeds(alloc, net, ty, a.len(), test, &size)?;
    size.truncate(a.len());
    let value = with_sign(alloc, net, test, &size)?;
    let bits = Seq::from_vec(value);
    Ok(Outcome {
        value: Bits { bits },
        overflow,
        undefined: never,
    })
}

/// The product of two numbers in a type.
pub fn multiply(
    alloc: Global,
    net: &mut Net,
    model: DataModel,
    ty: IntType,
    a: &[Bit],
    b: &[Bit],
) -> Result<Outcome, OutOfMemory>
    requires promoted { promote_of ty ≡ ty }
    requires a_in { AreTyped model ty net.old a.now }
    requires b_in { AreTyped model ty net.old b.now }
    requires room { length net.old + 32 * width_of model ty ^ 2 ≤ 2 ^ 31 }
    ensures grown { Grown (32 * width_of model ty ^ 2) net.old net.new }
    ensures value { IfOk result (λ r. Gives model ty net.new r
        (λ v. apply_of model Mul ty (typed model ty v net.old a.now) (typed model ty v net.old b.now))) }
{
    let out = multiplied(alloc, net, model, ty, a, b)?;
    net.note_product(alloc, a, b, out.value.bits.as_slice());
    Ok(out)
}
