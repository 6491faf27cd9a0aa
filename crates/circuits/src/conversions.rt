// Constants and conversions.
ghost use Rattle.std.specs.Prelude.{◌≡◌, ℕ, Bool, ◌+◌, ◌-◌, ◌*◌, ◌%◌, ◌≤◌, ◌<◌, ◌^◌, IfOk, IsTrue, length, pos};
ghost use Rattle.c_core.specs.Types.{width_of, in_range, residue, fit};
ghost use Rattle.circuits.specs.Net.{holds, Grown, Means, IsIn};
ghost use Rattle.circuits.specs.Numbers.{number, digit, typed, AreIn, AreTyped, Counts, Reads};
ghost use Rattle.circuits.specs.Outcome.{conversion_cost};

use crate::lists::{copied, joined, nonzero};
use crate::signs::sign;
use crate::types::width;
use crate::{Bit, Net, not};
use c_core::{DataModel, IntType};
use std::alloc::Global;
use wv_base::OutOfMemory;

/// A bit that is this constant under every input.
pub fn constant(net: &Net, value: bool) -> Bit
    ensures { Means net.now result (λ v. value) }
{
    if value {
        return net.yes();
    }
    not(net.yes())
}

/// The lowest n digits of a number.
fn digits(alloc: Global, net: &Net, n: usize, number: u128) -> Result<Vec<Bit>, OutOfMemory>
    ensures { IfOk result (λ r. Counts net.now r.items n (λ v. number % 2 ^ n)) }
{
    let mut rest = number;
    let mut out = Vec::new(alloc);
    for i in 0..n {
        let odd = rest % 2 == 1;
        let bit = constant(net, odd);
        out.push(bit)?;
        rest /= 2;
    }
    Ok(out)
}

/// The number of values of a type.
fn modulus(model: DataModel, ty: IntType) -> i128
    ensures { result ≡ pos (2 ^ width_of model ty) }
{
    match ty {
        IntType::Bool => 2,
        IntType::Char | IntType::SChar | IntType::UChar => 256,
        IntType::Short | IntType::UShort => 65536,
        IntType::Int | IntType::UInt => 4294967296,
        IntType::Long | IntType::ULong => match model {
            DataModel::Ilp32 => 4294967296,
            DataModel::Lp64 => 18446744073709551616,
        },
        IntType::LongLong | IntType::ULongLong => 18446744073709551616,
    }
}

fn residue_in(model: DataModel, ty: IntType, v: i128) -> u128
    ensures { result ≡ residue (width_of model ty) v }
{
    v.rem_euclid(modulus(model, ty)) as u128
}

/// The digits of a constant in a type, the lowest first; no node is added.
pub fn constant_bits(
    alloc: Global,
    net: &Net,
    model: DataModel,
    ty: IntType,
    v: i128,
) -> Result<Vec<Bit>, OutOfMemory>
    requires { IsTrue (in_range model ty v) }
    ensures { IfOk result (λ r. Reads model ty net.now r.items (λ i. v)) }
{
    let rest = residue_in(model, ty, v);
    let out = digits(alloc, net, width(model, ty), rest)?;
    Ok(out)
}

/// A bit n times.
fn repeated(alloc: Global, net: &Net, bit: Bit, n: usize) -> Result<Vec<Bit>, OutOfMemory>
    requires bit_in { IsIn net.now bit }
    ensures { IfOk result (λ r. Counts net.now r.items n (λ v. digit (holds v net.now bit) * (2 ^ n - 1))) }
{
    let _ = net.nodes();
    let mut out = Vec::new(alloc);
    for i in 0..n {
        out.push(bit)?;
    }
    Ok(out)
}

/// The digits in a type other than `_Bool`: the lowest, or all with the sign before them.
fn resized(
    alloc: Global,
    net: &mut Net,
    model: DataModel,
    from: IntType,
    to: IntType,
    a: &[Bit],
) -> Result<Vec<Bit>, OutOfMemory>
    requires a_in { AreTyped model from net.old a.now }
    requires other { to ≡ IntType.Bool → ⊥ }
    ensures same { net.new ≡ net.old }
    ensures value { IfOk result (λ r. Reads model to net.new r.items
        (λ v. fit model to (typed model from v net.old a.now))) }
{
    let n = width(model, to);
    if n <= a.len() {
        let mut low = copied(alloc, a)?;
        low.truncate(n);
        net.note_cut(alloc, a, &low);
        return Ok(low);
    }
    let top = sign(net, from, a);
    let high = repeated(alloc, net, top, n - a.len())?;
    let out = joined(alloc, a, &high)?;
    Ok(out)
}

/// The digits of a number after its conversion to another type (ISO C11 6.3.1.3).
pub fn converted(
    alloc: Global,
    net: &mut Net,
    model: DataModel,
    from: IntType,
    to: IntType,
    a: &[Bit],
) -> Result<Vec<Bit>, OutOfMemory>
    requires a_in { AreTyped model from net.old a.now }
    requires room { length net.old + conversion_cost model from to ≤ 2 ^ 31 }
    ensures grown { Grown (conversion_cost model from to) net.old net.new }
    ensures value { IfOk result (λ r. Reads model to net.new r.items
        (λ v. fit model to (typed model from v net.old a.now))) }
{
    match to {
        IntType::Bool => match from {
            IntType::Bool => {
                let out = copied(alloc, a)?;
                Ok(out)
            }
            _ => {
                let some = nonzero(alloc, net, a)?;
                let mut out = Vec::new(alloc);
                out.push(some)?;
                Ok(out)
            }
        },
        _ => {
            let out = resized(alloc, net, model, from, to, a)?;
            Ok(out)
        }
    }
}
