// Comparisons, which give an `int`.
ghost use Rattle.std.specs.Prelude.{◌≡◌, ◌+◌, ◌*◌, ◌≤◌, ◌^◌, IfOk, length};
ghost use Rattle.c_core.specs.Types.{promote_of, width_of};
ghost use Rattle.c_core.specs.Operators.{apply_of};
ghost use Rattle.c_core.specs.declared.number.IntType.TheVariants.{Int};
ghost use Rattle.c_core.specs.declared.number.BinOp.TheVariants.{Lt, Le, Eq, Ne};
ghost use Rattle.circuits.specs.Net.{Grown};
ghost use Rattle.circuits.specs.Numbers.{typed, AreTyped};
ghost use Rattle.circuits.specs.Outcome.{Gives};

use crate::logic::truth_bits;
use crate::sums::{below, differ};
use crate::{Bit, Net, Outcome, not};
use c_core::{DataModel, IntType};
use std::alloc::Global;
use wv_base::OutOfMemory;

/// Whether one number is less than another.
pub fn less(
    alloc: Global,
    net: &mut Net,
    model: DataModel,
    ty: IntType,
    a: &[Bit],
    b: &[Bit],
) -> Result<Outcome, OutOfMemory>
    requires promoted { promote_of ty ≡ ty }
    requires a_in { AreTyped model ty net.old a.now }
    requires b_in { AreTyped model ty net.old b.now }
    requires room { length net.old + 16 * width_of model ty ≤ 2 ^ 31 }
    ensures grown { Grown (16 * width_of model ty) net.old net.new }
    ensures value { IfOk result (λ r. Gives model Int net.new r
        (λ v. apply_of model Lt ty (typed model ty v net.old a.now) (typed model ty v net.old b.now))) }
{
    let less = below(net, model, ty, a, b)?;
    let out = truth_bits(alloc, net, model, less)?;
    Ok(out)
}

/// Whether one number is at most another.
pub fn at_most(
    alloc: Global,
    net: &mut Net,
    model: DataModel,
    ty: IntType,
    a: &[Bit],
    b: &[Bit],
) -> Result<Outcome, OutOfMemory>
    requires promoted { promote_of ty ≡ ty }
    requires a_in { AreTyped model ty net.old a.now }
    requires b_in { AreTyped model ty net.old b.now }
    requires room { length net.old + 16 * width_of model ty ≤ 2 ^ 31 }
    ensures grown { Grown (16 * width_of model ty) net.old net.new }
    ensures value { IfOk result (λ r. Gives model Int net.new r
        (λ v. apply_of model Le ty (typed model ty v net.old a.now) (typed model ty v net.old b.now))) }
{
    let more = below(net, model, ty, b, a)?;
    let out = truth_bits(alloc, net, model, not(more))?;
    Ok(out)
}

/// Whether two numbers are equal.
pub fn equal(
    alloc: Global,
    net: &mut Net,
    model: DataModel,
    ty: IntType,
    a: &[Bit],
    b: &[Bit],
) -> Result<Outcome, OutOfMemory>
    requires a_in { AreTyped model ty net.old a.now }
    requires b_in { AreTyped model ty net.old b.now }
    requires room { length net.old + 16 * width_of model ty ≤ 2 ^ 31 }
    ensures grown { Grown (16 * width_of model ty) net.old net.new }
    ensures value { IfOk result (λ r. Gives model Int net.new r
        (λ v. apply_of model Eq ty (typed model ty v net.old a.now) (typed model ty v net.old b.now))) }
{
    let other = differ(alloc, net, model, ty, a, b)?;
    let out = truth_bits(alloc, net, model, not(other))?;
    Ok(out)
}

/// Whether two numbers differ.
pub fn unequal(
    alloc: Global,
    net: &mut Net,
    model: DataModel,
    ty: IntType,
    a: &[Bit],
    b: &[Bit],
) -> Result<Outcome, OutOfMemory>
    requires a_in { AreTyped model ty net.old a.now }
    requires b_in { AreTyped model ty net.old b.now }
    requires room { length net.old + 16 * width_of model ty ≤ 2 ^ 31 }
    ensures grown { Grown (16 * width_of model ty) net.old net.new }
    ensures value { IfOk result (λ r. Gives model Int net.new r
        (λ v. apply_of model Ne ty (typed model ty v net.old a.now) (typed model ty v net.old b.now))) }
{
    let other = differ(alloc, net, model, ty, a, b)?;
    let out = truth_bits(alloc, net, model, other)?;
    Ok(out)
}
