// Operators of one number.
ghost use Rattle.std.specs.Prelude.{◌≡◌, ◌+◌, ◌*◌, ◌≤◌, ◌<◌, ◌^◌, IfOk, length};
ghost use Rattle.c_core.specs.Types.{promote_of, width_of};
ghost use Rattle.c_core.specs.Operators.{apply_one_of};
ghost use Rattle.c_core.specs.declared.number.IntType.TheVariants.{Int};
ghost use Rattle.c_core.specs.declared.number.UnOp.TheVariants.{Plus, Neg, Not};
ghost use Rattle.circuits.specs.Net.{Grown};
ghost use Rattle.circuits.specs.Numbers.{typed, AreTyped};
ghost use Rattle.circuits.specs.Outcome.{Gives, one_type, one_cost};

use crate::lists::{copied, nonzero, zeros};
use crate::logic::{complement, truth_bits};
use crate::sums::subtract;
use crate::{Bit, Bits, Net, Outcome, not};
use c_core::{DataModel, IntType, UnOp};
use std::alloc::Global;
use wv_base::{OutOfMemory, Seq};

fn unchanged(
    alloc: Global,
    net: &Net,
    model: DataModel,
    ty: IntType,
    a: &[Bit],
) -> Result<Outcome, OutOfMemory>
    requires a_in { AreTyped model ty net.now a.now }
    ensures { IfOk result (λ r. Gives model ty net.now r
        (λ v. apply_one_of model Plus ty (typed model ty v net.now a.now))) }
{
    let never = not(net.yes());
    let value = copied(alloc, a)?;
    let bits = Seq::from_vec(value);
    Ok(Outcome {
        value: Bits { bits },
        overflow: never,
        undefined: never,
    })
}

fn negate(
    alloc: Global,
    net: &mut Net,
    model: DataModel,
    ty: IntType,
    a: &[Bit],
) -> Result<Outcome, OutOfMemory>
    requires promoted { promote_of ty ≡ ty }
    requires a_in { AreTyped model ty net.old a.now }
    requires room { length net.old + 16 * width_of model ty ≤ 2 ^ 31 }
    ensures grown { Grown (16 * width_of model ty) net.old net.new }
    ensures value { IfOk result (λ r. Gives model ty net.new r
        (λ v. apply_one_of model Neg ty (typed model ty v net.old a.now))) }
{
    let zero = zeros(alloc, net, a.len())?;
    let out = subtract(alloc, net, model, ty, &zero, a)?;
    Ok(out)
}

// 1 for 0, else 0
fn is_zero(
    alloc: Global,
    net: &mut Net,
    model: DataModel,
    ty: IntType,
    a: &[Bit],
) -> Result<Outcome, OutOfMemory>
    requires a_in { AreTyped model ty net.old a.now }
    requires room { length net.old + width_of model ty ≤ 2 ^ 31 }
    ensures grown { Grown (width_of model ty) net.old net.new }
    ensures value { IfOk result (λ r. Gives model Int net.new r
        (λ v. apply_one_of model Not ty (typed model ty v net.old a.now))) }
{
    let some = nonzero(alloc, net, a)?;
    let out = truth_bits(alloc, net, model, not(some))?;
    Ok(out)
}

/// An operator of one number of a promoted type (ISO C11 6.5.3.3).
pub fn one_bits(
    alloc: Global,
    net: &mut Net,
    model: DataModel,
    op: UnOp,
    ty: IntType,
    a: &Bits,
) -> Result<Outcome, OutOfMemory>
    requires promoted { promote_of ty ≡ ty }
    requires a_in { AreTyped model ty net.old a.now.bits }
    requires room { length net.old < 2 ^ 28 }
    ensures grown { Grown (one_cost model op ty) net.old net.new }
    ensures value { IfOk result (λ r. Gives model (one_type op ty) net.new r
        (λ v. apply_one_of model op ty (typed model ty v net.old a.now.bits))) }
{
    let digits = a.bits.as_slice();
    match op {
        UnOp::Plus => {
            let out = unchanged(alloc, net, model, ty, digits)?;
            Ok(out)
        }
        UnOp::Neg => {
            let out = negate(alloc, net, model, ty, digits)?;
            Ok(out)
        }
        UnOp::BitNot => {
            let out = complement(alloc, net, model, ty, digits)?;
            Ok(out)
        }
        UnOp::Not => {
            let out = is_zero(alloc, net, model, ty, digits)?;
            Ok(out)
        }
    }
}
