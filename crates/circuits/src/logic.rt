// Truth values, conversions and bit operators in a type.
ghost use Rattle.std.specs.Prelude.{◌≡◌, ℕ, ◌+◌, ◌*◌, ◌≤◌, ◌^◌, IfOk, ℤ, Bool, true, length, cond};
ghost use Rattle.c_core.specs.Types.{promote_of, width_of, is_zero, fit};
ghost use Rattle.c_core.specs.Operators.{apply_one_of, truth, bits};
ghost use Rattle.c_core.specs.declared.number.IntType.TheVariants.{Int};
ghost use Rattle.c_core.specs.declared.number.UnOp.TheVariants.{BitNot};
ghost use Rattle.circuits.specs.Net.{holds, Grown, Means, IsIn};
ghost use Rattle.circuits.specs.Numbers.{typed, AreTyped};
ghost use Rattle.circuits.specs.Gates.{digits_of};
ghost use Rattle.circuits.specs.Outcome.{Gives};

use crate::gates::Gate;
use crate::lists::{any, bitwise, flipped, joined, zeros};
use crate::signs::sign;
use crate::types::width;
use crate::{Bit, Bits, Net, Outcome, not};
use c_core::{DataModel, IntType};
use std::alloc::Global;
use wv_base::{OutOfMemory, Seq};

/// 0 or 1 as an `int`.
pub fn truth_bits(
    alloc: Global,
    net: &Net,
    model: DataModel,
    bit: Bit,
) -> Result<Outcome, OutOfMemory>
    requires bit_in { IsIn net.now bit }
    ensures { IfOk result (λ r. Gives model Int net.now r (λ v. truth (holds v net.now bit))) }
{
    let gap = zeros(alloc, net, 31)?;
    let value = joined(alloc, &[bit], &gap)?;
    let never = not(net.yes());
    let bits = Seq::from_vec(value);
    Ok(Outcome {
        value: Bits { bits },
        overflow: never,
        undefined: never,
    })
}

/// A bit operator of both numbers' digits.
pub fn bit_operator(
    alloc: Global,
    net: &mut Net,
    model: DataModel,
    kind: Gate,
    ty: IntType,
    a: &[Bit],
    b: &[Bit],
) -> Result<Outcome, OutOfMemory>
    requires promoted { promote_of ty ≡ ty }
    requires a_in { AreTyped model ty net.old a.now }
    requires b_in { AreTyped model ty net.old b.now }
    requires room { length net.old + 4 * width_of model ty ≤ 2 ^ 31 }
    ensures grown { Grown (4 * width_of model ty) net.old net.new }
    ensures value { IfOk result (λ r. Gives model ty net.new r
        (λ v. bits model ty (digits_of kind) (typed model ty v net.old a.now) (typed model ty v net.old b.now))) }
{
    let never = not(net.yes());
    let value = bitwise(alloc, net, kind, a, b)?;
    let bits = Seq::from_vec(value);
    Ok(Outcome {
        value: Bits { bits },
        overflow: never,
        undefined: never,
    })
}

/// The bitwise complement (ISO C11 6.5.3.3); no node is added.
pub fn complement(
    alloc: Global,
    net: &Net,
    model: DataModel,
    ty: IntType,
    a: &[Bit],
) -> Result<Outcome, OutOfMemory>
    requires promoted { promote_of ty ≡ ty }
    requires a_in { AreTyped model ty net.now a.now }
    ensures { IfOk result (λ r. Gives model ty net.now r
        (λ v. apply_one_of model BitNot ty (typed model ty v net.now a.now))) }
{
    let value = flipped(alloc, a)?;
    let never = not(net.yes());
    let bits = Seq::from_vec(value);
    Ok(Outcome {
        value: Bits { bits },
        overflow: never,
        undefined: never,
    })
}
