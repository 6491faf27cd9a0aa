// Lists of bits that stand for numbers.
ghost use Rattle.std.specs.Prelude.{◌≡◌, ℕ, Bool, ◌+◌, ◌*◌, ◌≤◌, ◌<◌, ◌^◌, IfOk, IsTrue, cond, length};
ghost use Rattle.c_core.specs.Types.{in_range, fit};
ghost use Rattle.circuits.specs.Net.{holds, Grown, IsIn};
ghost use Rattle.circuits.specs.Numbers.{number, typed, AreIn, AreTyped, Counts, Reads};
ghost use Rattle.circuits.specs.Outcome.{conversion_cost};

use crate::conversions::{constant_bits, converted};
use crate::lists::choose;
use crate::{Bit, Net};
use c_core::{DataModel, IntType};
use std::alloc::Global;
use wv_base::{OutOfMemory, Seq};

/// The digits of a number, lowest first, as many as its type is wide.
#[derive(Debug, Drop)]
pub struct Bits {
    pub bits: Seq<Bit>,
}

/// The value of an operator, whether it overflows, and whether it is undefined.
#[derive(Debug, Drop)]
pub struct Outcome {
    pub value: Bits,
    pub overflow: Bit,
    pub undefined: Bit,
}

/// A number in the range of its type.
pub fn const_bits(
    alloc: Global,
    net: &Net,
    model: DataModel,
    ty: IntType,
    v: i128,
) -> Result<Bits, OutOfMemory>
    requires { IsTrue (in_range model ty v) }
    ensures { IfOk result (λ r. Reads model ty net.now r.bits (λ i. v)) }
{
    let out = constant_bits(alloc, net, model, ty, v)?;
    let bits = Seq::from_vec(out);
    Ok(Bits { bits })
}

/// The conversion from one type to another (ISO C11 6.3.1.2, 6.3.1.3).
pub fn convert_bits(
    alloc: Global,
    net: &mut Net,
    model: DataModel,
    from: IntType,
    to: IntType,
    a: &Bits,
) -> Result<Bits, OutOfMemory>
    requires a_in { AreTyped model from net.old a.now.bits }
    requires room { length net.old < 2 ^ 28 }
    ensures grown { Grown (conversion_cost model from to) net.old net.new }
    ensures value { IfOk result (λ r. Reads model to net.new r.bits
        (λ v. fit model to (typed model from v net.old a.now.bits))) }
{
    let out = converted(alloc, net, model, from, to, a.bits.as_slice())?;
    let bits = Seq::from_vec(out);
    Ok(Bits { bits })
}

/// `yes` where the test is true, else `no`; in any type as wide as they are.
pub fn choose_bits(
    alloc: Global,
    net: &mut Net,
    test: Bit,
    yes: &Bits,
    no: &Bits,
) -> Result<Bits, OutOfMemory>
    requires test_in { IsIn net.old test }
    requires yes_in { AreIn net.old yes.now.bits }
    requires no_in { AreIn net.old no.now.bits }
    requires same { length no.now.bits ≡ length yes.now.bits }
    requires wide { length yes.now.bits ≤ 64 }
    requires room { length net.old < 2 ^ 28 }
    ensures grown { Grown (4 * length yes.now.bits) net.old net.new }
    ensures value { IfOk result (λ r. Counts net.new r.bits (length yes.now.bits)
        (λ v. cond (holds v net.old test) (number v net.old yes.now.bits) (number v net.old no.now.bits))) }
{
    let x = yes.bits.as_slice();
    let y = no.bits.as_slice();
    // a value that was drawn just now is an unknown as good as any, also where it is chosen
    let drawn = net.ends_with(x);
    let out = choose(alloc, net, test, x, y)?;
    if !drawn {
        net.note_choice(alloc, test, x, y, &out);
    }
    let bits = Seq::from_vec(out);
    Ok(Bits { bits })
}
