// Numbers of inputs.
ghost use Rattle.std.specs.Prelude.{◌≡◌, ◌+◌, ◌<◌, ◌^◌, IfOk, length};
ghost use Rattle.c_core.specs.Types.{width_of};
ghost use Rattle.circuits.specs.Net.{Fed, count_inputs};
ghost use Rattle.circuits.specs.Numbers.{drawn, Counts};

use crate::types::width;
use crate::{Bits, Net};
use c_core::{DataModel, IntType};
use std::alloc::Global;
use wv_base::{OutOfMemory, Seq};

/// A number of a type whose digits are new inputs. A refusal leaves some of these inputs.
pub fn input_bits(
    alloc: Global,
    net: &mut Net,
    model: DataModel,
    ty: IntType,
) -> Result<Bits, OutOfMemory>
    requires room { length net.old < 2 ^ 28 }
    ensures fed { Fed (width_of model ty) net.old net.new }
    ensures all { IfOk result (λ r. count_inputs net.new ≡ count_inputs net.old + width_of model ty) }
    ensures value { IfOk result (λ r. Counts net.new r.bits (width_of model ty)
        (λ v. drawn v (count_inputs net.old) (width_of model ty))) }
{
    let mut out = Vec::new(alloc);
    for i in 0..width(model, ty) {
        let bit = net.input()?;
        out.push(bit)?;
    }
    let bits = Seq::from_vec(out);
    Ok(Bits { bits })
}
