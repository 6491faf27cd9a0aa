// Stores into scalar objects.
ghost use Rattle.std.specs.Prelude.{◌≡◌, ◌+◌, ◌<◌, ◌^◌, IfOk, List, Some, length};
ghost use Rattle.c_core.specs.View.{program_view};
ghost use Rattle.c_meaning.specs.Objects.{type_of_object};
ghost use Rattle.sym_meaning.specs.Mode.{Mode};
ghost use Rattle.circuits.specs.Numbers.{AreTyped};
ghost use Rattle.sym_state.specs.Places.{key};
ghost use Rattle.sym_state.specs.Standing.{IsState};
ghost use Rattle.sym_values.specs.Valuing.{Gives};
ghost use Rattle.sym_values.specs.Storing.{stored_cost, stored_in};

use crate::truths::convert;
use c_core::{IntType, Program};
use circuits::Bits;
use std::alloc::Global;
use sym_state::{Sym, write};
use wv_base::OutOfMemory;

/// A value is converted to the type of a scalar object, and stored in it.
pub fn store(
    alloc: Global,
    program: &Program,
    sym: &mut Sym,
    object: u32,
    from: IntType,
    to: IntType,
    value: &Bits,
) -> Result<Bits, OutOfMemory>
    requires fits { IsState (program_view program.now) sym.old }
    requires typed { to ≡ type_of_object (program_view program.now) object }
    requires value_in { AreTyped program.now.model from sym.old.net value.now.bits }
    requires room { length sym.old.net + stored_cost program.now.model from to < 2 ^ 28 }
    ensures { IfOk result (λ r. (W : Mode)
        → Gives (program_view program.now) W (stored_cost program.now.model from to) 0 sym.old sym.new (Some to) r.bits
        (stored_in (program_view program.now) W (key object 0) from to value.now.bits sym.old)) }
{
    let bits = convert(alloc, program, sym, from, to, value)?;
    let here = sym.live;
    write(alloc, program, sym, here, object, 0, &bits)?;
    Ok(bits)
}
