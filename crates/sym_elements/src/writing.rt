// Elements are written.
ghost use Rattle.std.specs.Prelude.{◌≡◌, ◌+◌, ◌*◌, ◌<◌, ◌^◌, ◌&&◌, IfOk, List, Some, length};
ghost use Rattle.c_core.specs.View.{program_view};
ghost use Rattle.c_meaning.specs.Objects.{type_of_object};
ghost use Rattle.sym_meaning.specs.Mode.{Mode};
ghost use Rattle.circuits.specs.Net.{holds, IsIn};
ghost use Rattle.circuits.specs.Numbers.{typed, AreTyped};
ghost use Rattle.sym_state.specs.Places.{key};
ghost use Rattle.sym_state.specs.Standing.{IsState, Turned, stored};
ghost use Rattle.sym_values.specs.Valuing.{Gives};
ghost use Rattle.sym_elements.specs.Elements.{key_at, ArePlaces, width_of_element, written_cost, stored_cost, stored_in};

use crate::placing::Places;
use c_core::{IntType, Program};
use circuits::{Bit, Bits};
use std::alloc::Global;
use sym_state::{Sym, write};
use sym_values::convert;
use wv_base::OutOfMemory;

// A run that is here has the value in the element at an index, where the bit is true.
fn write_place(
    alloc: Global,
    program: &Program,
    sym: &mut Sym,
    object: u32,
    index: u32,
    here: Bit,
    value: &Bits,
) -> Result<(), OutOfMemory>
    requires fits { IsState (program_view program.now) sym.old }
    requires here_in { IsIn sym.old.net here }
    requires value_in { AreTyped program.now.model (type_of_object (program_view program.now) object) sym.old.net
        value.now.bits }
    requires room { length sym.old.net + 1 < 2 ^ 28 }
    ensures { IfOk result (λ r. Turned (program_view program.now)
        (4 * width_of_element (program_view program.now) object + 1) 0 sym.old sym.new
        (λ v s. stored (s.live && holds v sym.old.net here) (key object index)
        (typed program.now.model (type_of_object (program_view program.now) object) v sym.old.net value.now.bits) s)) }
{
    let now = sym.net.and(sym.live, here)?;
    write(alloc, program, sym, now, object, index, value)?;
    Ok(())
}

/// A run that is here has the value in the element at its place from now on.
pub fn write_element(
    alloc: Global,
    program: &Program,
    sym: &mut Sym,
    object: u32,
    places: &Places,
    value: &Bits,
) -> Result<(), OutOfMemory>
    requires fits { IsState (program_view program.now) sym.old }
    requires places_of { ArePlaces (program_view program.now) sym.old object places.now }
    requires value_in { AreTyped program.now.model (type_of_object (program_view program.now) object) sym.old.net
        value.now.bits }
    requires room { length sym.old.net + written_cost (program_view program.now) object < 2 ^ 28 }
    ensures { IfOk result (λ r. Turned (program_view program.now) (written_cost (program_view program.now) object) 0
        sym.old sym.new (λ v. stored (holds v sym.old.net sym.old.live) (key_at object v sym.old.net places.now.bits)
        (typed program.now.model (type_of_object (program_view program.now) object) v sym.old.net value.now.bits))) }
{
    let bits = places.bits.as_slice();
    for i in 0..bits.len() {
        write_place(alloc, program, sym, object, i as u32, bits[i], value)?;
    }
    Ok(())
}

/// A value is converted to the type of an object, and stored in the element at the place where a run is.
pub fn store_element(
    alloc: Global,
    program: &Program,
    sym: &mut Sym,
    object: u32,
    places: &Places,
    from: IntType,
    to: IntType,
    value: &Bits,
) -> Result<Bits, OutOfMemory>
    requires fits { IsState (program_view program.now) sym.old }
    requires typed { to ≡ type_of_object (program_view program.now) object }
    requires places_of { ArePlaces (program_view program.now) sym.old object places.now }
    requires value_in { AreTyped program.now.model from sym.old.net value.now.bits }
    requires room { length sym.old.net + stored_cost (program_view program.now) from object < 2 ^ 28 }
    ensures { IfOk result (λ r. (W : Mode)
        → Gives (program_view program.now) W (stored_cost (program_view program.now) from object) 0 sym.old sym.new
        (Some to) r.bits (stored_in (program_view program.now) W object places.now.bits from value.now.bits sym.old)) }
{
    let bits = convert(alloc, program, sym, from, to, value)?;
    write_element(alloc, program, sym, object, places, &bits)?;
    Ok(bits)
}
