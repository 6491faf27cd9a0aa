// Cells: the innermost one of an object at an index is read and written.
ghost use Rattle.std.specs.Prelude.{◌≡◌, ◌+◌, ◌*◌, ◌<◌, ◌^◌, IfOk, MatchOption, false, length};
ghost use Rattle.c_core.specs.Types.{width_of};
ghost use Rattle.c_core.specs.View.{program_view};
ghost use Rattle.c_meaning.specs.Cells.{read};
ghost use Rattle.c_meaning.specs.Objects.{type_of_object};
ghost use Rattle.circuits.specs.Net.{holds, IsIn};
ghost use Rattle.circuits.specs.Numbers.{typed, AreTyped, Reads};
ghost use Rattle.sym_state.specs.Standing.{stand, IsState, Turned, stored};
ghost use Rattle.sym_state.specs.Places.{key, is_of, IsInnermost, live_in};

use crate::state::{Sym, SymCell};
use c_core::{IntType, Program};
use circuits::{Bit, Bits, choose_bits, const_bits};
use std::alloc::Global;
use wv_base::{OutOfMemory, Seq};

fn is_cell(cell: &SymCell, object: u32, index: u32) -> bool
    ensures { result ≡ is_of object index cell.now }
{
    cell.object == object && cell.index == index
}

/// Where the innermost cell of an object at an index stands.
pub fn place_of(cells: &[SymCell], object: u32, index: u32) -> Option<usize>
    ensures { MatchOption result (live_in object index cells.now ≡ false) (λ i. IsInnermost object index cells.now i) }
{
    let count = cells.len();
    for behind in 0..count {
        let at = count - 1 - behind;
        if is_cell(&cells[at], object, index) {
            return Some(at);
        }
    }
    None
}

/// The same bits once more.
pub fn copied(alloc: Global, bits: &Bits) -> Result<Bits, OutOfMemory>
    ensures { IfOk result (λ r. r.bits ≡ bits.now.bits) }
{
    let copy = bits.bits.as_slice().to_vec(alloc)?;
    let bits = Seq::from_vec(copy);
    Ok(Bits { bits })
}

/// What the innermost cell of an object of a type holds at an index, or 0 where no such cell is live.
pub fn look(
    alloc: Global,
    program: &Program,
    sym: &Sym,
    object: u32,
    index: u32,
    ty: IntType,
) -> Result<Bits, OutOfMemory>
    requires fits { IsState (program_view program.now) sym.now }
    requires typed { ty ≡ type_of_object (program_view program.now) object }
    ensures { IfOk result (λ r. Reads program.now.model ty sym.now.net r.bits
        (λ v. read (key object index) (stand (program_view program.now) v sym.now).cells)) }
{
    match place_of(&sym.cells, object, index) {
        Some(at) => {
            let bits = copied(alloc, &sym.cells[at].bits)?;
            Ok(bits)
        }
        None => {
            let bits = const_bits(alloc, &sym.net, program.model, ty, 0)?;
            Ok(bits)
        }
    }
}

/// Where `here` is true, the innermost cell of an object at an index holds the value from now on.
pub fn write(
    alloc: Global,
    program: &Program,
    sym: &mut Sym,
    here: Bit,
    object: u32,
    index: u32,
    value: &Bits,
) -> Result<(), OutOfMemory>
    requires fits { IsState (program_view program.now) sym.old }
    requires here_in { IsIn sym.old.net here }
    requires value_in { AreTyped program.now.model (type_of_object (program_view program.now) object) sym.old.net
        value.now.bits }
    requires room { length sym.old.net < 2 ^ 28 }
    ensures { IfOk result (λ r. Turned (program_view program.now)
        (4 * width_of program.now.model (type_of_object (program_view program.now) object)) 0 sym.old sym.new
        (λ v. stored (holds v sym.old.net here) (key object index)
        (typed program.now.model (type_of_object (program_view program.now) object) v sym.old.net value.now.bits))) }
{
    if let Some(at) = place_of(&sym.cells, object, index) {
        let chosen = choose_bits(alloc, &mut sym.net, here, value, &sym.cells[at].bits)?;
        sym.cells[at].bits = chosen;
    }
    Ok(())
}
