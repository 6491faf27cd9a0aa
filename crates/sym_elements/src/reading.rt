// Elements are read.
ghost use Rattle.std.specs.Prelude.{◌≡◌, ◌+◌, ◌-◌, ◌*◌, ◌<◌, ◌^◌, IfOk, List, Some, length, min};
ghost use Rattle.c_core.specs.View.{program_view};
ghost use Rattle.c_meaning.specs.Objects.{type_of_object};
ghost use Rattle.sym_meaning.specs.Mode.{Mode};
ghost use Rattle.circuits.specs.Numbers.{AreIn};
ghost use Rattle.sym_state.specs.Standing.{IsState};
ghost use Rattle.sym_values.specs.Valuing.{Gives};
ghost use Rattle.sym_elements.specs.Elements.{ArePlaces, IsPicked, picked_cost, read_cost, read_in};
ghost use Rattle.sym_elements.specs.Placing.{told_by};

use crate::placing::Places;
use c_core::{IntType, Program};
use circuits::{Bit, Bits};
use std::alloc::Global;
use sym_state::{Sym, look};
use sym_values::choose;
use wv_base::OutOfMemory;

// How many numbers have this many binary digits; at most the largest u32.
fn numbers(digits: usize) -> u32
    ensures { result ≡ min (2 ^ digits) (2 ^ 32 - 1) }
{
    if digits < 32 {
        return 1 << digits;
    }
    u32::MAX
}

// How many cells this number of digits tells apart, of which the first `inner` are those of a column; at most the
// largest u32.
fn told(digits: usize, inner: usize, columns: u32) -> u32
    ensures { result ≡ min (told_by inner columns digits) (2 ^ 32 - 1) }
{
    if digits < inner {
        return numbers(digits);
    }
    let cells = u64::from(columns) * u64::from(numbers(digits - inner));
    if cells < u64::from(u32::MAX) {
        return cells as u32;
    }
    u32::MAX
}

/// The element at `low` + n, n being the cell that the digits spell, wherever n is below `count`: a tree of choices by
/// the digits, the highest first.
pub fn read_among(
    alloc: Global,
    program: &Program,
    sym: &mut Sym,
    object: u32,
    ty: IntType,
    digits: &[Bit],
    inner: usize,
    columns: u32,
    low: u32,
    count: u32,
) -> Result<Bits, OutOfMemory>
    requires fits { IsState (program_view program.now) sym.old }
    requires typed { ty ≡ type_of_object (program_view program.now) object }
    requires digits_in { AreIn sym.old.net digits.now }
    requires some { 0 < columns }
    requires within { low + count < 2 ^ 32 }
    requires room { length sym.old.net + picked_cost (program_view program.now) object count < 2 ^ 28 }
    ensures { IfOk result (λ r. IsPicked (program_view program.now) object inner columns low count digits.now sym.old
        sym.new r.bits) }
{
    if digits.is_empty() {
        let held = look(alloc, program, sym, object, low, ty)?;
        return Ok(held);
    }
    let highest = digits.len() - 1;
    let lower = &digits[..highest];
    let half = told(highest, inner, columns);
    if count <= half {
        let same = read_among(
            alloc, program, sym, object, ty, lower, inner, columns, low, count,
        )?;
        return Ok(same);
    }
    let (middle, rest) = (low + half, count - half);
    let above = read_among(
        alloc, program, sym, object, ty, lower, inner, columns, middle, rest,
    )?;
    let below = read_among(
        alloc, program, sym, object, ty, lower, inner, columns, low, half,
    )?;
    let value = choose(alloc, program, sym, ty, digits[highest], &above, &below)?;
    Ok(value)
}

/// The element at the place where a run is; `ty` is the type of the object.
pub fn read_element(
    alloc: Global,
    program: &Program,
    sym: &mut Sym,
    object: u32,
    ty: IntType,
    places: &Places,
) -> Result<Bits, OutOfMemory>
    requires fits { IsState (program_view program.now) sym.old }
    requires typed { ty ≡ type_of_object (program_view program.now) object }
    requires places_of { ArePlaces (program_view program.now) sym.old object places.now }
    requires room { length sym.old.net + read_cost (program_view program.now) object < 2 ^ 28 }
    ensures { IfOk result (λ r. (W : Mode)
        → Gives (program_view program.now) W (read_cost (program_view program.now) object) 0 sym.old sym.new (Some ty)
        r.bits (read_in (program_view program.now) W object places.now.bits sym.old)) }
{
    let digits = places.digits.as_slice();
    let count = places.bits.len() as u32;
    let (inner, columns) = (places.inner, places.columns);
    let value = read_among(
        alloc, program, sym, object, ty, digits, inner, columns, 0, count,
    )?;
    Ok(value)
}
