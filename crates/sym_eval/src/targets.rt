// Targets of assignments and steps: what a cell holds is read, and a value is stored in it.
ghost use Rattle.std.specs.Prelude.{◌≡◌, ◌+◌, ◌<◌, ◌^◌, IfOk, Some, length};
ghost use Rattle.c_core.specs.View.{program_view};
ghost use Rattle.c_meaning.specs.Objects.{type_of_object};
ghost use Rattle.sym_meaning.specs.Mode.{Mode};
ghost use Rattle.circuits.specs.Numbers.{AreTyped};
ghost use Rattle.sym_state.specs.Standing.{IsState};
ghost use Rattle.sym_values.specs.Valuing.{Gives};
ghost use Rattle.sym_exprs.specs.Targeting.{looked_at, stored_at};
ghost use Rattle.sym_eval.specs.Targets.{object_of, keys_of, IsTarget, reading, storing};

use c_core::{IntType, Program};
use circuits::Bits;
use std::alloc::Global;
use sym_elements::{Places, read_element, store_element};
use sym_state::{Sym, look};
use sym_values::store;
use wv_base::OutOfMemory;

/// What a value is put into: a scalar object, or a cell of an array, by its places.
#[derive(Drop)]
pub enum Target {
    Scalar(u32),
    Element(u32, Places),
}

/// What a target of a type holds.
#[inline(never)]
pub fn look_target(
    alloc: Global,
    program: &Program,
    sym: &mut Sym,
    target: &Target,
    ty: IntType,
) -> Result<Bits, OutOfMemory>
    requires fits { IsState (program_view program.now) sym.old }
    requires typed { ty ≡ type_of_object (program_view program.now) (object_of target.now) }
    requires is { IsTarget (program_view program.now) sym.old target.now }
    requires room { length sym.old.net + reading (program_view program.now) target.now < 2 ^ 28 }
    ensures { IfOk result (λ r. (W : Mode)
        → Gives (program_view program.now) W (reading (program_view program.now) target.now) 0 sym.old sym.new (Some ty)
        r.bits (looked_at (program_view program.now) W (keys_of target.now sym.old.net))) }
{
    match target {
        Target::Scalar(object) => {
            let r = look(alloc, program, sym, *object, 0, ty)?;
            Ok(r)
        }
        Target::Element(object, places) => {
            let r = read_element(alloc, program, sym, *object, ty, places)?;
            Ok(r)
        }
    }
}

/// A value is converted to the type of a target, and stored in it.
#[inline(never)]
pub fn store_target(
    alloc: Global,
    program: &Program,
    sym: &mut Sym,
    target: &Target,
    from: IntType,
    to: IntType,
    value: &Bits,
) -> Result<Bits, OutOfMemory>
    requires fits { IsState (program_view program.now) sym.old }
    requires typed { to ≡ type_of_object (program_view program.now) (object_of target.now) }
    requires is { IsTarget (program_view program.now) sym.old target.now }
    requires value_in { AreTyped program.now.model from sym.old.net value.now.bits }
    requires room { length sym.old.net + storing (program_view program.now) from target.now < 2 ^ 28 }
    ensures { IfOk result (λ r. (W : Mode)
        → Gives (program_view program.now) W (storing (program_view program.now) from target.now) 0 sym.old sym.new
        (Some to) r.bits (stored_at (program_view program.now) W (keys_of target.now sym.old.net) from to value.now.bits
        sym.old)) }
{
    match target {
        Target::Scalar(object) => {
            let r = store(alloc, program, sym, *object, from, to, value)?;
            Ok(r)
        }
        Target::Element(object, places) => {
            let r = store_element(alloc, program, sym, *object, places, from, to, value)?;
            Ok(r)
        }
    }
}
