// Arguments, and the parameters that get them.
ghost use Rattle.std.specs.Prelude.{◌≡◌, ◌+◌, ◌<◌, ◌^◌, ◌∷◌, [], IfOk, drop, length};
ghost use Rattle.c_core.specs.View.{program_view};
ghost use Rattle.sym_state.specs.Standing.{IsState};
ghost use Rattle.sym_eval.specs.Calling.{AreArguments, Sets, set_cost};

use c_core::{IntType, Program};
use c_meaning::type_of_object;
use circuits::Bits;
use std::alloc::Global;
use sym_flow::declare;
use sym_state::Sym;
use sym_values::store;
use wv_base::OutOfMemory;

/// An argument of a call: the bits of its value, in its type.
#[derive(Drop)]
pub struct Argument {
    pub bits: Bits,
    pub ty: IntType,
}

// A parameter's cell, with the argument at an index, or 0 where there is none.
fn set_parameter(
    alloc: Global,
    program: &Program,
    sym: &mut Sym,
    object: u32,
    arguments: &[Argument],
    index: usize,
) -> Result<(), OutOfMemory>
    requires fits { IsState (program_view program.now) sym.old }
    requires arguments_in { AreArguments (program_view program.now) sym.old.net arguments.now }
    requires room { length sym.old.net + set_cost (program_view program.now) (object ∷ []) (drop index arguments.now) <
        2 ^ 28 }
    ensures { IfOk result (λ r. Sets (program_view program.now) (object ∷ []) (drop index arguments.now) sym.old
        sym.new) }
{
    declare(alloc, program, sym, object, 1)?;
    match arguments.get(index) {
        Some(argument) => {
            let ty = type_of_object(program, object);
            store(alloc, program, sym, object, argument.ty, ty, &argument.bits)?;
            Ok(())
        }
        None => Ok(()),
    }
}

/// Each parameter's cell gets its argument, converted to the parameter's type.
pub fn set_parameters(
    alloc: Global,
    program: &Program,
    sym: &mut Sym,
    params: &[u32],
    arguments: &[Argument],
) -> Result<(), OutOfMemory>
    requires fits { IsState (program_view program.now) sym.old }
    requires arguments_in { AreArguments (program_view program.now) sym.old.net arguments.now }
    requires room { length sym.old.net + set_cost (program_view program.now) params.now arguments.now < 2 ^ 28 }
    ensures { IfOk result (λ r. Sets (program_view program.now) params.now arguments.now sym.old sym.new) }
{
    for (index, object) in params.iter().enumerate() {
        set_parameter(alloc, program, sym, *object, arguments, index)?;
    }
    Ok(())
}
