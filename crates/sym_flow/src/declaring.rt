// Cells of declared objects and of parameters.
ghost use Rattle.std.specs.Prelude.{◌≡◌, IfOk};
ghost use Rattle.c_core.specs.View.{program_view};
ghost use Rattle.sym_state.specs.Standing.{IsState};
ghost use Rattle.sym_flow.specs.Ways.{Became, declaring, with_cell};

use c_core::Program;
use c_meaning::type_of_object;
use circuits::const_bits;
use std::alloc::Global;
use sym_state::{Sym, SymCell};
use wv_base::OutOfMemory;

fn declare_cell(
    alloc: Global,
    program: &Program,
    sym: &mut Sym,
    object: u32,
    index: u32,
) -> Result<(), OutOfMemory>
    requires fits { IsState (program_view program.now) sym.old }
    ensures { IfOk result (λ r. Became (program_view program.now) 0 sym.old sym.new (λ v. with_cell object index)) }
{
    let ty = type_of_object(program, object);
    let bits = const_bits(alloc, &sym.net, program.model, ty, 0)?;
    let cell = SymCell {
        object,
        index,
        bits,
    };
    sym.cells.push(cell)?;
    Ok(())
}

/// This many cells more of an object, which hold 0.
pub fn declare(
    alloc: Global,
    program: &Program,
    sym: &mut Sym,
    object: u32,
    count: u32,
) -> Result<(), OutOfMemory>
    requires fits { IsState (program_view program.now) sym.old }
    ensures { IfOk result (λ r. Became (program_view program.now) 0 sym.old sym.new (λ v. declaring object count)) }
{
    for index in 0..count {
        declare_cell(alloc, program, sym, object, index)?;
    }
    Ok(())
}
