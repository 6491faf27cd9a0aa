// Calls that have no body: they draw, or end the run.
ghost use Rattle.std.specs.Prelude.{◌<◌, ◌^◌, IfOk, List, Some, length};
ghost use Rattle.c_core.specs.Types.{width_of};
ghost use Rattle.c_core.specs.View.{program_view};
ghost use Rattle.c_meaning.specs.Meaning.{Site};
ghost use Rattle.sym_meaning.specs.Mode.{Mode};
ghost use Rattle.sym_state.specs.Standing.{IsState};
ghost use Rattle.circuits.specs.Net.{IsIn};
ghost use Rattle.sym_values.specs.Valuing.{IsDutyAt, CountsWhere, Gives};
ghost use Rattle.sym_values.specs.Storing.{input_of, reach_of, end_of, Ends};

use c_core::{IntType, Program, Property, Spot};
use c_meaning::DrawKind;
use circuits::{Bit, Bits};
use std::alloc::Global;
use sym_state::{Around, Sym, draw, stop, violate};
use wv_base::OutOfMemory;

/// An input call draws a value of its type.
pub fn input(
    alloc: Global,
    program: &Program,
    sym: &mut Sym,
    spot: Spot,
    ty: IntType,
) -> Result<Bits, OutOfMemory>
    requires fits { IsState (program_view program.now) sym.old }
    requires room { length sym.old.net < 2 ^ 28 }
    ensures { IfOk result (λ r. (W : Mode)
        → Gives (program_view program.now) W 0 (width_of program.now.model ty) sym.old sym.new (Some ty) r.bits
        (input_of (program_view program.now) W spot ty)) }
{
    let bits = draw(alloc, program, sym, DrawKind::Input, spot, ty)?;
    Ok(bits)
}

/// A run that is here ends.
pub fn end(sym: &mut Sym, program: &Program) -> Result<(), OutOfMemory>
    requires fits { IsState (program_view program.now) sym.old }
    requires room { length sym.old.net < 2 ^ 27 }
    ensures { IfOk result (λ r. (W : Mode)
        → Ends (program_view program.now) W 1 sym.old sym.new (end_of (program_view program.now) W)) }
{
    let always = sym.net.yes();
    stop(sym, program, always)?;
    Ok(())
}

/// A call of `reach_error`: the violation, with a bit that says where it counts, or where that is an overflow the end.
pub fn reach(sym: &mut Sym, program: &Program, at: Around, counts: Bit) -> Result<(), OutOfMemory>
    requires fits { IsState (program_view program.now) sym.old }
    requires counts_in { IsIn sym.old.net counts }
    requires room { length sym.old.net < 2 ^ 27 }
    ensures { IfOk result (λ r. (W : Mode) (site : Site) → IsDutyAt (program_view program.now) W at
        → CountsWhere (program_view program.now) W at (Some site.spot) sym.old counts
        → Ends (program_view program.now) W 4 sym.old sym.new (reach_of (program_view program.now) W at site)) }
{
    let always = sym.net.yes();
    match program.property {
        Property::UnreachCall => {
            violate(sym, program, at.duty, always, counts)?;
            Ok(())
        }
        Property::NoOverflow => {
            stop(sym, program, always)?;
            Ok(())
        }
    }
}
