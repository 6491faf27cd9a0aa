// `break`, `continue` and `return`: a run that is here stands at one of the three bits from now on.
ghost use Rattle.std.specs.Prelude.{◌≡◌, ◌+◌, ◌*◌, ◌<◌, ◌^◌, ◌||◌, IfOk, false, length};
ghost use Rattle.c_core.specs.Types.{width_of};
ghost use Rattle.c_core.specs.View.{program_view};
ghost use Rattle.circuits.specs.Net.{holds, Grown, IsIn, Means};
ghost use Rattle.circuits.specs.Numbers.{typed, AreTyped};
ghost use Rattle.sym_state.specs.Standing.{IsState};
ghost use Rattle.sym_flow.specs.Ways.{Became, leaving, going_again, going_back, giving};

use c_core::{IntType, Program};
use circuits::{Bit, Bits, Net, choose_bits, not};
use std::alloc::Global;
use sym_state::Sym;
use wv_base::OutOfMemory;

/// No bit is true under any input.
pub fn never(net: &Net) -> Bit
    ensures { Means net.now result (λ v. false) }
{
    not(net.yes())
}

/// A run that is here leaves the loop.
pub fn leave_loop(sym: &mut Sym, program: &Program) -> Result<(), OutOfMemory>
    requires fits { IsState (program_view program.now) sym.old }
    requires room { length sym.old.net < 2 ^ 28 }
    ensures { IfOk result (λ r. Became (program_view program.now) 1 sym.old sym.new (λ v. leaving)) }
{
    let out = sym.net.together(sym.broken, sym.live)?;
    sym.broken = out;
    sym.live = never(&sym.net);
    Ok(())
}

/// A run that is here goes to the end of the loop's body.
pub fn go_again(sym: &mut Sym, program: &Program) -> Result<(), OutOfMemory>
    requires fits { IsState (program_view program.now) sym.old }
    requires room { length sym.old.net < 2 ^ 28 }
    ensures { IfOk result (λ r. Became (program_view program.now) 1 sym.old sym.new (λ v. going_again)) }
{
    let on = sym.net.together(sym.again, sym.live)?;
    sym.again = on;
    sym.live = never(&sym.net);
    Ok(())
}

/// A run that is here leaves the function.
pub fn go_back(sym: &mut Sym, program: &Program) -> Result<(), OutOfMemory>
    requires fits { IsState (program_view program.now) sym.old }
    requires room { length sym.old.net < 2 ^ 28 }
    ensures { IfOk result (λ r. Became (program_view program.now) 1 sym.old sym.new (λ v. going_back)) }
{
    let back = sym.net.together(sym.gave, sym.live)?;
    sym.gave = back;
    sym.live = never(&sym.net);
    Ok(())
}

/// A run that is here leaves the function with a value of its result's type.
pub fn give(
    alloc: Global,
    program: &Program,
    sym: &mut Sym,
    ty: IntType,
    value: &Bits,
) -> Result<(), OutOfMemory>
    requires fits { IsState (program_view program.now) sym.old }
    requires typed { sym.old.result ≡ ty }
    requires value_in { AreTyped program.now.model ty sym.old.net value.now.bits }
    requires room { length sym.old.net < 2 ^ 27 }
    ensures { IfOk result (λ r. Became (program_view program.now) (4 * width_of program.now.model ty + 1) sym.old
        sym.new (λ v. giving (typed program.now.model ty v sym.old.net value.now.bits))) }
{
    let given = choose_bits(alloc, &mut sym.net, sym.live, value, &sym.given)?;
    sym.given = given;
    go_back(sym, program)?;
    Ok(())
}
