// Tests of bits: a run that is here ends where the bit is false.
ghost use Rattle.std.specs.Prelude.{◌≡◌, ◌<◌, ◌^◌, IfOk, List, length, suc};
ghost use Rattle.c_core.specs.View.{program_view};
ghost use Rattle.c_meaning.specs.declared.run.Duty.{Duty};
ghost use Rattle.c_meaning.specs.Duties.{number_among};
ghost use Rattle.c_meaning.specs.Havoc.{Dismisses, Fails};
ghost use Rattle.circuits.specs.Net.{IsIn};
ghost use Rattle.sym_state.specs.Standing.{IsState};
ghost use Rattle.sym_state.specs.Following.{Follows};
ghost use Rattle.sym_flow.specs.Testing.{tested};

use c_core::Program;
use circuits::{Bit, not};
use sym_state::{Sym, fail, stop};
use wv_base::OutOfMemory;

/// A run goes on only where the bit is true; else it is dismissed.
pub fn assume(sym: &mut Sym, program: &Program, test: Bit) -> Result<(), OutOfMemory>
    requires fits { IsState (program_view program.now) sym.old }
    requires test_in { IsIn sym.old.net test }
    requires room { length sym.old.net < 2 ^ 28 }
    ensures { IfOk result (λ r. (ds : List Duty)
        → Follows ds (program_view program.now) 1 0 sym.old sym.new (λ v u. Unit {0}) (tested sym.old test Dismisses)) }
{
    stop(sym, program, not(test))?;
    Ok(())
}

/// A run goes on only where the bit is true; else it fails the obligation of a number, from 0 on.
pub fn assure(sym: &mut Sym, program: &Program, duty: u32, test: Bit) -> Result<(), OutOfMemory>
    requires fits { IsState (program_view program.now) sym.old }
    requires test_in { IsIn sym.old.net test }
    requires room { length sym.old.net < 2 ^ 27 }
    ensures { IfOk result (λ r. (ds : List Duty) (d : Duty) → number_among d ds ≡ suc duty
        → Follows ds (program_view program.now) 3 0 sym.old sym.new (λ v u. Unit {0}) (tested sym.old test (Fails d))) }
{
    fail(sym, program, duty, not(test))?;
    Ok(())
}
