// Where runs are: they end, fail, part and come together.
ghost use Rattle.std.specs.Prelude.{◌<◌, ◌^◌, ◌&&◌, ◌||◌, IfOk, length};
ghost use Rattle.c_core.specs.View.{program_view};
ghost use Rattle.circuits.specs.Net.{holds, IsIn};
ghost use Rattle.sym_state.specs.Standing.{IsState, Turned, stopped, marking, failed, violated, with_live};

use crate::state::Sym;
use c_core::Program;
use circuits::{Bit, not};
use wv_base::OutOfMemory;

/// A run that is here ends where the bit is true, and fails nothing.
pub fn stop(sym: &mut Sym, program: &Program, bad: Bit) -> Result<(), OutOfMemory>
    requires fits { IsState (program_view program.now) sym.old }
    requires bad_in { IsIn sym.old.net bad }
    requires room { length sym.old.net < 2 ^ 28 }
    ensures { IfOk result (λ r. Turned (program_view program.now) 1 0 sym.old sym.new
        (λ v. stopped (holds v sym.old.net bad))) }
{
    let live = sym.net.under(sym.live, not(bad))?;
    sym.live = live;
    Ok(())
}

/// The run is here where both bits are true.
pub fn narrow(sym: &mut Sym, program: &Program, a: Bit, b: Bit) -> Result<(), OutOfMemory>
    requires fits { IsState (program_view program.now) sym.old }
    requires a_in { IsIn sym.old.net a }
    requires b_in { IsIn sym.old.net b }
    requires room { length sym.old.net < 2 ^ 28 }
    ensures { IfOk result (λ r. Turned (program_view program.now) 1 0 sym.old sym.new
        (λ v. with_live (holds v sym.old.net a && holds v sym.old.net b))) }
{
    let live = sym.net.under(a, b)?;
    sym.live = live;
    Ok(())
}

/// The run is here where it is here now, or the other bit is true.
pub fn join(sym: &mut Sym, program: &Program, other: Bit) -> Result<(), OutOfMemory>
    requires fits { IsState (program_view program.now) sym.old }
    requires other_in { IsIn sym.old.net other }
    requires room { length sym.old.net < 2 ^ 28 }
    ensures { IfOk result (λ r. Turned (program_view program.now) 1 0 sym.old sym.new
        (λ v. with_live (holds v sym.old.net other || holds v sym.old.net sym.old.live))) }
{
    let live = sym.net.together(other, sym.live)?;
    sym.live = live;
    Ok(())
}

/// The failing bit of a number, from 0 on, is true also where `here` is; beyond the last there is none.
fn mark(sym: &mut Sym, program: &Program, duty: u32, here: Bit) -> Result<(), OutOfMemory>
    requires fits { IsState (program_view program.now) sym.old }
    requires here_in { IsIn sym.old.net here }
    requires room { length sym.old.net < 2 ^ 28 }
    ensures { IfOk result (λ r. Turned (program_view program.now) 1 0 sym.old sym.new
        (λ v. marking duty (holds v sym.old.net here))) }
{
    let at = duty as usize;
    if at >= sym.failing.len() {
        return Ok(());
    }
    let neither = sym.net.and(not(sym.failing[at]), not(here))?;
    sym.failing[at] = not(neither);
    Ok(())
}

/// A run that is here fails the obligation of a number, from 0 on, where the bit is true.
pub fn fail(sym: &mut Sym, program: &Program, duty: u32, bad: Bit) -> Result<(), OutOfMemory>
    requires fits { IsState (program_view program.now) sym.old }
    requires bad_in { IsIn sym.old.net bad }
    requires room { length sym.old.net < 2 ^ 27 }
    ensures { IfOk result (λ r. Turned (program_view program.now) 3 0 sym.old sym.new
        (λ v. failed duty (holds v sym.old.net bad))) }
{
    let here = sym.net.under(sym.live, bad)?;
    mark(sym, program, duty, here)?;
    stop(sym, program, bad)?;
    Ok(())
}

/// A run that is here ends where a bit is true. It fails the obligation of a number, from 0 on, where another bit says
/// that this counts.
pub fn violate(
    sym: &mut Sym,
    program: &Program,
    duty: u32,
    bad: Bit,
    counts: Bit,
) -> Result<(), OutOfMemory>
    requires fits { IsState (program_view program.now) sym.old }
    requires bad_in { IsIn sym.old.net bad }
    requires counts_in { IsIn sym.old.net counts }
    requires room { length sym.old.net < 2 ^ 27 }
    ensures { IfOk result (λ r. Turned (program_view program.now) 4 0 sym.old sym.new
        (λ v. violated duty (holds v sym.old.net bad) (holds v sym.old.net counts))) }
{
    let both = sym.net.and(bad, counts)?;
    let here = sym.net.under(sym.live, both)?;
    mark(sym, program, duty, here)?;
    stop(sym, program, bad)?;
    Ok(())
}
