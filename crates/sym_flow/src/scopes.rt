// Scopes, bodies of loops, and loops: cells that end with them, and ways that come together after them.
ghost use Rattle.std.specs.Prelude.{◌≡◌, ◌<◌, ◌^◌, IfOk, length};
ghost use Rattle.c_core.specs.View.{program_view};
ghost use Rattle.circuits.specs.Net.{holds, IsIn};
ghost use Rattle.sym_state.specs.Standing.{IsState};
ghost use Rattle.sym_flow.specs.Ways.{Became, cut_to, fresh_again, fresh_broken, behind_body, behind_loop};

use crate::ways::never;
use c_core::Program;
use circuits::Bit;
use sym_state::Sym;
use wv_base::OutOfMemory;

/// A scope ends, around which were this many cells.
pub fn cut(sym: &mut Sym, program: &Program, cells: usize)
    requires fits { IsState (program_view program.now) sym.old }
    ensures { Became (program_view program.now) 0 sym.old sym.new (λ v. cut_to cells) }
{
    sym.cells.truncate(cells);
}

/// Before a loop's body: no run is on its way to its end. Gives the bit of the body around.
pub fn start_body(sym: &mut Sym, program: &Program) -> Bit
    requires fits { IsState (program_view program.now) sym.old }
    ensures kept { result ≡ sym.old.again }
    ensures became { Became (program_view program.now) 0 sym.old sym.new (λ v. fresh_again) }
{
    let kept = sym.again;
    sym.again = never(&sym.net);
    kept
}

/// After a loop's body, around which were this many cells: runs that came to its end, and those that went there.
pub fn end_body(
    sym: &mut Sym,
    program: &Program,
    kept: Bit,
    cells: usize,
) -> Result<(), OutOfMemory>
    requires fits { IsState (program_view program.now) sym.old }
    requires kept_in { IsIn sym.old.net kept }
    requires room { length sym.old.net < 2 ^ 28 }
    ensures { IfOk result (λ r. Became (program_view program.now) 1 sym.old sym.new
        (λ v. behind_body (holds v sym.old.net kept) cells)) }
{
    let here = sym.net.together(sym.live, sym.again)?;
    sym.live = here;
    sym.again = kept;
    sym.cells.truncate(cells);
    Ok(())
}

/// Before a loop: no run leaves it. Gives the bit of the loop around.
pub fn start_loop(sym: &mut Sym, program: &Program) -> Bit
    requires fits { IsState (program_view program.now) sym.old }
    ensures kept { result ≡ sym.old.broken }
    ensures became { Became (program_view program.now) 0 sym.old sym.new (λ v. fresh_broken) }
{
    let kept = sym.broken;
    sym.broken = never(&sym.net);
    kept
}

/// After a loop, around which were this many cells: runs that left it.
pub fn end_loop(
    sym: &mut Sym,
    program: &Program,
    kept: Bit,
    cells: usize,
) -> Result<(), OutOfMemory>
    requires fits { IsState (program_view program.now) sym.old }
    requires kept_in { IsIn sym.old.net kept }
    requires room { length sym.old.net < 2 ^ 28 }
    ensures { IfOk result (λ r. Became (program_view program.now) 1 sym.old sym.new
        (λ v. behind_loop (holds v sym.old.net kept) cells)) }
{
    let here = sym.net.together(sym.live, sym.broken)?;
    sym.live = here;
    sym.broken = kept;
    sym.cells.truncate(cells);
    Ok(())
}
