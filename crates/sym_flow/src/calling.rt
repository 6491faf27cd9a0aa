// Around a function's body: what is around it is kept, and comes back after it.
ghost use Rattle.std.specs.Prelude.{◌≡◌, ◌<◌, ◌^◌, ◌&&◌, ◌||◌, IfOk, length, not};
ghost use Rattle.c_core.specs.View.{program_view};
ghost use Rattle.circuits.specs.Net.{holds, Grown, IsIn, Means};
ghost use Rattle.sym_state.specs.Standing.{IsState, Turned, stopped};
ghost use Rattle.sym_flow.specs.Calling.{Enters, IsAround, IsAroundIn, CameBack};

use crate::ways::never;
use c_core::{IntType, Program};
use circuits::{Bit, Bits, Net, const_bits};
use std::alloc::Global;
use std::mem;
use sym_state::{Sym, stop};
use wv_base::OutOfMemory;

/// The bits of the ways out around a call, the value that the function around gave, and its type.
#[derive(Drop)]
pub struct Caller {
    pub broken: Bit,
    pub again: Bit,
    pub gave: Bit,
    pub given: Bits,
    pub result: IntType,
}

/// Before the body of a function whose result has this type: no run is on its way out of it. Gives what is around it.
pub fn enter(
    alloc: Global,
    program: &Program,
    sym: &mut Sym,
    ty: IntType,
) -> Result<Caller, OutOfMemory>
    requires fits { IsState (program_view program.now) sym.old }
    ensures enters { IfOk result (λ r. Enters (program_view program.now) ty sym.old sym.new) }
    ensures around { IfOk result (λ r. IsAround r sym.old) }
{
    let zero = const_bits(alloc, &sym.net, program.model, ty, 0)?;
    let dead = never(&sym.net);
    let given = mem::replace(&mut sym.given, zero);
    let caller = Caller {
        broken: sym.broken,
        again: sym.again,
        gave: sym.gave,
        given,
        result: sym.result,
    };
    sym.broken = dead;
    sym.again = dead;
    sym.gave = dead;
    sym.result = ty;
    Ok(caller)
}

/// What came back from a call: the value that the function gave, and the bit of the runs in which it gave one.
#[derive(Drop)]
pub struct Given {
    pub value: Bits,
    pub gave: Bit,
}

// The runs that came to the end of a function's body, and those on their way out of it.
fn all_ways(
    net: &mut Net,
    live: Bit,
    broken: Bit,
    again: Bit,
    gave: Bit,
) -> Result<Bit, OutOfMemory>
    requires live_in { IsIn net.old live }
    requires broken_in { IsIn net.old broken }
    requires again_in { IsIn net.old again }
    requires gave_in { IsIn net.old gave }
    requires room { length net.old < 2 ^ 28 }
    ensures grown { Grown 3 net.old net.new }
    ensures value { IfOk result (λ r. Means net.new r
        (λ v. holds v net.old live || (holds v net.old broken || (holds v net.old again || holds v net.old gave)))) }
{
    let two = net.together(again, gave)?;
    let three = net.together(broken, two)?;
    let four = net.together(live, three)?;
    Ok(four)
}

/// After a function's body: the bits of what is around the call are back, and all runs that came out of the body go on.
pub fn come_back(
    program: &Program,
    sym: &mut Sym,
    caller: Caller,
    cells: usize,
) -> Result<Given, OutOfMemory>
    requires fits { IsState (program_view program.now) sym.old }
    requires caller_in { IsAroundIn (program_view program.now) caller sym.old.net }
    requires room { length sym.old.net < 2 ^ 28 }
    ensures { IfOk result (λ r. CameBack (program_view program.now) caller cells sym.old sym.new r.value.bits r.gave) }
{
    let gave = sym.gave;
    let live = all_ways(&mut sym.net, sym.live, sym.broken, sym.again, gave)?;
    let value = mem::replace(&mut sym.given, caller.given);
    sym.live = live;
    sym.broken = caller.broken;
    sym.again = caller.again;
    sym.gave = caller.gave;
    sym.result = caller.result;
    sym.cells.truncate(cells);
    Ok(Given { value, gave })
}

/// Where a call's value is needed, only runs that gave one go on (C11 6.9.1p12).
pub fn need(sym: &mut Sym, program: &Program, gave: Bit, needed: bool) -> Result<(), OutOfMemory>
    requires fits { IsState (program_view program.now) sym.old }
    requires gave_in { IsIn sym.old.net gave }
    requires room { length sym.old.net < 2 ^ 28 }
    ensures { IfOk result (λ r. Turned (program_view program.now) 1 0 sym.old sym.new
        (λ v. stopped (needed && not (holds v sym.old.net gave)))) }
{
    if needed {
        stop(sym, program, circuits::not(gave))?;
    }
    Ok(())
}
