// Full expressions of statements, and what a loop does by its controlling expression.
ghost use Rattle.std.specs.Prelude.{◌<◌, ◌^◌, IfOk, length};
ghost use Rattle.c_core.specs.View.{expr_view, expr_view_if, program_view};
ghost use Rattle.circuits.specs.Net.{holds, IsIn};
ghost use Rattle.sym_flow.specs.Ways.{Became};
ghost use Rattle.sym_state.specs.Standing.{IsState};
ghost use Rattle.sym_exprs.specs.Evaluating.{use_of};
ghost use Rattle.sym_walk.specs.Walking.{program_of, mode_of, IsWalk};
ghost use Rattle.sym_eval.specs.Doing.{ControlReady, Decides};
ghost use Rattle.sym_eval.specs.Control.{FullReady, FullGives, parting, TestReady, TestDoes, TestIfReady, TestIfDoes, StepReady, StepDoes};

use crate::expressions::eval;
use c_core::{Expr, Program, Spot};
use c_meaning::type_of;
use circuits::{Bit, Bits, not};
use sym_flow::leave_loop;
use sym_state::{Sym, narrow};
use sym_values::test;
use sym_walk::{Walk, around, tell_branch};
use wv_base::OutOfMemory;

/// A full expression of the statement at a place (C11 6.8p4).
#[cycle(walk)]
pub fn full(
    walk: &Walk,
    sym: &mut Sym,
    depth: u32,
    at: Spot,
    used: bool,
    e: &Expr,
) -> Result<Bits, OutOfMemory>
    requires walk { IsWalk walk.now }
    requires ready { FullReady (program_of walk.now) (mode_of walk.now) depth sym.old (expr_view e.now) }
    ensures { IfOk result (λ r. FullGives (program_of walk.now) (mode_of walk.now) depth at (use_of used)
        (expr_view e.now) sym.old sym.new r.bits) }
{
    let place = around(walk, at, e);
    let bits = eval(walk, sym, depth, place, used, e)?;
    Ok(bits)
}

/// Is a controlling expression's value other than zero? Its event is told. (C11 6.8.4.1p2, 6.8.5p4)
#[cycle(walk)]
pub fn decided(
    walk: &Walk,
    sym: &mut Sym,
    depth: u32,
    at: Spot,
    e: &Expr,
) -> Result<Bit, OutOfMemory>
    requires walk { IsWalk walk.now }
    requires ready { ControlReady (program_of walk.now) (mode_of walk.now) depth at sym.old (expr_view e.now) }
    ensures { IfOk result (λ r. Decides (program_of walk.now) (mode_of walk.now) depth at (expr_view e.now)
        sym.old sym.new r) }
{
    let x = full(walk, sym, depth, at, true, e)?;
    let bit = test(walk.alloc, walk.program, sym, type_of(e), &x)?;
    tell_branch(walk, sym, at, bit)?;
    Ok(bit)
}

// A run that is here leaves the loop where the bit is false.
fn leave_unless(sym: &mut Sym, program: &Program, bit: Bit) -> Result<(), OutOfMemory>
    requires fits { IsState (program_view program.now) sym.old }
    requires bit_in { IsIn sym.old.net bit }
    requires room { length sym.old.net < 2 ^ 27 }
    ensures { IfOk result (λ r. Became (program_view program.now) 3 sym.old sym.new
        (λ v. parting (holds v sym.old.net bit))) }
{
    let before = sym.live;
    narrow(sym, program, before, not(bit))?;
    leave_loop(sym, program)?;
    narrow(sym, program, before, bit)?;
    Ok(())
}

/// A loop goes on where its controlling expression says so, and is left elsewhere.
#[cycle(walk)]
pub fn test_turn(
    walk: &Walk,
    sym: &mut Sym,
    depth: u32,
    at: Spot,
    e: &Expr,
) -> Result<(), OutOfMemory>
    requires walk { IsWalk walk.now }
    requires ready { TestReady (program_of walk.now) (mode_of walk.now) depth at sym.old (expr_view e.now) }
    ensures { IfOk result (λ r. TestDoes (program_of walk.now) (mode_of walk.now) depth at (expr_view e.now)
        sym.old sym.new) }
{
    let bit = decided(walk, sym, depth, at, e)?;
    leave_unless(sym, walk.program, bit)?;
    Ok(())
}

/// The same of a `for`, which goes on where it has no controlling expression (C11 6.8.5.3p2).
#[cycle(walk)]
pub fn test_turn_if(
    walk: &Walk,
    sym: &mut Sym,
    depth: u32,
    at: Spot,
    e: &Option<Expr>,
) -> Result<(), OutOfMemory>
    requires walk { IsWalk walk.now }
    requires ready { TestIfReady (program_of walk.now) (mode_of walk.now) depth at sym.old (expr_view_if e.now) }
    ensures { IfOk result (λ r. TestIfDoes (program_of walk.now) (mode_of walk.now) depth at (expr_view_if e.now)
        sym.old sym.new) }
{
    match e {
        Some(test) => {
            test_turn(walk, sym, depth, at, test)?;
            Ok(())
        }
        None => Ok(()),
    }
}

/// The last part of `for (..)`, which is evaluated for its effects.
#[cycle(walk)]
pub fn step_on(
    walk: &Walk,
    sym: &mut Sym,
    depth: u32,
    at: Spot,
    e: &Option<Expr>,
) -> Result<(), OutOfMemory>
    requires walk { IsWalk walk.now }
    requires ready { StepReady (program_of walk.now) (mode_of walk.now) depth sym.old (expr_view_if e.now) }
    ensures { IfOk result (λ r. StepDoes (program_of walk.now) (mode_of walk.now) depth at (expr_view_if e.now)
        sym.old sym.new) }
{
    match e {
        Some(step) => {
            let _value = full(walk, sym, depth, at, false, step)?;
            Ok(())
        }
        None => Ok(()),
    }
}
