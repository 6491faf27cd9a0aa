// `switch`: its test chooses an arm, and the arms are walked once, in order. Runs enter at the chosen arm, and run on
// into the next.
ghost use Rattle.std.specs.Prelude.{IfOk};
ghost use Rattle.c_core.specs.Tree as t;
ghost use Rattle.c_core.specs.Typing.{labels_in};
ghost use Rattle.c_core.specs.View.{expr_view, stmts_view, switch_view};
ghost use Rattle.sym_walk.specs.Walking.{program_of, mode_of, IsWalk};
ghost use Rattle.sym_eval.specs.Doing.{FormReady, FormDoes};
ghost use Rattle.sym_eval.specs.Switching.{ChoiceReady, Chooses, ArmReady, ArmDoes, ArmsReady, ArmsDo};

use crate::control::full;
use crate::statements::execs;
use c_core::{Arm, Expr, IntType, Spot, Stmt, promote};
use c_meaning::type_of;
use circuits::{Bit, not};
use sym_choices::{case_bits, enter_arms};
use sym_flow::{end_loop, start_loop};
use sym_state::{Sym, join, narrow};
use sym_values::convert;
use sym_walk::{Walk, tell_choice};
use wv_base::OutOfMemory;

// The test is promoted, and its value chooses the arm, which is told: for each arm a bit, whether it is done.
#[cycle(walk)]
#[inline(never)]
fn chosen(
    walk: &Walk,
    sym: &mut Sym,
    depth: u32,
    at: Spot,
    test: &Expr,
    arms: &[Arm],
) -> Result<Vec<Bit>, OutOfMemory>
    requires walk { IsWalk walk.now }
    requires ready { ChoiceReady (program_of walk.now) (mode_of walk.now) depth at sym.old (expr_view test.now)
        (labels_in (switch_view arms.now)) }
    ensures { IfOk result (λ r. Chooses (program_of walk.now) (mode_of walk.now) depth at (expr_view test.now)
        (labels_in (switch_view arms.now)) sym.old sym.new r.items) }
{
    let x = full(walk, sym, depth, at, true, test)?;
    let from = type_of(test);
    let ty = promote(walk.program.model, from);
    let y = convert(walk.alloc, walk.program, sym, from, ty, &x)?;
    let cases = case_bits(walk.alloc, walk.program, sym, ty, &y, arms)?;
    tell_choice(walk, sym, at, ty, &y, arms, &cases)?;
    let bits = enter_arms(walk.alloc, walk.program, sym, &cases, arms)?;
    Ok(bits)
}

// One arm: the runs for which it is done do its statements, and come together with the others.
#[cycle(walk)]
#[inline(always)]
fn one_arm(
    walk: &Walk,
    sym: &mut Sym,
    depth: u32,
    gives: Option<IntType>,
    bit: Bit,
    body: &[Stmt],
) -> Result<(), OutOfMemory>
    requires walk { IsWalk walk.now }
    requires ready { ArmReady (program_of walk.now) (mode_of walk.now) depth gives sym.old bit
        (stmts_view body.now) }
    ensures { IfOk result (λ r. ArmDoes (program_of walk.now) (mode_of walk.now) depth gives bit
        (stmts_view body.now) sym.old sym.new) }
{
    let before = sym.live;
    let cells = sym.cells.len();
    narrow(sym, walk.program, before, bit)?;
    execs(walk, sym, depth, gives, body)?;
    // declarations stand in blocks alone, so that runs that enter later have the same cells
    if sym.cells.len() != cells {
        return Err(OutOfMemory);
    }
    let first = sym.live;
    let other = not(bit);
    narrow(sym, walk.program, before, other)?;
    join(sym, walk.program, first)?;
    Ok(())
}

// The arms, one after another.
#[cycle(walk)]
#[inline(always)]
fn walk_arms(
    walk: &Walk,
    sym: &mut Sym,
    depth: u32,
    gives: Option<IntType>,
    bits: &[Bit],
    arms: &[Arm],
) -> Result<(), OutOfMemory>
    requires walk { IsWalk walk.now }
    requires ready { ArmsReady (program_of walk.now) (mode_of walk.now) depth gives sym.old bits.now arms.now }
    ensures { IfOk result (λ r. ArmsDo (program_of walk.now) (mode_of walk.now) depth gives bits.now arms.now
        sym.old sym.new) }
{
    for (index, arm) in arms.iter().enumerate() {
        one_arm(walk, sym, depth, gives, bits[index], arm.body.as_slice())?;
    }
    Ok(())
}

/// A `switch`: a `break` in its arms leaves it.
#[cycle(walk)]
#[inline(never)]
pub fn switch(
    walk: &Walk,
    sym: &mut Sym,
    depth: u32,
    gives: Option<IntType>,
    at: Spot,
    test: &Expr,
    arms: &[Arm],
) -> Result<(), OutOfMemory>
    requires walk { IsWalk walk.now }
    requires ready { FormReady (program_of walk.now) (mode_of walk.now) depth gives at sym.old
        (t.Switch (expr_view test.now) (switch_view arms.now)) }
    ensures { IfOk result (λ r. FormDoes (program_of walk.now) (mode_of walk.now) depth gives at
        (t.Switch (expr_view test.now) (switch_view arms.now)) sym.old sym.new) }
{
    let bits = chosen(walk, sym, depth, at, test, arms)?;
    let cells = sym.cells.len();
    let kept = start_loop(sym, walk.program);
    walk_arms(walk, sym, depth, gives, &bits, arms)?;
    end_loop(sym, walk.program, kept, cells)?;
    Ok(())
}
