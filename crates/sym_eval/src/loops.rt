// Loops: by their invariants one turn stands for all, or turns are taken one after another, up to a bound (C11 6.8.5).
ghost use Rattle.std.specs.Prelude.{◌≡◌, ◌+◌, ◌*◌, ◌<◌, ◌^◌, IfOk, IsTrue, Some, None, length, true};
ghost use Rattle.c_calls.specs.Loops.{is_loop, loop_of};
ghost use Rattle.c_core.specs.View.{expr_view, expr_view_if, first_view, form_view, stmt_view};
ghost use Rattle.c_meaning.specs.Meaning.{WhileLoop, DoLoop, ForLoop};
ghost use Rattle.sym_state.specs.Standing.{IsState};
ghost use Rattle.sym_weight.specs.Weight.{placed_weight};
ghost use Rattle.sym_invariants.specs.Obliged as obligations;
ghost use Rattle.sym_invariants.specs.Obliged.{invariants_of, IsObliged};
ghost use Rattle.sym_walk.specs.declared.walk.Judging.TheVariants.{Obliges, Seeks};
ghost use Rattle.sym_walk.specs.Walking.{program_of, mode_of, IsWalk};
ghost use Rattle.sym_eval.specs.Doing.{FormReady, FormDoes};
ghost use Rattle.sym_eval.specs.Looping.{BodyReady, BodyDoes, TurnReady, TurnDoes, changed_bits, HeadDoes, LastDoes, TurnsReady, TurnsDo, LoopReady, LoopDoes, ForReady, ForDoes};

use crate::control::{step_on, test_turn, test_turn_if};
use crate::declarations::first;
use crate::statements::statement;
use c_calls::changed_in;
use c_core::{Expr, First, Form, IntType, Spot, Stmt};
use c_meaning::DutyKind;
use sym_flow::{cut, end_body, end_loop, redraw, start_body, start_loop};
use sym_invariants::{Obliged, Obliging, assume_all, test_all};
use sym_state::Sym;
use sym_values::end;
use sym_walk::{Judging, Seeking, Walk};
use wv_base::OutOfMemory;

// A loop's body: its cells end with it, and so does the way of `continue`.
#[cycle(walk)]
#[inline(always)]
fn loop_body(
    walk: &Walk,
    sym: &mut Sym,
    depth: u32,
    gives: Option<IntType>,
    body: &Stmt,
) -> Result<(), OutOfMemory>
    requires walk { IsWalk walk.now }
    requires ready { BodyReady (program_of walk.now) (mode_of walk.now) depth gives sym.old (stmt_view body.now) }
    ensures { IfOk result (λ r. BodyDoes (program_of walk.now) (mode_of walk.now) depth gives (stmt_view body.now)
        sym.old sym.new) }
{
    let cells = sym.cells.len();
    let kept = start_body(sym, walk.program);
    statement(walk, sym, depth, gives, body)?;
    end_body(sym, walk.program, kept, cells)?;
    Ok(())
}

#[cycle(walk)]
#[inline(always)]
fn while_turn(
    walk: &Walk,
    sym: &mut Sym,
    depth: u32,
    gives: Option<IntType>,
    at: Spot,
    test: &Expr,
    body: &Stmt,
) -> Result<(), OutOfMemory>
    requires walk { IsWalk walk.now }
    requires ready { TurnReady (program_of walk.now) (mode_of walk.now) depth gives at sym.old
        (Some (WhileLoop (expr_view test.now) (stmt_view body.now))) }
    ensures { IfOk result (λ r. TurnDoes (program_of walk.now) (mode_of walk.now) depth gives at
        (Some (WhileLoop (expr_view test.now) (stmt_view body.now))) sym.old sym.new) }
{
    test_turn(walk, sym, depth, at, test)?;
    loop_body(walk, sym, depth, gives, body)?;
    Ok(())
}

#[cycle(walk)]
#[inline(always)]
fn do_turn(
    walk: &Walk,
    sym: &mut Sym,
    depth: u32,
    gives: Option<IntType>,
    at: Spot,
    body: &Stmt,
    test: &Expr,
) -> Result<(), OutOfMemory>
    requires walk { IsWalk walk.now }
    requires ready { TurnReady (program_of walk.now) (mode_of walk.now) depth gives at sym.old
        (Some (DoLoop (stmt_view body.now) (expr_view test.now))) }
    ensures { IfOk result (λ r. TurnDoes (program_of walk.now) (mode_of walk.now) depth gives at
        (Some (DoLoop (stmt_view body.now) (expr_view test.now))) sym.old sym.new) }
{
    loop_body(walk, sym, depth, gives, body)?;
    test_turn(walk, sym, depth, at, test)?;
    Ok(())
}

#[cycle(walk)]
#[inline(always)]
fn for_turn(
    walk: &Walk,
    sym: &mut Sym,
    depth: u32,
    gives: Option<IntType>,
    at: Spot,
    test: &Option<Expr>,
    step: &Option<Expr>,
    body: &Stmt,
) -> Result<(), OutOfMemory>
    requires walk { IsWalk walk.now }
    requires ready { TurnReady (program_of walk.now) (mode_of walk.now) depth gives at sym.old
        (Some (ForLoop (expr_view_if test.now) (expr_view_if step.now) (stmt_view body.now))) }
    ensures { IfOk result (λ r. TurnDoes (program_of walk.now) (mode_of walk.now) depth gives at
        (Some (ForLoop (expr_view_if test.now) (expr_view_if step.now) (stmt_view body.now))) sym.old sym.new) }
{
    test_turn_if(walk, sym, depth, at, test)?;
    loop_body(walk, sym, depth, gives, body)?;
    step_on(walk, sym, depth, at, step)?;
    Ok(())
}

// The turn of the loop that a form is; any other form has none.
#[cycle(walk)]
#[inline(always)]
fn turn(
    walk: &Walk,
    sym: &mut Sym,
    depth: u32,
    gives: Option<IntType>,
    at: Spot,
    f: &Form,
) -> Result<(), OutOfMemory>
    requires walk { IsWalk walk.now }
    requires ready { TurnReady (program_of walk.now) (mode_of walk.now) depth gives at sym.old
        (loop_of (form_view f.now)) }
    ensures { IfOk result (λ r. TurnDoes (program_of walk.now) (mode_of walk.now) depth gives at
        (loop_of (form_view f.now)) sym.old sym.new) }
{
    match f {
        Form::While { test, body } => {
            while_turn(walk, sym, depth, gives, at, test, body)?;
            Ok(())
        }
        Form::Do { body, test } => {
            do_turn(walk, sym, depth, gives, at, body, test)?;
            Ok(())
        }
        Form::For {
            test,
            step,
            body,
            ..
        } => {
            for_turn(walk, sym, depth, gives, at, test, step, body)?;
            Ok(())
        }
        _ => Ok(()),
    }
}

// In the mode of obligations a loop's head, before the turn: the invariants have to hold on arrival, what the loop
// changes is drawn, and runs go on only where the invariants hold again.
#[inline(never)]
fn head(obliged: &Obliged, sym: &mut Sym, at: Spot, f: &Form) -> Result<(), OutOfMemory>
    requires obliged { IsObliged obliged.now }
    requires fits { IsState (obligations.program_of obliged.now) sym.old }
    requires room { length sym.old.net + (2 * placed_weight (obligations.program_of obliged.now)
        (invariants_of obliged.now) true at + 5 *
        changed_bits (obligations.program_of obliged.now) (loop_of (form_view f.now))) < 2 ^ 27 }
    ensures { IfOk result (λ r. HeadDoes (obligations.program_of obliged.now) (invariants_of obliged.now) at
        (loop_of (form_view f.now)) sym.old sym.new) }
{
    test_all(obliged, sym, true, at, DutyKind::Entry)?;
    let changed = changed_in(obliged.alloc, obliged.program, f)?;
    redraw(obliged.alloc, obliged.program, sym, at, changed.as_slice())?;
    assume_all(obliged, sym, at)?;
    Ok(())
}

// In the mode of obligations a loop: where the turn comes back to the head the invariants have to hold once more, and
// the run ends; runs that left the loop go on.
#[cycle(walk)]
#[inline(never)]
fn one_turn(
    walk: &Walk,
    mode: Obliging,
    sym: &mut Sym,
    depth: u32,
    gives: Option<IntType>,
    at: Spot,
    f: &Form,
) -> Result<(), OutOfMemory>
    requires walk { IsWalk walk.now }
    requires judging { walk.now.mode ≡ Obliges mode }
    requires ready { LoopReady (program_of walk.now) (mode_of walk.now) depth gives at sym.old
        (loop_of (form_view f.now)) }
    ensures { IfOk result (λ r. LoopDoes (program_of walk.now) (mode_of walk.now) depth gives at
        (loop_of (form_view f.now)) sym.old sym.new) }
{
    let obliged = Obliged {
        alloc: walk.alloc,
        program: walk.program,
        mode,
    };
    let cells = sym.cells.len();
    let kept = start_loop(sym, walk.program);
    head(&obliged, sym, at, f)?;
    turn(walk, sym, depth, gives, at, f)?;
    test_all(&obliged, sym, true, at, DutyKind::Kept)?;
    end(sym, walk.program)?;
    end_loop(sym, walk.program, kept, cells)?;
    Ok(())
}

// The test of the turn that may not begin the body any more, where the loop has one before the body.
#[cycle(walk)]
fn last_test(
    walk: &Walk,
    sym: &mut Sym,
    depth: u32,
    gives: Option<IntType>,
    at: Spot,
    f: &Form,
) -> Result<(), OutOfMemory>
    requires walk { IsWalk walk.now }
    requires ready { TurnsReady (program_of walk.now) (mode_of walk.now) depth gives 0 at sym.old
        (loop_of (form_view f.now)) }
    ensures { IfOk result (λ r. LastDoes (program_of walk.now) (mode_of walk.now) depth gives at
        (loop_of (form_view f.now)) sym.old sym.new) }
{
    match f {
        Form::While { test, .. } => {
            test_turn(walk, sym, depth, at, test)?;
            Ok(())
        }
        Form::Do { .. } => Ok(()),
        Form::For { test, .. } => {
            test_turn_if(walk, sym, depth, at, test)?;
            Ok(())
        }
        _ => Ok(()),
    }
}

// The turns of a loop, of which this many may begin the body: runs that come to the head after them are tested once
// more, and end where the body would begin.
#[cycle(walk)]
#[inline(never)]
fn turns(
    walk: &Walk,
    sym: &mut Sym,
    depth: u32,
    gives: Option<IntType>,
    at: Spot,
    f: &Form,
    left: u32,
) -> Result<(), OutOfMemory>
    requires walk { IsWalk walk.now }
    requires ready { TurnsReady (program_of walk.now) (mode_of walk.now) depth gives left at sym.old
        (loop_of (form_view f.now)) }
    ensures { IfOk result (λ r. TurnsDo (program_of walk.now) (mode_of walk.now) depth gives left at
        (loop_of (form_view f.now)) sym.old sym.new) }
{
    if left == 0 {
        last_test(walk, sym, depth, gives, at, f)?;
        end(sym, walk.program)?;
        return Ok(());
    }
    turn(walk, sym, depth, gives, at, f)?;
    turns(walk, sym, depth, gives, at, f, left - 1)?;
    Ok(())
}

// In the mode of runs that seek a loop: its turns, as many as the bound says; runs that left the loop go on.
#[cycle(walk)]
#[inline(never)]
fn all_turns(
    walk: &Walk,
    mode: Seeking,
    sym: &mut Sym,
    depth: u32,
    gives: Option<IntType>,
    at: Spot,
    f: &Form,
) -> Result<(), OutOfMemory>
    requires walk { IsWalk walk.now }
    requires judging { walk.now.mode ≡ Seeks mode }
    requires ready { LoopReady (program_of walk.now) (mode_of walk.now) depth gives at sym.old
        (loop_of (form_view f.now)) }
    ensures { IfOk result (λ r. LoopDoes (program_of walk.now) (mode_of walk.now) depth gives at
        (loop_of (form_view f.now)) sym.old sym.new) }
{
    let cells = sym.cells.len();
    let outer = start_loop(sym, walk.program);
    turns(walk, sym, depth, gives, at, f, mode.turns)?;
    end_loop(sym, walk.program, outer, cells)?;
    Ok(())
}

// A loop, as its mode does it.
#[cycle(walk)]
#[inline(always)]
fn loop_scope(
    walk: &Walk,
    sym: &mut Sym,
    depth: u32,
    gives: Option<IntType>,
    at: Spot,
    f: &Form,
) -> Result<(), OutOfMemory>
    requires walk { IsWalk walk.now }
    requires ready { LoopReady (program_of walk.now) (mode_of walk.now) depth gives at sym.old
        (loop_of (form_view f.now)) }
    ensures { IfOk result (λ r. LoopDoes (program_of walk.now) (mode_of walk.now) depth gives at
        (loop_of (form_view f.now)) sym.old sym.new) }
{
    match walk.mode {
        Judging::Obliges(mode) => {
            one_turn(walk, mode, sym, depth, gives, at, f)?;
            Ok(())
        }
        Judging::Seeks(mode) => {
            all_turns(walk, mode, sym, depth, gives, at, f)?;
            Ok(())
        }
    }
}

// A `for`: what its first part declares ends with it (C11 6.8.5p5).
#[cycle(walk)]
#[inline(always)]
fn for_scope(
    walk: &Walk,
    sym: &mut Sym,
    depth: u32,
    gives: Option<IntType>,
    at: Spot,
    start: &First,
    f: &Form,
) -> Result<(), OutOfMemory>
    requires walk { IsWalk walk.now }
    requires ready { ForReady (program_of walk.now) (mode_of walk.now) depth gives at sym.old
        (first_view start.now) (loop_of (form_view f.now)) }
    ensures { IfOk result (λ r. ForDoes (program_of walk.now) (mode_of walk.now) depth gives at
        (first_view start.now) (loop_of (form_view f.now)) sym.old sym.new) }
{
    let cells = sym.cells.len();
    first(walk, sym, depth, at, start)?;
    loop_scope(walk, sym, depth, gives, at, f)?;
    cut(sym, walk.program, cells);
    Ok(())
}

/// A statement that is a loop: `while`, `do` or `for`.
#[cycle(walk)]
#[inline(never)]
pub fn one_loop(
    walk: &Walk,
    sym: &mut Sym,
    depth: u32,
    gives: Option<IntType>,
    at: Spot,
    f: &Form,
) -> Result<(), OutOfMemory>
    requires walk { IsWalk walk.now }
    requires looping { IsTrue (is_loop (form_view f.now)) }
    requires ready { FormReady (program_of walk.now) (mode_of walk.now) depth gives at sym.old (form_view f.now) }
    ensures { IfOk result (λ r. FormDoes (program_of walk.now) (mode_of walk.now) depth gives at (form_view f.now)
        sym.old sym.new) }
{
    match f {
        Form::While { .. } => {
            loop_scope(walk, sym, depth, gives, at, f)?;
            Ok(())
        }
        Form::Do { .. } => {
            loop_scope(walk, sym, depth, gives, at, f)?;
            Ok(())
        }
        Form::For { first, .. } => {
            for_scope(walk, sym, depth, gives, at, first, f)?;
            Ok(())
        }
        _ => unreachable!(),
    }
}
