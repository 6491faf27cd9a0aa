// Full expressions of statements: tests, returned values, parts of a `for`.
ghost use Rattle.std.specs.Prelude.{◌≤◌};
ghost use Rattle.c_core.specs.Tree as t;
ghost use Rattle.c_core.specs.View.{program_view, expr_view, expr_view_if};
ghost use Rattle.run_state.specs.Interpreting.{Gives, same, state_of, use_of, flow_of, fulled, decided, formed, test_turned, goes_on, stepped_on};

use crate::expressions::eval;
use c_core::{Expr, IntType, Program, Spot};
use c_meaning::Watcher;
use run_state::{Around, Flow, Halt, Machine, branch, gave};

/// A full expression of the statement at a place.
#[cycle(run)]
pub fn full<W: Watcher>(
    program: &Program,
    machine: &mut Machine,
    watcher: &mut W,
    depth: u64,
    at: Spot,
    used: bool,
    e: &Expr,
) -> Result<i128, Halt>
    requires bound { machine.old.steps ≤ depth }
    ensures gives { Gives same result (state_of machine.new (W.seen watcher.new))
        (fulled (program_view program.now) W.Seen W.after depth at (use_of used) (expr_view e.now)
        (state_of machine.old (W.seen watcher.old))) }
    ensures spends { machine.new.steps ≤ machine.old.steps }
{
    eval(
        program,
        machine,
        watcher,
        depth,
        Around {
            statement: at,
            full: e.spot,
        },
        used,
        e,
    )
}

/// The test of the statement at a place, reported as a branching.
#[cycle(run)]
pub fn decide<W: Watcher>(
    program: &Program,
    machine: &mut Machine,
    watcher: &mut W,
    depth: u64,
    at: Spot,
    test: &Expr,
) -> Result<bool, Halt>
    requires bound { machine.old.steps ≤ depth }
    ensures gives { Gives same result (state_of machine.new (W.seen watcher.new))
        (decided (program_view program.now) W.Seen W.after depth at (expr_view test.now)
        (state_of machine.old (W.seen watcher.old))) }
    ensures spends { machine.new.steps ≤ machine.old.steps }
{
    let value = full(program, machine, watcher, depth, at, true, test)?;
    branch(program, machine, watcher, at, value)
}

/// An expression for its effects.
#[cycle(run)]
pub fn only<W: Watcher>(
    program: &Program,
    machine: &mut Machine,
    watcher: &mut W,
    depth: u64,
    wanted: Option<IntType>,
    at: Spot,
    e: &Expr,
) -> Result<Flow, Halt>
    requires bound { machine.old.steps ≤ depth }
    ensures gives { Gives flow_of result (state_of machine.new (W.seen watcher.new))
        (formed (program_view program.now) W.Seen W.after depth wanted at (t.Do (expr_view e.now))
        (state_of machine.old (W.seen watcher.old))) }
    ensures spends { machine.new.steps ≤ machine.old.steps }
{
    full(program, machine, watcher, depth, at, false, e)?;
    Ok(Flow::Next)
}

/// A value to return, converted to the function's result.
#[cycle(run)]
pub fn give<W: Watcher>(
    program: &Program,
    machine: &mut Machine,
    watcher: &mut W,
    depth: u64,
    wanted: Option<IntType>,
    at: Spot,
    e: &Option<Expr>,
) -> Result<Flow, Halt>
    requires bound { machine.old.steps ≤ depth }
    ensures gives { Gives flow_of result (state_of machine.new (W.seen watcher.new))
        (formed (program_view program.now) W.Seen W.after depth wanted at (t.Return (expr_view_if e.now))
        (state_of machine.old (W.seen watcher.old))) }
    ensures spends { machine.new.steps ≤ machine.old.steps }
{
    match e {
        None => Ok(Flow::Gave(None)),
        Some(e) => {
            let value = full(program, machine, watcher, depth, at, true, e)?;
            Ok(gave(program, wanted, value))
        }
    }
}

/// The test after a turn of `do`.
#[cycle(run)]
pub fn test_turn<W: Watcher>(
    program: &Program,
    machine: &mut Machine,
    watcher: &mut W,
    depth: u64,
    at: Spot,
    test: &Expr,
) -> Result<Flow, Halt>
    requires bound { machine.old.steps ≤ depth }
    ensures gives { Gives flow_of result (state_of machine.new (W.seen watcher.new))
        (test_turned (program_view program.now) W.Seen W.after depth at (expr_view test.now)
        (state_of machine.old (W.seen watcher.old))) }
    ensures spends { machine.new.steps ≤ machine.old.steps }
{
    if decide(program, machine, watcher, depth, at, test)? {
        Ok(Flow::Next)
    } else {
        Ok(Flow::Broken)
    }
}

/// Whether a `for` goes on: without a test it does.
#[cycle(run)]
pub fn for_goes_on<W: Watcher>(
    program: &Program,
    machine: &mut Machine,
    watcher: &mut W,
    depth: u64,
    at: Spot,
    test: &Option<Expr>,
) -> Result<bool, Halt>
    requires bound { machine.old.steps ≤ depth }
    ensures gives { Gives same result (state_of machine.new (W.seen watcher.new))
        (goes_on (program_view program.now) W.Seen W.after depth at (expr_view_if test.now)
        (state_of machine.old (W.seen watcher.old))) }
    ensures spends { machine.new.steps ≤ machine.old.steps }
{
    match test {
        None => Ok(true),
        Some(e) => decide(program, machine, watcher, depth, at, e),
    }
}

/// The last part of a turn of `for`.
#[cycle(run)]
pub fn step_on<W: Watcher>(
    program: &Program,
    machine: &mut Machine,
    watcher: &mut W,
    depth: u64,
    at: Spot,
    step: &Option<Expr>,
) -> Result<Flow, Halt>
    requires bound { machine.old.steps ≤ depth }
    ensures gives { Gives flow_of result (state_of machine.new (W.seen watcher.new))
        (stepped_on (program_view program.now) W.Seen W.after depth at (expr_view_if step.now)
        (state_of machine.old (W.seen watcher.old))) }
    ensures spends { machine.new.steps ≤ machine.old.steps }
{
    match step {
        None => Ok(Flow::Next),
        Some(e) => only(program, machine, watcher, depth, None, at, e),
    }
}
