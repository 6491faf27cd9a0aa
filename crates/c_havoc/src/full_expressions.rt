// Full expressions of statements: tests, returned values, parts of a `for`.
ghost use Rattle.c_core.specs.Tree as t;
ghost use Rattle.c_core.specs.View.{program_view, expr_view, expr_view_if};
ghost use Rattle.run_state.specs.Interpreting.{same, use_of, flow_of};
ghost use Rattle.c_meaning.specs.Placing.{placed_view};
ghost use Rattle.havoc_state.specs.Havocking.{Gives, left_of, fulled, decided, formed, test_turned, goes_on, stepped_on};

use crate::expressions::eval;
use c_core::{Expr, IntType, Program, Spot};
use c_meaning::{PlacedInvariant, holds};
use havoc_state::{Halt, Machine};
use run_state::{Around, Flow, gave};

/// A full expression of the statement at a place.
#[cycle(run)]
pub fn full(
    program: &Program,
    invariants: &[PlacedInvariant],
    machine: &mut Machine,
    depth: u64,
    at: Spot,
    used: bool,
    e: &Expr,
) -> Result<i128, Halt>
    ensures { Gives same result (left_of machine.new)
        (fulled (program_view program.now) (placed_view invariants.now) depth at (use_of used) (expr_view e.now)
        (left_of machine.old)) }
{
    eval(
        program,
        invariants,
        machine,
        depth,
        Around {
            statement: at,
            full: e.spot,
        },
        used,
        e,
    )
}

/// Whether the test of the statement at a place isn't 0.
#[cycle(run)]
pub fn decide(
    program: &Program,
    invariants: &[PlacedInvariant],
    machine: &mut Machine,
    depth: u64,
    at: Spot,
    test: &Expr,
) -> Result<bool, Halt>
    ensures { Gives same result (left_of machine.new)
        (decided (program_view program.now) (placed_view invariants.now) depth at (expr_view test.now)
        (left_of machine.old)) }
{
    let value = full(program, invariants, machine, depth, at, true, test)?;
    Ok(holds(value))
}

/// An expression for its effects.
#[cycle(run)]
pub fn only(
    program: &Program,
    invariants: &[PlacedInvariant],
    machine: &mut Machine,
    depth: u64,
    wanted: Option<IntType>,
    at: Spot,
    e: &Expr,
) -> Result<Flow, Halt>
    ensures { Gives flow_of result (left_of machine.new)
        (formed (program_view program.now) (placed_view invariants.now) depth wanted at (t.Do (expr_view e.now))
        (left_of machine.old)) }
{
    full(program, invariants, machine, depth, at, false, e)?;
    Ok(Flow::Next)
}

/// A value to return, converted to the function's result.
#[cycle(run)]
pub fn give(
    program: &Program,
    invariants: &[PlacedInvariant],
    machine: &mut Machine,
    depth: u64,
    wanted: Option<IntType>,
    at: Spot,
    e: &Option<Expr>,
) -> Result<Flow, Halt>
    ensures { Gives flow_of result (left_of machine.new)
        (formed (program_view program.now) (placed_view invariants.now) depth wanted at (t.Return (expr_view_if e.now))
        (left_of machine.old)) }
{
    match e {
        None => Ok(Flow::Gave(None)),
        Some(e) => {
            let value = full(program, invariants, machine, depth, at, true, e)?;
            Ok(gave(program, wanted, value))
        }
    }
}

/// The test after a turn of `do`.
#[cycle(run)]
pub fn test_turn(
    program: &Program,
    invariants: &[PlacedInvariant],
    machine: &mut Machine,
    depth: u64,
    at: Spot,
    test: &Expr,
) -> Result<Flow, Halt>
    ensures { Gives flow_of result (left_of machine.new)
        (test_turned (program_view program.now) (placed_view invariants.now) depth at (expr_view test.now)
        (left_of machine.old)) }
{
    if decide(program, invariants, machine, depth, at, test)? {
        Ok(Flow::Next)
    } else {
        Ok(Flow::Broken)
    }
}

/// Whether a `for` goes on: without a test it does.
#[cycle(run)]
pub fn for_goes_on(
    program: &Program,
    invariants: &[PlacedInvariant],
    machine: &mut Machine,
    depth: u64,
    at: Spot,
    test: &Option<Expr>,
) -> Result<bool, Halt>
    ensures { Gives same result (left_of machine.new)
        (goes_on (program_view program.now) (placed_view invariants.now) depth at (expr_view_if test.now)
        (left_of machine.old)) }
{
    match test {
        None => Ok(true),
        Some(e) => decide(program, invariants, machine, depth, at, e),
    }
}

/// The last part of a turn of `for`.
#[cycle(run)]
pub fn step_on(
    program: &Program,
    invariants: &[PlacedInvariant],
    machine: &mut Machine,
    depth: u64,
    at: Spot,
    step: &Option<Expr>,
) -> Result<Flow, Halt>
    ensures { Gives flow_of result (left_of machine.new)
        (stepped_on (program_view program.now) (placed_view invariants.now) depth at (expr_view_if step.now)
        (left_of machine.old)) }
{
    match step {
        None => Ok(Flow::Next),
        Some(e) => only(program, invariants, machine, depth, None, at, e),
    }
}
