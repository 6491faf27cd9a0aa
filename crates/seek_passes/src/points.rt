// Which runs pass a waypoint at an event.
ghost use Rattle.std.specs.Prelude.{◌≡◌, ◌+◌, ◌<◌, ◌^◌, ℕ, ℤ, Bool, IfOk, List, MatchOption, length};
ghost use Rattle.std.specs.List.{All};
ghost use Rattle.c_core.specs.Tree.{Program as pure_program};
ghost use Rattle.c_core.specs.Typing.{labels_in};
ghost use Rattle.c_core.specs.View.{program_view, expr_view, switch_view};
ghost use Rattle.c_meaning.specs.Cells.{Cell};
ghost use Rattle.c_meaning.specs.Run.{way_for};
ghost use Rattle.c_meaning.specs.declared.run.Way.{Way as ways};
ghost use Rattle.circuits.specs.Net.{holds, Means, IsIn};
ghost use Rattle.circuits.specs.Numbers.{typed, AreIn, AreTyped};
ghost use Rattle.seek_weight.specs.Tolls.{AStatement, ACall};
ghost use Rattle.sym_state.specs.Standing.{stand, IsState};
ghost use Rattle.sym_values.specs.Valuing.{Decided};
ghost use Rattle.way_match.specs.Passing.{passes};
ghost use Rattle.way_match.specs.View.{point_view, points_view, test_view_if};
ghost use Rattle.seek_passes.specs.Charges.{any_weight, placed_cost, point_weight};
ghost use Rattle.seek_passes.specs.Event.{given_if, AreCasesOf, IsNoneOf};
ghost use Rattle.seek_passes.specs.Passing.{IsPoint, CanTell, PassesPoint, PassesAny};
ghost use Rattle.seek_passes.specs.Placed.{IsAssumed, NoneAssumed, IsCameBack, NoneCameBack, asks};

use crate::event::SymEvent;
use crate::returned::meets_at;
use crate::spots::{known, same_spot};
use crate::ways::{arm_way, truth_way};
use c_core::{Arm, Expr, IntType, Program, Spot};
use c_meaning::{Event, Way};
use circuits::{Bit, Bits, Net, not, or};
use std::alloc::Global;
use sym_invariants::holds_bit;
use sym_state::Sym;
use way_match::{Point, ReturnTest};
use wv_base::OutOfMemory;

// What an assumption at a place asks.
fn assumed(point: &Point, at: Spot) -> Option<&Expr>
    ensures { MatchOption result (NoneAssumed (point_view point.now) at)
        (λ test. IsAssumed (point_view point.now) at (expr_view test.now)) }
{
    match point {
        Point::Assume(spot, test) => {
            if same_spot(*spot, at) {
                Some(test)
            } else {
                None
            }
        }
        _ => None,
    }
}

// The constraint of a return at a place.
fn came_back(point: &Point, at: Spot) -> Option<&Option<ReturnTest>>
    ensures { MatchOption result (NoneCameBack (point_view point.now) at)
        (λ test. IsCameBack (point_view point.now) at (test_view_if test.now)) }
{
    match point {
        Point::Return(close, test) => {
            if same_spot(*close, at) {
                Some(test)
            } else {
                None
            }
        }
        _ => None,
    }
}

// The way that a waypoint asks of the branching at a place.
fn asked(point: &Point, at: Spot) -> Option<Way>
    ensures { (p : pure_program) (taken : ways) (cells : List Cell)
        → passes p (point_view point.now) (Event.Branch at taken) cells ≡ asks result taken }
{
    match point {
        Point::Branch(spot, way) => {
            if same_spot(*spot, at) {
                Some(*way)
            } else {
                None
            }
        }
        _ => None,
    }
}

fn enters(point: &Point, at: Spot) -> bool
    ensures { (p : pure_program) (cells : List Cell)
        → result ≡ passes p (point_view point.now) (Event.Enter at) cells }
{
    match point {
        Point::Enter(close) => same_spot(*close, at),
        _ => false,
    }
}

// Where a run that is at a statement passes a waypoint.
fn at_statement(
    alloc: Global,
    program: &Program,
    sym: &mut Sym,
    point: &Point,
    at: Spot,
) -> Result<Bit, OutOfMemory>
    requires point { IsPoint (program_view program.now) (point_view point.now) }
    requires fits { IsState (program_view program.now) sym.old }
    requires room { length sym.old.net + placed_cost (program_view program.now) AStatement at (point_view point.now)
        < 2 ^ 27 }
    ensures { IfOk result (λ r. Decided (program_view program.now)
        (placed_cost (program_view program.now) AStatement at (point_view point.now)) sym.old sym.new r
        (λ v. passes (program_view program.now) (point_view point.now) (Event.At at)
        (stand (program_view program.now) v sym.old).cells)) }
{
    match assumed(point, at) {
        Some(test) => {
            let holds = holds_bit(alloc, program, sym, test)?;
            Ok(holds)
        }
        None => Ok(not(sym.net.yes())),
    }
}

// Where a run whose call came back passes a waypoint.
fn at_return(
    alloc: Global,
    program: &Program,
    sym: &mut Sym,
    point: &Point,
    at: Spot,
    ty: IntType,
    bits: &Bits,
    gave: Bit,
) -> Result<Bit, OutOfMemory>
    requires point { IsPoint (program_view program.now) (point_view point.now) }
    requires fits { IsState (program_view program.now) sym.old }
    requires bits_in { AreTyped program.now.model ty sym.old.net bits.now.bits }
    requires gave_in { IsIn sym.old.net gave }
    requires room { length sym.old.net + placed_cost (program_view program.now) ACall at (point_view point.now)
        < 2 ^ 27 }
    ensures { IfOk result (λ r. Decided (program_view program.now)
        (placed_cost (program_view program.now) ACall at (point_view point.now)) sym.old sym.new r
        (λ v. passes (program_view program.now) (point_view point.now)
        (Event.Return at (given_if (holds v sym.old.net gave)
        (typed program.now.model ty v sym.old.net bits.now.bits)))
        (stand (program_view program.now) v sym.old).cells)) }
{
    match came_back(point, at) {
        Some(test) => {
            let meets = meets_at(alloc, program, sym, at, test, ty, bits, gave)?;
            Ok(meets)
        }
        None => Ok(not(sym.net.yes())),
    }
}

// Where a run whose condition has this truth value passes a waypoint.
fn at_branch(net: &Net, point: &Point, at: Spot, truth: Bit) -> Bit
    requires { IsIn net.now truth }
    ensures { (p : pure_program) (cells : (ℕ → Bool) → List Cell) → Means net.now result
        (λ v. passes p (point_view point.now) (Event.Branch at (Way.Truth (holds v net.now truth))) (cells v)) }
{
    match asked(point, at) {
        Some(way) => truth_way(net, way, truth),
        None => not(net.yes()),
    }
}

// Where a run that takes an arm of a switch passes a waypoint.
fn at_switch(net: &Net, point: &Point, at: Spot, arms: &[Arm], cases: &[Bit], none: Bit) -> Bit
    requires cases_in { AreIn net.now cases.now }
    requires many { length cases.now ≡ length arms.now }
    requires none_in { IsIn net.now none }
    ensures { (z : (ℕ → Bool) → ℤ)
        → AreCasesOf net.now cases.now arms.now z → IsNoneOf net.now none arms.now z
        → (p : pure_program) (cells : (ℕ → Bool) → List Cell) → Means net.now result
        (λ v. passes p (point_view point.now) (Event.Branch at (way_for (z v) (labels_in (switch_view arms.now))))
        (cells v)) }
{
    match asked(point, at) {
        Some(way) => arm_way(net, way, arms, cases, none),
        None => not(net.yes()),
    }
}

/// Where a run that gives an event passes a waypoint.
pub fn passes_point(
    alloc: Global,
    program: &Program,
    sym: &mut Sym,
    point: &Point,
    event: &SymEvent,
) -> Result<Bit, OutOfMemory>
    requires point { IsPoint (program_view program.now) (point_view point.now) }
    requires ready { CanTell (program_view program.now) event.now sym.old
        (point_weight (program_view program.now) event.now (point_view point.now)) }
    ensures { IfOk result (λ r. PassesPoint (program_view program.now) event.now (point_view point.now) sym.old sym.new
        r) }
{
    match event {
        SymEvent::At(at) => {
            let bit = at_statement(alloc, program, sym, point, *at)?;
            Ok(bit)
        }
        SymEvent::Enter(at) => Ok(known(&sym.net, enters(point, *at))),
        SymEvent::Return {
            close,
            ty,
            bits,
            gave,
        } => {
            let bit = at_return(alloc, program, sym, point, *close, *ty, *bits, *gave)?;
            Ok(bit)
        }
        SymEvent::Branch(at, truth) => Ok(at_branch(&sym.net, point, *at, *truth)),
        SymEvent::Select {
            spot,
            ty,
            value,
            arms,
            cases,
            none,
        } => Ok(at_switch(&sym.net, point, *spot, *arms, *cases, *none)),
    }
}

/// Where a run that gives an event passes one of several waypoints.
pub fn passes_any(
    alloc: Global,
    program: &Program,
    sym: &mut Sym,
    points: &[Point],
    event: &SymEvent,
) -> Result<Bit, OutOfMemory>
    requires points { All (IsPoint (program_view program.now)) (points_view points.now) }
    requires ready { CanTell (program_view program.now) event.now sym.old
        (any_weight (program_view program.now) event.now (points_view points.now)) }
    ensures { IfOk result (λ r. PassesAny (program_view program.now) event.now (points_view points.now) sym.old sym.new
        r) }
{
    let mut some = not(sym.net.yes());
    for point in points {
        let bit = passes_point(alloc, program, sym, point, event)?;
        some = or(&mut sym.net, some, bit)?;
    }
    Ok(some)
}
