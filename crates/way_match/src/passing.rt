// Which events pass a waypoint.
ghost use Rattle.std.specs.Prelude.{◌≡◌, length};
ghost use Rattle.c_core.specs.Types.{common_of, IsPromoted};
ghost use Rattle.c_core.specs.View.{program_view, expr_view};
ghost use Rattle.c_meaning.specs.Objects.{type_of as type_of_exp};
ghost use Rattle.c_core.specs.Parts.{same_spot as same_spot_of};
ghost use Rattle.c_meaning.specs.Value.{and_then, is_true, wrapping};
ghost use Rattle.way_match.specs.Passing as passing;
ghost use Rattle.way_match.specs.inside.Prepared.{all_ready, comparison_of, ready_of};
ghost use Rattle.way_match.specs.Points.{Return};
ghost use Rattle.way_match.specs.View.{aim_view, point_view, points_view, test_view, test_view_if};

use crate::point::{Aim, Point, ReturnTest};
use crate::prepared::{Comparison, Ready, type_of};
use c_core::{BinOp, DataModel, Done, IntType, Program, Spot, apply, common, fitted};
use c_meaning::{Event, Memory, Way};
use way_tests::holds_by;

fn same_spot(a: Spot, b: Spot) -> bool
    ensures { result ≡ same_spot_of a b }
{
    a.line == b.line && a.column == b.column
}

fn aims(aim: Aim, at: Spot) -> bool
    ensures { result ≡ passing.aims (aim_view aim) at }
{
    match aim {
        Aim::At(spot) => same_spot(spot, at),
        Aim::Line(line) => line == at.line,
    }
}

fn aims_if(aim: Aim, at: Option<Spot>) -> bool
    ensures { result ≡ passing.aims_if (aim_view aim) at }
{
    match at {
        Some(at) => aims(aim, at),
        None => false,
    }
}

fn same_way(a: Way, b: Way) -> bool
    ensures { result ≡ passing.same_way a b }
{
    match (a, b) {
        (Way::Truth(a), Way::Truth(b)) => a == b,
        (Way::Case(a), Way::Case(b)) => a == b,
        (Way::Default, Way::Default) => true,
        _ => false,
    }
}

// The type in which a returned value and a constant are compared.
fn common_type(model: DataModel, a: IntType, b: IntType) -> IntType
    ensures value { result ≡ common_of model a b }
    ensures promoted { IsPromoted result }
{
    common(model, a, b)
}

fn compare(model: DataModel, op: BinOp, a: IntType, x: i128, b: IntType, y: i128) -> Done
    ensures { result ≡ passing.compared model op a x b y }
{
    let ty = common_type(model, a, b);
    let left = fitted(model, ty, x);
    let right = fitted(model, ty, y);
    apply(model, op, ty, left, right)
}

// An overflow wraps, and what is undefined isn't met.
fn is_met(done: Done) -> bool
    ensures { result ≡ is_true (wrapping done) }
{
    match done {
        Done::Value(value) => value != 0,
        Done::Overflow(value) => value != 0,
        Done::Undefined => false,
    }
}

fn meets(program: &Program, test: &ReturnTest, comparison: Comparison, value: i128) -> bool
    ensures { result ≡ is_true (and_then comparison.constant
        (λ w. wrapping (passing.compared (program_view program.now).model test.now.op comparison.ty value
        (type_of_exp (expr_view test.now.constant)) w))) }
{
    match comparison.constant {
        Some(constant) => is_met(compare(
            program.model,
            test.op,
            comparison.ty,
            value,
            type_of(&test.constant),
            constant,
        )),
        None => false,
    }
}

fn meets_at(
    program: &Program,
    close: Spot,
    test: &Option<ReturnTest>,
    comparison: Option<Comparison>,
    value: Option<i128>,
) -> bool
    requires { comparison ≡ comparison_of (program_view program.now) (Return close (test_view_if test.now)) }
    ensures { result ≡ passing.meets_at (program_view program.now) close (test_view_if test.now) value }
{
    match test {
        None => true,
        Some(test) => match (comparison, value) {
            (Some(comparison), Some(value)) => meets(program, test, comparison, value),
            _ => false,
        },
    }
}

/// Whether an event passes a waypoint, in the memory of that moment.
pub fn passes(
    program: &Program,
    point: &Point,
    ready: &Ready,
    event: Event,
    memory: &Memory,
) -> bool
    requires { ready.now ≡ ready_of (program_view program.now) (point_view point.now) }
    ensures { result ≡ passing.passes (program_view program.now) (point_view point.now) event memory.now.cells }
{
    match (point, event) {
        (Point::Assume(spot, test), Event::At(at)) => {
            same_spot(*spot, at) && holds_by(program, test, &ready.steps, memory)
        }
        (
            Point::Target(aim),
            Event::Fail {
                statement,
                full,
                call,
            },
        ) => aims(*aim, statement) || aims(*aim, full) || aims_if(*aim, call),
        (Point::Enter(close), Event::Enter(at)) => same_spot(*close, at),
        (Point::Return(close, test), Event::Return(at, value)) => {
            same_spot(*close, at) && meets_at(program, *close, test, ready.comparison, value)
        }
        (Point::Branch(spot, way), Event::Branch(at, taken)) => {
            same_spot(*spot, at) && same_way(*way, taken)
        }
        _ => false,
    }
}

/// Whether an event passes any of the waypoints.
pub fn passes_any(
    program: &Program,
    points: &[Point],
    each: &[Ready],
    event: Event,
    memory: &Memory,
) -> bool
    requires prepared { each.now ≡ all_ready (program_view program.now) (points_view points.now) }
    requires one_each { length each.now ≡ length points.now }
    ensures { result ≡ passing.passes_any (program_view program.now) (points_view points.now) event memory.now.cells }
{
    for (i, point) in points.iter().enumerate() {
        if passes(program, point, &each[i], event, memory) {
            return true;
        }
    }
    false
}

pub fn is_assumption(point: &Point) -> bool
    ensures { result ≡ passing.is_assumption (point_view point.now) }
{
    matches!(point, Point::Assume(_, _))
}
