// Waypoints that ask the same of an event: at one place, with equal trees.
ghost use Rattle.std.specs.Prelude.{◌≡◌, true};
ghost use Rattle.way_match.specs.View.{point_view, test_view_if};

use crate::point::{Point, ReturnTest};
use c_core::{BinOp, Spot};
use c_meaning::Way;
use way_same::{is_same, key_of};

fn same_spot(a: Spot, b: Spot) -> bool
    ensures { result ≡ true → a ≡ b }
{
    a == b
}

fn same_binary(a: BinOp, b: BinOp) -> bool
    ensures { result ≡ true → a ≡ b }
{
    a == b
}

fn same_way(a: Way, b: Way) -> bool
    ensures { result ≡ true → a ≡ b }
{
    a == b
}

fn same_test(a: &Option<ReturnTest>, b: &Option<ReturnTest>) -> bool
    ensures { result ≡ true → test_view_if a.now ≡ test_view_if b.now }
{
    match (a, b) {
        (None, None) => true,
        (Some(a), Some(b)) => same_binary(a.op, b.op) && is_same(&a.constant, &b.constant),
        _ => false,
    }
}

/// Whether two waypoints are the same; targets count as different.
pub fn same_point(a: &Point, b: &Point) -> bool
    ensures { result ≡ true → point_view a.now ≡ point_view b.now }
{
    match (a, b) {
        (Point::Assume(spot, test), Point::Assume(other, there)) => {
            same_spot(*spot, *other) && is_same(test, there)
        }
        (Point::Enter(close), Point::Enter(other)) => same_spot(*close, *other),
        (Point::Return(close, test), Point::Return(other, there)) => {
            same_spot(*close, *other) && same_test(test, there)
        }
        (Point::Branch(spot, way), Point::Branch(other, there)) => {
            same_spot(*spot, *other) && same_way(*way, *there)
        }
        _ => false,
    }
}

/// A number for a waypoint, without its place: equal ones have equal numbers, and different ones mostly others.
pub fn number_of(point: &Point) -> u64 {
    match point {
        Point::Assume(_, test) => key_of(1, test),
        Point::Target(_) => 2,
        Point::Enter(_) => 3,
        Point::Return(_, None) => 4,
        Point::Return(_, Some(test)) => key_of(5, &test.constant),
        Point::Branch(_, Way::Truth(truth)) => 6 + *truth as u64,
        Point::Branch(_, Way::Case(constant)) => (constant.unsigned_abs()
            % 0xFFFF_FFFF_FFFF_FFC5) as u64,
        Point::Branch(_, Way::Default) => 8,
    }
}
