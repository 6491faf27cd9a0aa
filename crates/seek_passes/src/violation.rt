// Which violations complete all segments. A violation passes targets alone, and which ones is known by its places.
ghost use Rattle.std.specs.Prelude.{◌≡◌, ◌&&◌, List, length, not as negated};
ghost use Rattle.c_core.specs.Tree.{Program as pure_program};
ghost use Rattle.c_meaning.specs.Cells.{Cell};
ghost use Rattle.circuits.specs.Numbers.{AreIn};
ghost use Rattle.way_match.specs.Passing as passing;
ghost use Rattle.way_match.specs.View.{aim_view, each_segment_view, point_view, points_view};
ghost use Rattle.seek_passes.specs.Telling.{Counts};

use crate::spots::same_spot;
use c_core::Spot;
use c_meaning::Event;
use circuits::{Bit, not};
use sym_state::Sym;
use way_match::{Aim, BoundSegment, Point};

/// The places of a violation: its statement, its full expression, and the call of `reach_error`, if it is one.
#[derive(Clone, Copy)]
pub struct Violation {
    pub statement: Spot,
    pub full: Spot,
    pub call: Option<Spot>,
}

fn aims(aim: Aim, at: Spot) -> bool
    ensures { result ≡ passing.aims (aim_view aim) at }
{
    match aim {
        Aim::At(spot) => same_spot(spot, at),
        Aim::Line(line) => line == at.line,
    }
}

fn aims_if(aim: Aim, at: Option<Spot>) -> bool
    ensures { result ≡ passing.aims_if (aim_view aim) at }
{
    match at {
        Some(at) => aims(aim, at),
        None => false,
    }
}

fn fails_at(point: &Point, at: Violation) -> bool
    ensures { (p : pure_program) (cells : List Cell)
        → result ≡ passing.passes p (point_view point.now) (Event.Fail at.statement at.full at.call) cells }
{
    match point {
        Point::Target(aim) => {
            aims(*aim, at.statement) || aims(*aim, at.full) || aims_if(*aim, at.call)
        }
        _ => false,
    }
}

fn fails_at_any(points: &[Point], at: Violation) -> bool
    ensures { (p : pure_program) (cells : List Cell)
        → result ≡ passing.passes_any p (points_view points.now) (Event.Fail at.statement at.full at.call) cells }
{
    for point in points {
        if fails_at(point, at) {
            return true;
        }
    }
    false
}

fn both(a: bool, b: bool) -> bool
    ensures { result ≡ (a && b) }
{
    a && b
}

// A violation passes the follow of a segment, and none of its avoids.
fn completes(segment: &BoundSegment, at: Violation) -> bool
    ensures { (p : pure_program) (cells : List Cell) → result ≡ (passing.passes p (point_view segment.now.follow)
        (Event.Fail at.statement at.full at.call) cells && negated (passing.passes_any p
        (points_view segment.now.avoids) (Event.Fail at.statement at.full at.call) cells)) }
{
    let follows = fails_at(&segment.follow, at);
    let avoids = fails_at_any(segment.avoids.as_slice(), at);
    both(follows, !avoids)
}

/// Where a violation completes all segments: where those before the last are completed, and it completes the last. No
/// node is added.
pub fn counts(sym: &Sym, segments: &[BoundSegment], at: Violation) -> Bit
    requires completed_in { AreIn sym.now.net sym.now.completed.items }
    requires one_each { length sym.now.completed.items ≡ length segments.now }
    ensures { (p : pure_program)
        → Counts p (each_segment_view segments.now) at.statement at.full at.call sym.now result }
{
    let many = segments.len();
    if many == 0 {
        return not(sym.net.yes());
    }
    let last = &segments[many - 1];
    if completes(last, at) {
        return sym.completed[many - 1];
    }
    not(sym.net.yes())
}
