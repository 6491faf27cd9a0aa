// Waypoints of a violation witness, bound to the places and the typed expressions of a program.
use c_core::{BinOp, Expr, Spot};
use c_meaning::Way;
use wv_base::Seq;

/// Where a target lies: at a place, or at every suitable place of a line.
#[derive(Clone, Copy, Debug, PartialEq, Eq)]
pub enum Aim {
    At(Spot),
    Line(u32),
}

/// `\result op constant`; the constant holds no names.
#[derive(Drop)]
pub struct ReturnTest {
    pub op: BinOp,
    pub constant: Expr,
}

/// A function is entered, or returns, at the closing parenthesis of a call; a branching takes a way.
#[derive(Drop)]
pub enum Point {
    Assume(Spot, Expr),
    Target(Aim),
    Enter(Spot),
    Return(Spot, Option<ReturnTest>),
    Branch(Spot, Way),
}

/// The waypoints to avoid until the one to follow is passed.
#[derive(Drop)]
pub struct BoundSegment {
    pub avoids: Seq<Point>,
    pub follow: Point,
}

/// The segments of a violation sequence.
#[derive(Drop)]
pub struct Bound {
    pub segments: Seq<BoundSegment>,
}
