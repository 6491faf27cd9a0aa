// One waypoint, bound to a point of a program.
ghost use Rattle.std.specs.Prelude.{◌≡◌, [], IsTrue};
ghost use Rattle.c_core.specs.View.{program_view, expr_view};
ghost use Rattle.c_core.specs.declared.place.PlaceKind.TheVariants.{Statement, Branch, CallEnd};
ghost use Rattle.c_parser.specs.View.{expr_view as raw_view};
ghost use Rattle.way_constraint.specs.Constraints.{AnswersConstraint};
ghost use Rattle.way_names.specs.AtPlaces.{program_at, visible};
ghost use Rattle.way_names.specs.Visible.{is_scoped, names_at};
ghost use Rattle.way_match.specs.View.{aim_view, point_view, test_view};
ghost use Rattle.way_bind.specs.Binding.{BindsAssumption, BindsBranching, BindsEntry, BindsExpression, BindsPoint, BindsReturn, BindsTest, BindsTested, WherePlaced, aim_of, is_suitable, is_valued, place_named, seen, target_at, text_of};

use crate::fault::Unbound;
use crate::lookup::Lookup;
use crate::way::way_at;
use c_core::{Expr, PlaceKind, Program, Spot};
use c_parser::{ExprFault, RawExpr, parse_expr, parse_result};
use std::alloc::Global;
use way_constraint::{check_at, check_expr};
use way_match::{Aim, Point, ReturnTest};
use way_names::NamesAt;
use way_places::Index;
use wv_base::Seq;
use wv_schema::{Constraint, Location, WayKind, Waypoint};

/// The text of a constraint.
fn text_of(constraint: &Option<Constraint>) -> &str
    ensures { result.now ≡ text_of constraint.now }
{
    match constraint {
        Some(constraint) => constraint.value.as_str(),
        None => "",
    }
}

fn aim_of(location: &Location) -> Aim
    ensures { aim_view result ≡ aim_of location.now.line location.now.column }
{
    match location.column {
        Some(column) => Aim::At(Spot {
            line: location.line,
            column,
        }),
        None => Aim::Line(location.line),
    }
}

/// Whether the call that ends there has a value.
fn is_valued(index: &Index, close: Spot) -> bool
    ensures { result ≡ is_valued (program_view index.now) close }
{
    match index.call_at(close) {
        Some(call) => call.ty.is_some(),
        None => false,
    }
}

/// The expression of a text over the names that are visible at a place, typed.
fn expression_of(alloc: Global, place: &NamesAt, text: &str) -> Result<Expr, Unbound>
    ensures { BindsExpression (program_at place.now) (visible place.now) text.now (seen expr_view result) }
{
    let expr = parse_expr(alloc, text.as_bytes())?;
    let test = check_at(alloc, place, &expr)?;
    Ok(test)
}

/// The same at a statement or a loop.
pub fn expression_at(
    alloc: Global,
    lookup: &Lookup,
    kind: PlaceKind,
    spot: Spot,
    text: &str,
) -> Result<Expr, Unbound>
    requires { IsTrue (is_scoped (program_view lookup.now.index) kind spot) }
    ensures { BindsExpression (program_view lookup.now.index) (names_at (program_view lookup.now.index) kind spot)
        text.now (seen expr_view result) }
{
    let place = NamesAt {
        names: &lookup.names,
        kind,
        spot,
    };
    expression_of(alloc, &place, text)
}

/// A constant, which sees no names, typed.
fn constant_of(alloc: Global, program: &Program, expr: &RawExpr) -> Result<Expr, ExprFault>
    ensures { AnswersConstraint (program_view program.now) [] (raw_view expr.now) result }
{
    let names = Seq::new(alloc);
    let constant = check_expr(alloc, program, &names, expr)?;
    Ok(constant)
}

/// The comparison of `\result` with a constant, at a call that has a value or has none.
fn test_of(
    alloc: Global,
    program: &Program,
    valued: bool,
    text: &str,
) -> Result<ReturnTest, Unbound>
    ensures { BindsTest (program_view program.now) valued text.now (seen test_view result) }
{
    let test = parse_result(alloc, text.as_bytes())?;
    if !valued {
        return Err(Unbound::Scope);
    }
    let constant = constant_of(alloc, program, &test.constant)?;
    Ok(ReturnTest {
        op: test.op,
        constant,
    })
}

fn assumption_at(alloc: Global, lookup: &Lookup, text: &str, spot: Spot) -> Result<Point, Unbound>
    requires { IsTrue (is_scoped (program_view lookup.now.index) Statement spot) }
    ensures { BindsAssumption (program_view lookup.now.index) text.now spot (seen point_view result) }
{
    let test = expression_at(alloc, lookup, PlaceKind::Statement, spot, text)?;
    Ok(Point::Assume(spot, test))
}

fn tested_return(alloc: Global, index: &Index, text: &str, close: Spot) -> Result<Point, Unbound>
    ensures { BindsTested (program_view index.now) text.now close (seen point_view result) }
{
    let valued = is_valued(index, close);
    match test_of(alloc, index.program(), valued, text) {
        Ok(test) => Ok(Point::Return(close, Some(test))),
        Err(lack) => Err(lack),
    }
}

fn return_at(
    alloc: Global,
    index: &Index,
    constraint: &Option<Constraint>,
    close: Spot,
) -> Result<Point, Unbound>
    ensures { BindsReturn (program_view index.now) constraint.now close (seen point_view result) }
{
    match constraint {
        None => Ok(Point::Return(close, None)),
        Some(constraint) => tested_return(alloc, index, constraint.value.as_str(), close),
    }
}

/// The place of a kind that a location names.
pub fn place_named(index: &Index, kind: PlaceKind, location: &Location) -> Option<Spot>
    ensures { result ≡ place_named (program_view index.now) kind location.now }
{
    index.place_at(kind, location.line, location.column)
}

fn is_suitable(index: &Index, location: &Location) -> bool
    ensures { result ≡ is_suitable (program_view index.now) location.now }
{
    index.aim_fits(location.line, location.column)
}

fn target_at(index: &Index, location: &Location) -> Result<Point, Unbound>
    ensures { seen point_view result ≡ target_at (program_view index.now) location.now }
{
    if is_suitable(index, location) {
        Ok(Point::Target(aim_of(location)))
    } else {
        Err(Unbound::NoPlace)
    }
}

fn assumption(alloc: Global, lookup: &Lookup, waypoint: &Waypoint) -> Result<Point, Unbound>
    ensures { WherePlaced (place_named (program_view lookup.now.index) Statement waypoint.now.location)
        (BindsAssumption (program_view lookup.now.index) (text_of waypoint.now.constraint)) (seen point_view result) }
{
    match place_named(&lookup.index, PlaceKind::Statement, &waypoint.location) {
        None => Err(Unbound::NoPlace),
        Some(spot) => assumption_at(alloc, lookup, text_of(&waypoint.constraint), spot),
    }
}

fn entry(index: &Index, waypoint: &Waypoint) -> Result<Point, Unbound>
    ensures { WherePlaced (place_named (program_view index.now) CallEnd waypoint.now.location)
        BindsEntry (seen point_view result) }
{
    match place_named(index, PlaceKind::CallEnd, &waypoint.location) {
        None => Err(Unbound::NoPlace),
        Some(close) => Ok(Point::Enter(close)),
    }
}

fn function_return(alloc: Global, index: &Index, waypoint: &Waypoint) -> Result<Point, Unbound>
    ensures { WherePlaced (place_named (program_view index.now) CallEnd waypoint.now.location)
        (BindsReturn (program_view index.now) waypoint.now.constraint) (seen point_view result) }
{
    match place_named(index, PlaceKind::CallEnd, &waypoint.location) {
        None => Err(Unbound::NoPlace),
        Some(close) => return_at(alloc, index, &waypoint.constraint, close),
    }
}

fn branching_at(index: &Index, text: &str, spot: Spot) -> Result<Point, Unbound>
    ensures { BindsBranching (program_view index.now) text.now spot (seen point_view result) }
{
    match way_at(index, spot, text) {
        None => Err(Unbound::Expression),
        Some(way) => Ok(Point::Branch(spot, way)),
    }
}

fn branching(index: &Index, waypoint: &Waypoint) -> Result<Point, Unbound>
    ensures { WherePlaced (place_named (program_view index.now) Branch waypoint.now.location)
        (BindsBranching (program_view index.now) (text_of waypoint.now.constraint)) (seen point_view result) }
{
    match place_named(index, PlaceKind::Branch, &waypoint.location) {
        None => Err(Unbound::NoPlace),
        Some(spot) => branching_at(index, text_of(&waypoint.constraint), spot),
    }
}

/// A waypoint bound to a point of the program, or the first test that it fails.
pub fn bind_point(alloc: Global, lookup: &Lookup, waypoint: &Waypoint) -> Result<Point, Unbound>
    ensures { BindsPoint (program_view lookup.now.index) waypoint.now (seen point_view result) }
{
    match waypoint.kind {
        WayKind::Assumption => assumption(alloc, lookup, waypoint),
        WayKind::Target => target_at(&lookup.index, &waypoint.location),
        WayKind::FunctionEnter => entry(&lookup.index, waypoint),
        WayKind::FunctionReturn => function_return(alloc, &lookup.index, waypoint),
        WayKind::Branching => branching(&lookup.index, waypoint),
    }
}
