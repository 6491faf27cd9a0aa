// Rows of waypoints: segments over a program, and after them the point of the first follow, the waypoint that isn't
// bound, or the values that the follows give to the input calls.
use crate::check::checked_program;
use crate::few::bind;
use crate::schema::read_witness;
use c_core::Spot;
use c_meaning::{Choices, Given, Way};
use row_files::{Files, NotTried, Row};
use std::alloc::{AllocError, Global};
use way_bind::BindFault;
use way_match::{Aim, Bound, Point, given};
use wv_base::{OutOfMemory, Seq};

fn at(alloc: Global, word: &str, spot: Spot) -> Result<String, AllocError> {
    format!(in alloc; "{word} {}:{}", spot.line, spot.column)
}

fn point(alloc: Global, point: &Point) -> Result<String, AllocError> {
    match point {
        Point::Assume(spot, _) => at(alloc, "assume", *spot),
        Point::Target(Aim::At(spot)) => at(alloc, "target", *spot),
        Point::Target(Aim::Line(line)) => format!(in alloc; "target {line}"),
        Point::Enter(spot) => at(alloc, "enter", *spot),
        Point::Return(spot, None) => at(alloc, "return", *spot),
        Point::Return(spot, Some(_)) => at(alloc, "return with a test", *spot),
        Point::Branch(spot, Way::Truth(true)) => at(alloc, "branch taken", *spot),
        Point::Branch(spot, Way::Truth(false)) => at(alloc, "branch passed by", *spot),
        Point::Branch(spot, Way::Case(constant)) => {
            format!(in alloc; "case {constant} {}:{}", spot.line, spot.column)
        }
        Point::Branch(spot, Way::Default) => at(alloc, "default", *spot),
    }
}

/// The point of the first follow.
fn first(alloc: Global, bound: &Bound) -> Result<String, AllocError> {
    match bound.segments.as_slice() {
        [segment, ..] => point(alloc, &segment.follow),
        [] => String::from_str(alloc, "no segment"),
    }
}

fn fault(alloc: Global, fault: BindFault) -> Result<String, AllocError> {
    match fault {
        BindFault::NoPlace(number) => format!(in alloc; "no place {number}"),
        BindFault::Expression(number) => format!(in alloc; "expression {number}"),
        BindFault::Scope(number) => format!(in alloc; "scope {number}"),
        BindFault::OutOfMemory => Err(AllocError),
    }
}

/// What is said of a row's segments.
pub fn told(files: &Files<'_>, row: &Row) -> Result<String, NotTried> {
    let alloc = files.alloc();
    let program = checked_program(files, row)?;
    let witness = read_witness(files, row)?;
    match bind(alloc, &witness, &program) {
        Ok(bound) => Ok(first(alloc, &bound)?),
        Err(lack) => Ok(fault(alloc, lack)?),
    }
}

/// `8:11=` and the values given to the call there.
fn call_told(alloc: Global, call: &Given) -> Result<String, AllocError> {
    let mut text = format!(in alloc; "{}:{}=", call.spot.line, call.spot.column)?;
    let mut between = "";
    for value in call.values.as_slice() {
        text.push_str(format!(in alloc; "{between}{value}")?.as_str())?;
        between = ",";
    }
    Ok(text)
}

fn push_call(alloc: Global, text: &mut String, call: &Given) -> Result<(), OutOfMemory> {
    if text.len() > 0 {
        text.push_str("; ")?;
    }
    text.push_str(call_told(alloc, call)?.as_str())?;
    Ok(())
}

/// What a row's segments give to the input calls of its program.
fn given_by(files: &Files<'_>, row: &Row) -> Result<Seq<Given>, NotTried> {
    let alloc = files.alloc();
    let program = checked_program(files, row)?;
    let witness = read_witness(files, row)?;
    let Ok(bound) = bind(alloc, &witness, &program) else {
        return Err(NotTried::Lacks("segments that are bound"));
    };
    match given(alloc, &bound, &program)? {
        Choices::Given(calls) => Ok(calls),
        Choices::InTurn(_) => Err(NotTried::Lacks("values by calls")),
    }
}

/// Each input call.
pub fn calls(files: &Files<'_>, row: &Row) -> Result<String, NotTried> {
    let calls = given_by(files, row)?;
    let mut text = String::new(files.alloc());
    for call in calls.as_slice() {
        push_call(files.alloc(), &mut text, call)?;
    }
    Ok(text)
}

/// The calls with values, or `none`.
pub fn values(files: &Files<'_>, row: &Row) -> Result<String, NotTried> {
    let calls = given_by(files, row)?;
    let mut text = String::new(files.alloc());
    for call in calls.as_slice() {
        if call.values.len() > 0 {
            push_call(files.alloc(), &mut text, call)?;
        }
    }
    if text.len() == 0 {
        text.push_str("none")?;
    }
    Ok(text)
}
