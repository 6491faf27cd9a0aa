// Values of a witness that don't fit the types of the input calls that they are given to.
use crate::stored::{Stored, stored_by};
use c_core::{BinOp, DataModel, Expr, IntType, Node, Program, Spot, convert, width};
use c_meaning::{Memory, value_in};
use std::alloc::Global;
use view_runs::{Tracker, type_word};
use view_text::{File, Messages};
use way_match::{Point, ReturnTest};
use way_places::{Index, InputCall, input_of};
use wv_base::OutOfMemory;

/// So many parts of a constraint are looked at.
const MOST_PARTS: usize = 1_000;

/// So many values are told.
const MOST: usize = 5;

/// A value that a segment gives to an input call, as the witness has it, and as the call draws it.
#[derive(Clone, Copy)]
pub struct Unfit {
    segment: usize,
    call: InputCall,
    stated: i128,
    drawn: i128,
}

/// The value of an expression without names.
fn constant(alloc: Global, program: &Program, e: &Expr) -> Option<i128> {
    let memory = Memory::new(alloc);
    value_in(program, e, &memory)
}

/// The call that a test of its result speaks of, with the value that it gives.
fn given_by_return(
    alloc: Global,
    index: &Index,
    close: Spot,
    test: &ReturnTest,
) -> Option<(InputCall, i128)> {
    if test.op != BinOp::Eq {
        return None;
    }
    let call = input_of(index.call_at(close)?)?;
    let value = constant(alloc, index.program(), &test.constant)?;
    Some((call, value))
}

fn is_object(object: u32, e: &Expr) -> bool {
    match &e.node {
        Node::Var(other) => *other == object,
        Node::Cast(of) => match &of.node {
            Node::Var(other) => *other == object,
            _ => false,
        },
        _ => false,
    }
}

/// The constant with which an equality compares an object.
fn compared(alloc: Global, program: &Program, object: u32, e: &Expr) -> Option<i128> {
    match &e.node {
        Node::Binary {
            op: BinOp::Eq,
            left,
            right,
        } => {
            if is_object(object, left) {
                constant(alloc, program, right)
            } else if is_object(object, right) {
                constant(alloc, program, left)
            } else {
                None
            }
        }
        _ => None,
    }
}

fn open_both<'a>(
    open: &mut Vec<&'a Expr>,
    left: &'a Expr,
    right: &'a Expr,
) -> Result<(), OutOfMemory> {
    open.push(right)?;
    open.push(left)?;
    Ok(())
}

/// The constant with which the first operand of a chain of `&&` that does so compares an object.
fn first_compared(
    alloc: Global,
    program: &Program,
    object: u32,
    test: &Expr,
) -> Result<Option<i128>, OutOfMemory> {
    let mut open: Vec<&Expr> = Vec::new(alloc);
    open.push(test)?;
    for _ in 0..MOST_PARTS {
        let Some(part) = open.pop() else {
            break;
        };
        if let Node::Logic {
            both: true,
            left,
            right,
        } = &part.node
        {
            open_both(&mut open, left, right)?;
        } else if let Some(value) = compared(alloc, program, object, part) {
            return Ok(Some(value));
        }
    }
    Ok(None)
}

fn stored_before(index: &Index, spot: Spot) -> Option<Stored> {
    match index.stmt_before(spot) {
        Some(s) => stored_by(s),
        None => None,
    }
}

fn given_by_assumption(
    alloc: Global,
    index: &Index,
    spot: Spot,
    test: &Expr,
) -> Result<Option<(InputCall, i128)>, OutOfMemory> {
    let Some(stored) = stored_before(index, spot) else {
        return Ok(None);
    };
    match first_compared(alloc, index.program(), stored.object, test)? {
        Some(value) => Ok(Some((stored.call, value))),
        None => Ok(None),
    }
}

/// The input call to which a waypoint gives a value, and the value that it states.
fn given_by(
    alloc: Global,
    index: &Index,
    point: &Point,
) -> Result<Option<(InputCall, i128)>, OutOfMemory> {
    match point {
        Point::Return(close, Some(test)) => Ok(given_by_return(alloc, index, *close, test)),
        Point::Assume(spot, test) => given_by_assumption(alloc, index, *spot, test),
        _ => Ok(None),
    }
}

/// A value that a segment gives, where it doesn't fit.
fn unfit_by(model: DataModel, segment: usize, given: Option<(InputCall, i128)>) -> Option<Unfit> {
    let (call, stated) = given?;
    let drawn = convert(model, call.ty, stated);
    if drawn == stated {
        return None;
    }
    Some(Unfit {
        segment,
        call,
        stated,
        drawn,
    })
}

/// The first values that don't fit.
fn unfit_values(alloc: Global, tracker: &Tracker<'_>) -> Result<Vec<Unfit>, OutOfMemory> {
    let index = tracker.route().index();
    let model = index.program().model;
    let mut list = Vec::new(alloc);
    for (number, segment) in tracker.route().behind(0).iter().enumerate() {
        if list.len() >= MOST {
            break;
        }
        let given = given_by(alloc, index, &segment.follow)?;
        if let Some(unfit) = unfit_by(model, number, given) {
            list.push(unfit)?;
        }
    }
    Ok(list)
}

/// How wide a type is, and of which data model that is said.
fn width_text(alloc: Global, model: DataModel, ty: IntType) -> Result<String, OutOfMemory> {
    let bits = width(model, ty);
    match (ty, model) {
        (IntType::Bool, _) => Ok(String::from_str(alloc, "0 or 1")?),
        (IntType::Long | IntType::ULong, DataModel::Ilp32) => {
            Ok(format!(in alloc; "{bits} bits in ILP32")?)
        }
        (IntType::Long | IntType::ULong, DataModel::Lp64) => {
            Ok(format!(in alloc; "{bits} bits in LP64")?)
        }
        _ => Ok(format!(in alloc; "{bits} bits")?),
    }
}

fn unfit_text(alloc: Global, model: DataModel, unfit: Unfit) -> Result<String, OutOfMemory> {
    let stated = unfit.stated;
    let drawn = unfit.drawn;
    let ty = type_word(unfit.call.ty);
    let width = width_text(alloc, model, unfit.call.ty)?;
    let width = width.as_str();
    Ok(format!(in alloc; "{stated} doesn't fit `{ty}` ({width}), and {drawn} is drawn")?)
}

/// The first value that doesn't fit, in the words of a message; empty where all do.
pub fn first_unfit(alloc: Global, tracker: &Tracker<'_>) -> Result<String, OutOfMemory> {
    let list = unfit_values(alloc, tracker)?;
    match list.get(0) {
        Some(unfit) => unfit_text(alloc, tracker.route().program().model, *unfit),
        None => Ok(String::new(alloc)),
    }
}

/// A note for each of the first values that don't fit, at its call.
pub fn note_unfit(
    alloc: Global,
    tracker: &Tracker<'_>,
    out: &mut Messages,
) -> Result<(), OutOfMemory> {
    let list = unfit_values(alloc, tracker)?;
    let model = tracker.route().program().model;
    for unfit in list.as_slice() {
        let why = unfit_text(alloc, model, *unfit)?;
        let why = why.as_str();
        let segment = unfit.segment.saturating_add(1);
        let told = format!(in alloc; "the value that segment {segment} gives to this call: {why}")?;
        out.note(File::Program, Some(unfit.call.spot), told)?;
    }
    Ok(())
}
