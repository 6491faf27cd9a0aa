// Which events stand at a waypoint, and which of them pass it (`way_match/specs/Passing.antt` defines both).
use crate::spelled::is_same_spot;
use c_core::{Done, Expr, IntType, Program, Spot, computed};
use c_meaning::{Event, Memory, type_of, value_in};
use std::alloc::Global;
use way_match::{Aim, Point, ReturnTest};
use way_places::Index;

fn aims(aim: Aim, at: Spot) -> bool {
    match aim {
        Aim::At(spot) => is_same_spot(spot, at),
        Aim::Line(line) => line == at.line,
    }
}

fn aims_if(aim: Aim, at: Option<Spot>) -> bool {
    match at {
        Some(at) => aims(aim, at),
        None => false,
    }
}

/// Whether an event is at the place of a waypoint.
pub fn is_at(point: &Point, event: Event) -> bool {
    match (point, event) {
        (Point::Assume(spot, _), Event::At(at)) => is_same_spot(*spot, at),
        (Point::Branch(spot, _), Event::Branch(at, _)) => is_same_spot(*spot, at),
        (Point::Enter(spot), Event::Enter(at)) => is_same_spot(*spot, at),
        (Point::Return(spot, _), Event::Return(at, _)) => is_same_spot(*spot, at),
        (
            Point::Target(aim),
            Event::Fail {
                statement,
                full,
                call,
            },
        ) => aims(*aim, statement) || aims(*aim, full) || aims_if(*aim, call),
        _ => false,
    }
}

/// The type of what a call gives.
fn type_at(index: &Index, close: Spot) -> IntType {
    match index.call_at(close) {
        Some(call) => type_of(call),
        None => IntType::Int,
    }
}

fn is_true(done: Done) -> bool {
    match done {
        Done::Value(value) => value != 0,
        Done::Overflow(value) => value != 0,
        Done::Undefined => false,
    }
}

/// The value of an expression without names.
fn constant(alloc: Global, program: &Program, e: &Expr) -> Option<i128> {
    let memory = Memory::new(alloc);
    value_in(program, e, &memory)
}

/// Whether a value that a call gave meets a test.
fn meets(alloc: Global, index: &Index, close: Spot, test: &ReturnTest, value: i128) -> bool {
    let program = index.program();
    match constant(alloc, program, &test.constant) {
        Some(constant) => is_true(computed(
            program.model,
            test.op,
            type_at(index, close),
            value,
            type_of(&test.constant),
            constant,
        )),
        None => false,
    }
}

fn meets_if(
    alloc: Global,
    index: &Index,
    close: Spot,
    test: &Option<ReturnTest>,
    value: Option<i128>,
) -> bool {
    match test {
        None => true,
        Some(test) => match value {
            Some(value) => meets(alloc, index, close, test, value),
            None => false,
        },
    }
}

/// Whether an expression has a value other than 0.
pub fn holds(program: &Program, test: &Expr, memory: &Memory) -> bool {
    match value_in(program, test, memory) {
        Some(value) => value != 0,
        None => false,
    }
}

/// Whether an event passes a waypoint, in the memory of that moment.
pub fn passes(alloc: Global, index: &Index, point: &Point, event: Event, memory: &Memory) -> bool {
    if !is_at(point, event) {
        return false;
    }
    match (point, event) {
        (Point::Assume(_, test), _) => holds(index.program(), test, memory),
        (Point::Branch(_, way), Event::Branch(_, taken)) => *way == taken,
        (Point::Return(close, test), Event::Return(_, value)) => {
            meets_if(alloc, index, *close, test, value)
        }
        _ => true,
    }
}
