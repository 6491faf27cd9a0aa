// The values that a violation witness gives to the input calls of a program.
ghost use Rattle.std.specs.Prelude.{◌≡◌, ◌++◌, IfOk, OnOk};
ghost use Rattle.std.specs.Option.{option_map};
ghost use Rattle.c_core.specs.Places.{input_at, stmt_before};
ghost use Rattle.c_core.specs.View.{expr_view, program_view};
ghost use Rattle.c_meaning.specs.Value.{and_then};
ghost use Rattle.way_places.specs.Inputs.{call_view, calls_view};
ghost use Rattle.way_match.specs.inside.Gathered.{choices_in, gathered, stored_view, value_view, values_view};
ghost use Rattle.way_match.specs.Given.{given_by, given_by_assumption, given_by_constant, given_by_follow, given_by_return, stored_by};
ghost use Rattle.way_match.specs.View.{each_segment_view, point_view, segments_view, test_view_if};

use crate::compared::{first_constant, is_equality};
use crate::point::{Bound, BoundSegment, Point, ReturnTest};
use crate::stored::{StoredInput, stored_by};
use crate::values::{Values, values_at, values_by_place};
use c_core::{Expr, Program, Spot, convert};
use c_meaning::{Choices, Given, Memory, value_in};
use std::alloc::Global;
use way_places::{Index, InputCall, input_calls, input_of};
use wv_base::{OutOfMemory, Seq};

/// A value for the input call at a place.
#[derive(Clone, Copy)]
pub struct GivenValue {
    pub spot: Spot,
    pub value: i128,
}

fn given_by_constant(
    alloc: Global,
    program: &Program,
    call: InputCall,
    constant: &Expr,
) -> Option<GivenValue>
    ensures { option_map value_view result ≡ given_by_constant (program_view program.now) (call_view call)
        (expr_view constant.now) }
{
    let memory = Memory::new(alloc);
    match value_in(program, constant, &memory) {
        None => None,
        Some(value) => Some(GivenValue {
            spot: call.spot,
            value: convert(program.model, call.ty, value),
        }),
    }
}

fn given_in(alloc: Global, index: &Index, call: InputCall, constant: &Expr) -> Option<GivenValue>
    ensures { option_map value_view result ≡ given_by_constant (program_view index.now) (call_view call)
        (expr_view constant.now) }
{
    given_by_constant(alloc, index.program(), call, constant)
}

fn input_at(index: &Index, close: Spot) -> Option<InputCall>
    ensures { option_map call_view result ≡ input_at (program_view index.now) close }
{
    match index.call_at(close) {
        None => None,
        Some(e) => input_of(e),
    }
}

fn given_by_return(
    alloc: Global,
    index: &Index,
    close: Spot,
    test: &Option<ReturnTest>,
) -> Option<GivenValue>
    ensures { option_map value_view result ≡ given_by_return (program_view index.now)
        (input_at (program_view index.now) close) (test_view_if test.now) }
{
    match input_at(index, close) {
        None => None,
        Some(call) => match test {
            None => None,
            Some(test) => {
                if is_equality(test.op) {
                    given_in(alloc, index, call, &test.constant)
                } else {
                    None
                }
            }
        },
    }
}

fn stored_before(index: &Index, spot: Spot) -> Option<StoredInput>
    ensures { option_map stored_view result ≡ and_then (stmt_before (program_view index.now) spot) stored_by }
{
    match index.stmt_before(spot) {
        None => None,
        Some(s) => stored_by(s),
    }
}

fn given_by_assumption(alloc: Global, index: &Index, spot: Spot, test: &Expr) -> Option<GivenValue>
    ensures { option_map value_view result ≡ given_by_assumption (program_view index.now)
        (and_then (stmt_before (program_view index.now) spot) stored_by) (expr_view test.now) }
{
    match stored_before(index, spot) {
        None => None,
        Some(stored) => match first_constant(stored.object, test) {
            None => None,
            Some(constant) => given_in(alloc, index, stored.call, constant),
        },
    }
}

fn given_by_follow(alloc: Global, index: &Index, follow: &Point) -> Option<GivenValue>
    ensures { option_map value_view result ≡ given_by_follow (program_view index.now) (point_view follow.now) }
{
    match follow {
        Point::Return(close, test) => given_by_return(alloc, index, *close, test),
        Point::Assume(spot, test) => given_by_assumption(alloc, index, *spot, test),
        Point::Target(_) => None,
        Point::Enter(_) => None,
        Point::Branch(_, _) => None,
    }
}

/// What the follows give, in witness order.
fn gather(
    alloc: Global,
    index: &Index,
    segments: &[BoundSegment],
) -> Result<Vec<GivenValue>, OutOfMemory>
    ensures { IfOk result (λ list. values_view list.items ≡ gathered (program_view index.now)
        (each_segment_view segments.now)) }
{
    let mut list = Vec::new(alloc);
    for segment in segments {
        if let Some(value) = given_by_follow(alloc, index, &segment.follow) {
            list.push(value)?;
        }
    }
    Ok(list)
}

fn push_choices(
    alloc: Global,
    values: &Values,
    calls: &[InputCall],
    list: &mut Seq<Given>,
) -> Result<(), OutOfMemory>
    ensures { OnOk result (list.new ≡ list.old ++ choices_in values.now (calls_view calls.now)) }
{
    for call in calls {
        let there = values_at(alloc, values, call.spot)?;
        list.push(Given {
            spot: call.spot,
            values: there,
        })?;
    }
    Ok(())
}

/// For each input call of an indexed program the values given to it, in witness order.
pub fn given_over(alloc: Global, bound: &Bound, index: &Index) -> Result<Choices, OutOfMemory>
    ensures { IfOk result (λ c. c ≡ given_by (program_view index.now) (segments_view bound.now)) }
{
    let gathered = gather(alloc, index, bound.segments.as_slice())?;
    let values = values_by_place(alloc, gathered.as_slice())?;
    let calls = input_calls(alloc, index.program())?;
    let mut list = Seq::new(alloc);
    push_choices(alloc, &values, calls.as_slice(), &mut list)?;
    Ok(Choices::Given(list))
}

/// For each input call of the program the values given to it, in witness order.
pub fn given(alloc: Global, bound: &Bound, program: &Program) -> Result<Choices, OutOfMemory>
    ensures { IfOk result (λ c. c ≡ given_by (program_view program.now) (segments_view bound.now)) }
{
    let index = Index::new(alloc, program)?;
    let choices = given_over(alloc, bound, &index)?;
    Ok(choices)
}
