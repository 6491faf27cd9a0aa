// Segments that fix what a run draws.
ghost use Rattle.std.specs.Prelude.{◌≡◌, ◌++◌, IfOk, OnOk, map};
ghost use Rattle.wv_author.specs.Authored.{located, returning, target_of, violating};
ghost use Rattle.wv_author.specs.inside.Recording.{segment_of};

use crate::constants::result_text;
use crate::recording::Returned;
use crate::witnesses::{c_expression, follow};
use c_core::Spot;
use std::alloc::Global;
use wv_base::{OutOfMemory, Seq, Text};
use wv_schema::{Constraint, Location, Segment, WayKind};

fn located(alloc: Global, file: &Text, spot: Spot) -> Result<Location, OutOfMemory>
    ensures { IfOk result (λ location. location ≡ located file.now spot) }
{
    let name = Text::of(alloc, file.as_str())?;
    Ok(Location {
        file_name: Some(name),
        line: spot.line,
        column: Some(spot.column),
        function: None,
    })
}

/// The input call that ends there comes back with this value.
fn returning(alloc: Global, file: &Text, value: i128, close: Spot) -> Result<Segment, OutOfMemory>
    ensures { IfOk result (λ segment. segment ≡ returning file.now value close) }
{
    let location = located(alloc, file, close)?;
    let constraint = Constraint {
        value: result_text(alloc, value)?,
        format: c_expression(alloc)?,
    };
    Ok(follow(alloc, WayKind::FunctionReturn, location, Some(constraint)))
}

/// The property is violated in the statement that begins there.
fn violating(alloc: Global, file: &Text, statement: Spot) -> Result<Segment, OutOfMemory>
    ensures { IfOk result (λ segment. segment ≡ violating file.now statement) }
{
    let location = located(alloc, file, statement)?;
    Ok(follow(alloc, WayKind::Target, location, None))
}

/// The segments of inputs that came back, in their order.
pub fn push_returns(
    alloc: Global,
    segments: &mut Seq<Segment>,
    file: &Text,
    returned: &[Returned],
) -> Result<(), OutOfMemory>
    ensures { OnOk result (segments.new ≡ segments.old ++ map (segment_of file.now) returned.now) }
{
    for input in returned {
        let segment = returning(alloc, file, input.value, input.close)?;
        segments.push(segment)?;
    }
    Ok(())
}

/// The segment of the violation in a statement.
pub fn push_violating(
    alloc: Global,
    segments: &mut Seq<Segment>,
    file: &Text,
    statement: Option<Spot>,
) -> Result<(), OutOfMemory>
    ensures { OnOk result (segments.new ≡ segments.old ++ target_of file.now statement) }
{
    if let Some(spot) = statement {
        let segment = violating(alloc, file, spot)?;
        segments.push(segment)?;
    }
    Ok(())
}
