ghost use Rattle.c_check.specs.Checking.{Answers};
ghost use Rattle.c_parser.specs.Parsing.{source_view};

use crate::checked::checked_program;
use crate::refusals::first_refusal;
use c_core::{DataModel, Program, Property};
use c_parser::Source;
use check_elaborate::walk_source;
use check_rules::CheckFault;
use std::alloc::Global;

/// The program of a source in a data model and under a property, or the first refusal by place.
///
/// Example: `program_of` in `crates/flow_tests/src/main.rt`.
pub fn check(
    alloc: Global,
    source: &Source,
    model: DataModel,
    property: Property,
) -> Result<Program, CheckFault>
    ensures { Answers model property (source_view source.now) result }
{
    let walked = walk_source(alloc, source.items.as_slice(), model)?;
    match first_refusal(alloc, &walked)? {
        Some(first) => Err(CheckFault::Refused {
            code: first.code,
            spot: first.spot,
        }),
        None => checked_program(source, walked, model, property),
    }
}
