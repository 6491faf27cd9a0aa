// The checked program.
ghost use Rattle.c_check.specs.Checking.{Answers};
ghost use Rattle.c_check.specs.Finding.{IsWalk};
ghost use Rattle.c_parser.specs.Parsing.{source_view};
ghost use Rattle.check_rules.specs.First.{IsUnrefused};

use crate::main_function::{number_of_main, wrong_main};
use c_core::{DataModel, Program, Property};
use c_parser::Source;
use check_elaborate::Walked;
use check_rules::{CheckCode, CheckFault};

/// The program of a source no part of which is refused, unless its `main` is.
pub fn checked_program(
    source: &Source,
    walked: Walked,
    model: DataModel,
    property: Property,
) -> Result<Program, CheckFault>
    requires walk { IsWalk model (source_view source.now) walked }
    requires unrefused { IsUnrefused model (source_view source.now) }
    ensures { Answers model property (source_view source.now) result }
{
    match wrong_main(source.items.as_slice()) {
        Some(spot) => Err(CheckFault::Refused {
            code: CheckCode::Main,
            spot,
        }),
        None => {
            let main = number_of_main(walked.functions.as_slice())?;
            Ok(Program {
                model,
                property,
                objects: walked.objects,
                starts: walked.starts,
                functions: walked.functions,
                main,
            })
        }
    }
}
