// Draws: each takes the next value, or 0 where none is left.
ghost use Rattle.std.specs.Prelude.{◌≡◌, reverse, []};
ghost use Rattle.c_core.specs.View.{program_view};
ghost use Rattle.c_meaning.specs.Duties.{Placed};
ghost use Rattle.c_meaning.specs.Havoc as havoc;
ghost use Rattle.c_meaning.specs.Run as run;
ghost use Rattle.run_state.specs.Interpreting.{same};
ghost use Rattle.havoc_state.specs.Havocking.{Gives, left_of};

use crate::machine::{Halt, Machine};
use c_core::{IntType, Program, Spot, convert};
use c_meaning::{Draw, DrawKind};

// The next value, if any.
fn take(left: &mut Vec<i128>) -> Option<i128>
    ensures value { result ≡ run.first_value (reverse left.old.items) }
    ensures left { reverse left.new.items ≡ run.other_values (reverse left.old.items) }
{
    left.pop()
}

fn or_zero(taken: Option<i128>) -> i128
    ensures { result ≡ run.or_zero taken }
{
    match taken {
        Some(value) => value,
        None => 0,
    }
}

/// A drawn value.
pub fn draw(
    program: &Program,
    machine: &mut Machine,
    kind: DrawKind,
    spot: Spot,
    ty: IntType,
) -> Result<i128, Halt>
    ensures { Gives same result (left_of machine.new)
        (havoc.draw (program_view program.now) [] kind spot ty (left_of machine.old)) }
{
    let value = convert(program.model, ty, or_zero(take(&mut machine.left)));
    machine.draws.push(Draw {
        spot,
        ty,
        value,
        from: kind,
    })?;
    Ok(value)
}
