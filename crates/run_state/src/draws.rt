// Drawn values.
ghost use Rattle.std.specs.Prelude.{◌≡◌};
ghost use Rattle.c_core.specs.View.{program_view};
ghost use Rattle.c_meaning.specs.Run as run;
ghost use Rattle.run_state.specs.Interpreting.{Gives, same, state_of, drawing};

use crate::choices::{count_unfixed, take_choice};
use crate::machine::{Halt, Machine};
use c_core::{IntType, Program, Spot, convert};
use c_meaning::{Draw, DrawKind, Watcher};

fn or_zero(taken: Option<i128>) -> i128
    ensures { result ≡ run.or_zero taken }
{
    match taken {
        Some(value) => value,
        None => 0,
    }
}

/// A drawn value.
pub fn draw<W: Watcher>(
    program: &Program,
    machine: &mut Machine,
    kind: DrawKind,
    spot: Spot,
    ty: IntType,
) -> Result<i128, Halt>
    ensures gives { (x : W.Seen) → Gives same result (state_of machine.new x)
        (drawing (program_view program.now) W.Seen W.after kind spot ty (state_of machine.old x)) }
    ensures spends { machine.new.steps ≡ machine.old.steps }
{
    let taken = take_choice(&mut machine.left, kind, spot);
    let value = convert(program.model, ty, or_zero(taken));
    machine.unfixed = count_unfixed(machine.unfixed, taken)?;
    machine.draws.push(Draw {
        spot,
        ty,
        value,
        from: kind,
    })?;
    Ok(value)
}
