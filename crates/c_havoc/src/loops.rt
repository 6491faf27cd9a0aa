// Before the turn of a loop.
ghost use Rattle.c_core.specs.View.{program_view, form_view};
ghost use Rattle.run_state.specs.Interpreting.{same};
ghost use Rattle.c_calls.specs.Loops.{loop_of};
ghost use Rattle.c_meaning.specs.Placing.{placed_view};
ghost use Rattle.havoc_state.specs.Havocking.{Gives, left_of, opened};

use c_calls::changed_in;
use c_core::{Form, Program, Spot};
use c_meaning::{DutyKind, PlacedInvariant};
use havoc_state::{Halt, Machine, assume, check, redraw};

/// On arrival the invariants of the loop have to hold; what the loop changes is drawn; the run goes on where they
/// hold again.
pub fn open_loop(
    program: &Program,
    invariants: &[PlacedInvariant],
    machine: &mut Machine,
    at: Spot,
    f: &Form,
) -> Result<(), Halt>
    ensures { Gives same result (left_of machine.new)
        (opened (program_view program.now) (placed_view invariants.now) at (loop_of (form_view f.now))
        (left_of machine.old)) }
{
    check(program, invariants, machine, true, at, DutyKind::Entry)?;
    let objects = changed_in(machine.alloc, program, f)?;
    redraw(program, machine, at, objects.as_slice())?;
    assume(program, invariants, machine, at)
}
