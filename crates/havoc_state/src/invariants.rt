// Invariants at places: tested where they have to hold, assumed at the head of a loop.
ghost use Rattle.std.specs.Prelude.{◌≡◌, Some, IfOk};
ghost use Rattle.c_core.specs.View.{program_view, expr_view};
ghost use Rattle.c_meaning.specs.Duties.{duty};
ghost use Rattle.c_meaning.specs.Havoc as havoc;
ghost use Rattle.c_core.specs.Parts.{same_spot};
ghost use Rattle.c_meaning.specs.Value as value;
ghost use Rattle.run_state.specs.Interpreting.{same};
ghost use Rattle.c_meaning.specs.Placing.{placed, placed_view};
ghost use Rattle.havoc_state.specs.Havocking.{Gives, left_of, arrived, broken};

use crate::machine::{Ending, Halt, Machine};
use c_core::{Expr, Program, Spot};
use c_meaning::{Duty, DutyKind, Memory, PlacedInvariant, value_in};
use wv_base::OutOfMemory;

fn is_at(found: Spot, spot: Spot) -> bool
    ensures { result ≡ same_spot found spot }
{
    found.line == spot.line && found.column == spot.column
}

// Is its value defined and other than 0?
fn holds(program: &Program, test: &Expr, memory: &Memory) -> bool
    ensures { result ≡ value.holds (program_view program.now) (expr_view test.now) memory.now.cells }
{
    match value_in(program, test, memory) {
        Some(value) => value != 0,
        None => false,
    }
}

// Is it an invariant of this loop, or of this statement, and doesn't hold?
fn is_broken(
    program: &Program,
    memory: &Memory,
    invariant: &PlacedInvariant,
    at_loop: bool,
    spot: Spot,
) -> bool
    ensures { result ≡ broken (program_view program.now) at_loop spot (placed invariant.now) memory.now.cells }
{
    is_at(invariant.spot, spot)
        && invariant.at_loop == at_loop
        && !holds(program, &invariant.test, memory)
}

// The obligation of an invariant. Numbers have 32 bits.
fn duty_of(spot: Spot, kind: DutyKind, index: usize) -> Result<Duty, OutOfMemory>
    ensures { IfOk result (λ d. d ≡ duty spot kind (Some index)) }
{
    if index > u32::MAX as usize {
        return Err(OutOfMemory);
    }
    Ok(Duty {
        spot,
        kind,
        invariant: Some(index as u32),
    })
}

/// The invariants of a place have to hold; the first in witness order that doesn't is the failure.
pub fn check(
    program: &Program,
    invariants: &[PlacedInvariant],
    machine: &Machine,
    at_loop: bool,
    spot: Spot,
    kind: DutyKind,
) -> Result<(), Halt>
    ensures { Gives same result (left_of machine.now)
        (havoc.test_from (program_view program.now) (placed_view invariants.now) 0 (placed_view invariants.now) at_loop
        spot kind (left_of machine.now)) }
{
    for (index, invariant) in invariants.iter().enumerate() {
        if is_broken(program, &machine.memory, invariant, at_loop, spot) {
            return Err(Halt::Ends(Ending::Fails(duty_of(spot, kind, index)?)));
        }
    }
    Ok(())
}

/// Before a statement its invariants have to hold.
pub fn arrive(
    program: &Program,
    invariants: &[PlacedInvariant],
    machine: &Machine,
    spot: Spot,
) -> Result<(), Halt>
    ensures { Gives same result (left_of machine.now)
        (arrived (program_view program.now) (placed_view invariants.now) spot (left_of machine.now)) }
{
    check(
        program,
        invariants,
        machine,
        false,
        spot,
        DutyKind::Location,
    )
}

/// The run goes on only where the invariants of a loop hold.
pub fn assume(
    program: &Program,
    invariants: &[PlacedInvariant],
    machine: &Machine,
    spot: Spot,
) -> Result<(), Halt>
    ensures { Gives same result (left_of machine.now)
        (havoc.assume_all (program_view program.now) (placed_view invariants.now) (placed_view invariants.now) spot
        (left_of machine.now)) }
{
    for invariant in invariants {
        if is_broken(program, &machine.memory, invariant, true, spot) {
            return Err(Halt::Ends(Ending::Dismisses));
        }
    }
    Ok(())
}
