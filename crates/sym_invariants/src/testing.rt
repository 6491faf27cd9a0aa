// The invariants of a place are tested in turn.
ghost use Rattle.std.specs.Prelude.{[], ◌∷◌, ◌≡◌, IfOk, List, true};
ghost use Rattle.c_core.specs.Tree.{Program};
ghost use Rattle.c_meaning.specs.Duties.{Placed};
ghost use Rattle.c_meaning.specs.Havoc.{stands};
ghost use Rattle.sym_state.specs.Standing.{IsState};
ghost use Rattle.c_meaning.specs.Placing.{IsInvariant, placed};
ghost use Rattle.sym_invariants.specs.Obliged.{program_of, invariants_of, Assumes, HasRoom, IsObliged, Tests};

use crate::numbers::{has_invariants, number_of};
use crate::obliged::Obliged;
use crate::values::holds_bit;
use c_core::Spot;
use c_duties::duties_are_in_order;
use c_meaning::{Duty, DutyKind, PlacedInvariant};
use sym_flow::{assume, assure};
use sym_state::Sym;
use wv_base::OutOfMemory;

fn is_at(x: &PlacedInvariant, at_loop: bool, spot: Spot) -> bool
    ensures { (p : Program) (I : List Placed) → result ≡ stands p I at_loop spot (placed x.now) }
{
    let place = x.spot.line == spot.line && x.spot.column == spot.column;
    place && x.at_loop == at_loop
}

// One invariant is tested, if it stands there.
fn test_one(
    obliged: &Obliged,
    sym: &mut Sym,
    at_loop: bool,
    spot: Spot,
    kind: DutyKind,
    number: u32,
    x: &PlacedInvariant,
) -> Result<(), OutOfMemory>
    requires obliged { IsObliged obliged.now }
    requires fits { IsState (program_of obliged.now) sym.old }
    requires good { IsInvariant (program_of obliged.now) (placed x.now) }
    requires room { HasRoom obliged.now (placed x.now ∷ []) at_loop spot sym.old }
    ensures { IfOk result (λ r. Tests obliged.now number (placed x.now ∷ []) at_loop spot kind sym.old sym.new) }
{
    if !is_at(x, at_loop, spot) {
        return Ok(());
    }
    let holds = holds_bit(obliged.alloc, obliged.program, sym, &x.test)?;
    let duty = Duty {
        spot,
        kind,
        invariant: Some(number),
    };
    duties_are_in_order();
    let failed = number_of(obliged.mode.duties, &duty);
    assure(sym, obliged.program, failed, holds)?;
    Ok(())
}

// One invariant is assumed, if it stands there.
fn assume_one(
    obliged: &Obliged,
    sym: &mut Sym,
    spot: Spot,
    x: &PlacedInvariant,
) -> Result<(), OutOfMemory>
    requires obliged { IsObliged obliged.now }
    requires fits { IsState (program_of obliged.now) sym.old }
    requires good { IsInvariant (program_of obliged.now) (placed x.now) }
    requires room { HasRoom obliged.now (placed x.now ∷ []) true spot sym.old }
    ensures { IfOk result (λ r. Assumes obliged.now (placed x.now ∷ []) spot sym.old sym.new) }
{
    if !is_at(x, true, spot) {
        return Ok(());
    }
    let holds = holds_bit(obliged.alloc, obliged.program, sym, &x.test)?;
    assume(sym, obliged.program, holds)?;
    Ok(())
}

/// The invariants of a loop (true) or a statement (false) at a place are tested in turn: a run fails the obligation of
/// the first that doesn't hold.
pub fn test_all(
    obliged: &Obliged,
    sym: &mut Sym,
    at_loop: bool,
    spot: Spot,
    kind: DutyKind,
) -> Result<(), OutOfMemory>
    requires obliged { IsObliged obliged.now }
    requires fits { IsState (program_of obliged.now) sym.old }
    requires room { HasRoom obliged.now (invariants_of obliged.now) at_loop spot sym.old }
    ensures { IfOk result (λ r. Tests obliged.now 0 (invariants_of obliged.now) at_loop spot kind sym.old sym.new) }
{
    if !has_invariants(obliged, at_loop, spot) {
        return Ok(());
    }
    let invariants = obliged.mode.invariants;
    let mut number = 0;
    for x in invariants {
        test_one(obliged, sym, at_loop, spot, kind, number, x)?;
        number += 1;
    }
    Ok(())
}

/// A run goes on only where all invariants of a loop at a place hold; else it is dismissed.
pub fn assume_all(obliged: &Obliged, sym: &mut Sym, spot: Spot) -> Result<(), OutOfMemory>
    requires obliged { IsObliged obliged.now }
    requires fits { IsState (program_of obliged.now) sym.old }
    requires room { HasRoom obliged.now (invariants_of obliged.now) true spot sym.old }
    ensures { IfOk result (λ r. Assumes obliged.now (invariants_of obliged.now) spot sym.old sym.new) }
{
    if !has_invariants(obliged, true, spot) {
        return Ok(());
    }
    let invariants = obliged.mode.invariants;
    for x in invariants {
        assume_one(obliged, sym, spot, x)?;
    }
    Ok(())
}
