// The obligations of a program with invariants.
ghost use Rattle.std.specs.Prelude.{◌≡◌, ◌+◌, ◌++◌, [], ◌∷◌, Some, IfOk, OnOk};
ghost use Rattle.c_core.specs.View.{program_view};
ghost use Rattle.c_meaning.specs.Duties.{Duties, duty, invariant_duties};
ghost use Rattle.c_meaning.specs.Placing.{placed, placed_view};

use crate::sorting::sort;
use crate::walk::push_functions;
use c_core::{Program, Spot};
use c_meaning::{Duty, DutyKind, PlacedInvariant};
use std::alloc::Global;
use wv_base::{OutOfMemory, Seq};

fn push(list: &mut Vec<Duty>, spot: Spot, kind: DutyKind, number: u32) -> Result<(), OutOfMemory>
    ensures { OnOk result (list.new.items ≡ list.old.items ++ duty spot kind (Some number) ∷ []) }
{
    list.push(Duty {
        spot,
        kind,
        invariant: Some(number),
    })?;
    Ok(())
}

fn push_invariant(
    list: &mut Vec<Duty>,
    invariant: &PlacedInvariant,
    number: u32,
) -> Result<(), OutOfMemory>
    ensures { OnOk result (list.new.items ≡ list.old.items ++ invariant_duties number (placed invariant.now ∷ [])) }
{
    if invariant.at_loop {
        push(list, invariant.spot, DutyKind::Entry, number)?;
        push(list, invariant.spot, DutyKind::Kept, number)?;
    } else {
        push(list, invariant.spot, DutyKind::Location, number)?;
    }
    Ok(())
}

fn next(number: u32) -> Result<u32, OutOfMemory>
    ensures { IfOk result (λ after. after ≡ number + 1) }
{
    number.checked_add(1).ok_or(OutOfMemory)
}

fn push_invariants(list: &mut Vec<Duty>, invariants: &[PlacedInvariant]) -> Result<(), OutOfMemory>
    ensures { OnOk result (list.new.items ≡ list.old.items ++ invariant_duties 0 (placed_view invariants.now)) }
{
    let mut number: u32 = 0;
    for invariant in invariants {
        push_invariant(list, invariant, number)?;
        number = next(number)?;
    }
    Ok(())
}

/// The obligations by place, then kind, then in witness order. More invariants than numbers are
/// answered as out of memory.
pub fn duties(
    alloc: Global,
    program: &Program,
    invariants: &Seq<PlacedInvariant>,
) -> Result<Seq<Duty>, OutOfMemory>
    ensures { IfOk result (λ duties. duties ≡ Duties (program_view program.now) (placed_view invariants.now)) }
{
    let mut list = Vec::new(alloc);
    push_invariants(&mut list, invariants.as_slice())?;
    push_functions(&mut list, program, program.functions.as_slice())?;
    sort(&mut list)?;
    Ok(Seq::from_vec(list))
}
