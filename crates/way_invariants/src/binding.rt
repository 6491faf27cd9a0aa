// The invariants of a witness, bound in witness order.
ghost use Rattle.std.specs.Prelude.{◌≡◌, ◌+◌, [], ◌∷◌, IfOk};
ghost use Rattle.std.specs.List.{All};
ghost use Rattle.c_core.specs.View.{program_view};
ghost use Rattle.c_meaning.specs.Placing.{IsInvariant, placed_view};
ghost use Rattle.way_invariants.specs.Invariants.{BindsInvariants, invariants_among, set_of};
ghost use Rattle.way_invariants.specs.Steps.{BindsNext};

use crate::invariant::bind_invariant;
use c_core::Program;
use c_meaning::PlacedInvariant;
use std::alloc::Global;
use way_bind::{BindFault, Lookup, told};
use wv_base::{OutOfMemory, Seq};
use wv_schema::{Content, Entry, Invariant, Witness};

/// This many invariants can be numbered.
const MOST_INVARIANTS: usize = 1073741823;

/// The number of the invariant after n others, from 1. More than a file of allowed length holds: out of memory.
fn number_behind(count: usize) -> Result<u32, OutOfMemory>
    ensures { IfOk result (λ number. number ≡ count + 1) }
{
    if count >= MOST_INVARIANTS {
        return Err(OutOfMemory);
    }
    Ok((count + 1) as u32)
}

/// An invariant bound after those that are.
fn bind_next(
    alloc: Global,
    lookup: &Lookup,
    invariant: &Invariant,
    placed: &mut Seq<PlacedInvariant>,
) -> Result<(), BindFault>
    ensures { BindsNext (program_view lookup.now.index) (invariant.now ∷ []) placed.old placed.new result }
{
    let number = number_behind(placed.len())?;
    match bind_invariant(alloc, lookup, invariant) {
        Ok(bound) => {
            placed.push(bound)?;
            Ok(())
        }
        Err(lack) => Err(told(number, lack)),
    }
}

/// The invariants of a set, bound after those of the sets before.
fn bind_set(
    alloc: Global,
    lookup: &Lookup,
    set: &[Invariant],
    placed: &mut Seq<PlacedInvariant>,
) -> Result<(), BindFault>
    ensures { BindsNext (program_view lookup.now.index) set.now placed.old placed.new result }
{
    for invariant in set {
        bind_next(alloc, lookup, invariant, placed)?;
    }
    Ok(())
}

/// The invariants that an entry claims.
fn set_of(entry: &Entry) -> &[Invariant]
    ensures { result.now ≡ set_of entry.now }
{
    match &entry.content {
        Content::Violation(_) => &[],
        Content::Invariants(set) => set.as_slice(),
    }
}

/// The sets of all entries, joined in order.
fn bind_sets(
    alloc: Global,
    lookup: &Lookup,
    entries: &[Entry],
    placed: &mut Seq<PlacedInvariant>,
) -> Result<(), BindFault>
    ensures { BindsNext (program_view lookup.now.index) (invariants_among entries.now) placed.old placed.new result }
{
    for entry in entries {
        bind_set(alloc, lookup, set_of(entry), placed)?;
    }
    Ok(())
}

/// The invariants of all sets of a witness, in witness order, bound to the places and typed expressions of a program.
/// It is meant for witnesses that meet the schema and hold invariant sets; without one nothing is bound.
pub fn bind_correctness(
    alloc: Global,
    witness: &Witness,
    program: &Program,
) -> Result<Seq<PlacedInvariant>, BindFault>
    ensures bound { BindsInvariants (program_view program.now) witness.now result }
    ensures typed { IfOk result (λ placed. All (IsInvariant (program_view program.now)) (placed_view placed)) }
{
    let lookup = Lookup::new(alloc, program)?;
    let mut placed = Seq::new(alloc);
    bind_sets(alloc, &lookup, witness.entries.as_slice(), &mut placed)?;
    Ok(placed)
}
