// One invariant, bound to its place.
ghost use Rattle.std.specs.Prelude.{◌≡◌, IsTrue};
ghost use Rattle.c_core.specs.View.{program_view};
ghost use Rattle.c_meaning.specs.Placing.{placed};
ghost use Rattle.way_names.specs.Visible.{is_scoped};
ghost use Rattle.way_bind.specs.Binding.{BindsThere, seen};
ghost use Rattle.way_invariants.specs.Invariants.{BindsInvariant, is_at_loop, place_of, placed_at};

use c_core::{PlaceKind, Spot};
use c_meaning::PlacedInvariant;
use std::alloc::Global;
use way_bind::{Lookup, Unbound, expression_at, place_named};
use wv_schema::{Invariant, InvariantKind};

fn place_of(kind: InvariantKind) -> PlaceKind
    ensures { result ≡ place_of kind }
{
    match kind {
        InvariantKind::Loop => PlaceKind::Loop,
        InvariantKind::Location => PlaceKind::Statement,
    }
}

fn is_at_loop(kind: InvariantKind) -> bool
    ensures { result ≡ is_at_loop kind }
{
    match kind {
        InvariantKind::Loop => true,
        InvariantKind::Location => false,
    }
}

/// An invariant of a kind at its place, over the names that are visible there.
fn invariant_at(
    alloc: Global,
    lookup: &Lookup,
    kind: InvariantKind,
    text: &str,
    spot: Spot,
) -> Result<PlacedInvariant, Unbound>
    requires { IsTrue (is_scoped (program_view lookup.now.index) (place_of kind) spot) }
    ensures { BindsThere (program_view lookup.now.index) (place_of kind) text.now (placed_at kind) spot
        (seen placed result) }
{
    let test = expression_at(alloc, lookup, place_of(kind), spot, text)?;
    Ok(PlacedInvariant {
        at_loop: is_at_loop(kind),
        spot,
        test,
    })
}

/// An invariant bound to its place, or the first test that it fails.
pub fn bind_invariant(
    alloc: Global,
    lookup: &Lookup,
    invariant: &Invariant,
) -> Result<PlacedInvariant, Unbound>
    ensures { BindsInvariant (program_view lookup.now.index) invariant.now (seen placed result) }
{
    let kind = invariant.kind;
    match place_named(&lookup.index, place_of(kind), &invariant.location) {
        None => Err(Unbound::NoPlace),
        Some(spot) => invariant_at(alloc, lookup, kind, invariant.value.as_str(), spot),
    }
}
