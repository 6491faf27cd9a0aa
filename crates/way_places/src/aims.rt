// Where targets may stand.
ghost use Rattle.std.specs.Prelude.{◌≡◌, ◌++◌, map, OnOk, IfOk};
ghost use Rattle.c_core.specs.Parts.{spot_of};
ghost use Rattle.c_core.specs.Places.{calls_reach_error, of_kind};
ghost use Rattle.c_core.specs.View.{expr_view};
ghost use Rattle.c_core.specs.declared.place.PlaceKind.TheVariants.{Statement};
ghost use Rattle.way_places.specs.Aims.{error_starts, error_starts_in};
ghost use Rattle.way_places.specs.Calls.{ends_view, fulls_view};

use crate::place::is_same;
use c_core::{Callee, Expr, Node, Place, PlaceKind, Property, Spot};
use std::alloc::Global;
use wv_base::OutOfMemory;

/// Adds the places of a kind.
pub fn push_of_kind(
    spots: &mut Vec<Spot>,
    kind: PlaceKind,
    places: &[Place],
) -> Result<(), OutOfMemory>
    ensures { OnOk result (spots.new.items ≡ spots.old.items ++ of_kind kind places.now) }
{
    for place in places {
        if is_same(kind, place.kind) {
            spots.push(place.spot)?;
        }
    }
    Ok(())
}

fn push_starts(spots: &mut Vec<Spot>, fulls: &[&Expr]) -> Result<(), OutOfMemory>
    ensures { OnOk result (spots.new.items ≡ spots.old.items ++ map spot_of (fulls_view fulls.now)) }
{
    for full in fulls {
        spots.push(full.spot)?;
    }
    Ok(())
}

fn reaches_error(e: &Expr) -> bool
    ensures { result ≡ calls_reach_error (expr_view e.now) }
{
    match &e.node {
        Node::Call {
            callee: Callee::ReachError,
            ..
        } => true,
        _ => false,
    }
}

fn push_errors(spots: &mut Vec<Spot>, calls: &[(Spot, &Expr)]) -> Result<(), OutOfMemory>
    ensures { OnOk result (spots.new.items ≡ spots.old.items ++ error_starts (ends_view calls.now)) }
{
    for (_, call) in calls {
        if reaches_error(*call) {
            spots.push(call.spot)?;
        }
    }
    Ok(())
}

fn push_errors_in(
    spots: &mut Vec<Spot>,
    property: Property,
    calls: &[(Spot, &Expr)],
) -> Result<(), OutOfMemory>
    ensures { OnOk result (spots.new.items ≡ spots.old.items ++ error_starts_in property (ends_view calls.now)) }
{
    match property {
        Property::UnreachCall => push_errors(spots, calls),
        Property::NoOverflow => Ok(()),
    }
}

/// The starts of statements, of full expressions, of calls of `reach_error` where that is the property.
pub fn aims(
    alloc: Global,
    property: Property,
    places: &[Place],
    fulls: &[&Expr],
    calls: &[(Spot, &Expr)],
) -> Result<Vec<Spot>, OutOfMemory>
    ensures { IfOk result (λ aims. aims.items
        ≡ of_kind Statement places.now ++ map spot_of (fulls_view fulls.now) ++ error_starts_in property
        (ends_view calls.now)) }
{
    let mut spots = Vec::new(alloc);
    push_of_kind(&mut spots, PlaceKind::Statement, places)?;
    push_starts(&mut spots, fulls)?;
    push_errors_in(&mut spots, property, calls)?;
    Ok(spots)
}
