// Where a waypoint or an invariant stands, and what it says.
ghost use Rattle.std.specs.Prelude.{◌≡◌, ◌∷◌, List, ℕ, Option, codes, option_map};
ghost use Rattle.wv_schema.specs.declared.witness.Location.{Location};
ghost use Rattle.wv_schema.specs.declared.witness.Constraint.{Constraint};
ghost use Rattle.wv_schema.specs.Table.{in_map, in_map_if, location_fields, expression_fields, way_fields, constraint_rows};
ghost use Rattle.wv_schema.specs.Judging.{first_fault};
ghost use Rattle.wv_schema.specs.Paths.{map_of};
ghost use Rattle.wv_schema.specs.Values.{map_at, location_in, constraint_in, way_in, constraint_of};
ghost use Rattle.wv_schema.specs.Schema.{Gives};

use crate::fault::SchemaFault;
use crate::field::{
    needed_count, needed_map, needed_text, optional_count, optional_map, optional_text,
};
use crate::place::place_of_key;
use crate::rule::TextRule;
use crate::witness::{Constraint, Location, WayKind};
use std::alloc::Global;
use wv_yaml::Pair;

fn location_fields_of(alloc: Global, at: &str, pairs: &[Pair]) -> Result<Location, SchemaFault>
    ensures { Gives (λ (l : Location). l) result (first_fault at.now pairs.now location_fields)
        (location_in pairs.now) }
{
    let file_name = optional_text(alloc, at, pairs, "file_name", TextRule::Any)?;
    let line = needed_count(alloc, at, pairs, "line")?;
    let column = optional_count(alloc, at, pairs, "column")?;
    let function = optional_text(alloc, at, pairs, "function", TextRule::Any)?;
    Ok(Location {
        file_name,
        line,
        column,
        function,
    })
}

/// The map `location`.
pub fn location_of(alloc: Global, at: &str, pairs: &[Pair]) -> Result<Location, SchemaFault>
    ensures { Gives (λ (l : Location). l) result
        (first_fault at.now pairs.now (in_map (codes "location") location_fields))
        (location_in (map_at (codes "location") pairs.now)) }
{
    let inside = needed_map(alloc, at, pairs, "location")?;
    let place = place_of_key(alloc, at, "location")?;
    location_fields_of(alloc, place.as_str(), inside)
}

/// The value and the format of an expression.
pub fn expression_of(alloc: Global, at: &str, pairs: &[Pair]) -> Result<Constraint, SchemaFault>
    ensures { Gives (λ (x : Constraint). x) result (first_fault at.now pairs.now expression_fields)
        (constraint_in pairs.now) }
{
    let value = needed_text(alloc, at, pairs, "value", TextRule::Any)?;
    let format = optional_text(alloc, at, pairs, "format", TextRule::Format)?;
    Ok(Constraint { value, format })
}

/// A way of a branching; its format isn't read.
fn way_of(alloc: Global, at: &str, pairs: &[Pair]) -> Result<Constraint, SchemaFault>
    ensures { Gives (λ (x : Constraint). x) result (first_fault at.now pairs.now way_fields) (way_in pairs.now) }
{
    let value = needed_text(alloc, at, pairs, "value", TextRule::Way)?;
    Ok(Constraint {
        value,
        format: None,
    })
}

fn needed_expression(alloc: Global, at: &str, pairs: &[Pair]) -> Result<Constraint, SchemaFault>
    ensures { Gives (λ (x : Constraint). x) result
        (first_fault at.now pairs.now (in_map (codes "constraint") expression_fields))
        (constraint_in (map_at (codes "constraint") pairs.now)) }
{
    let inside = needed_map(alloc, at, pairs, "constraint")?;
    let place = place_of_key(alloc, at, "constraint")?;
    expression_of(alloc, place.as_str(), inside)
}

fn needed_way(alloc: Global, at: &str, pairs: &[Pair]) -> Result<Constraint, SchemaFault>
    ensures { Gives (λ (x : Constraint). x) result
        (first_fault at.now pairs.now (in_map (codes "constraint") way_fields))
        (way_in (map_at (codes "constraint") pairs.now)) }
{
    let inside = needed_map(alloc, at, pairs, "constraint")?;
    let place = place_of_key(alloc, at, "constraint")?;
    way_of(alloc, place.as_str(), inside)
}

fn optional_expression(
    alloc: Global,
    at: &str,
    pairs: &[Pair],
) -> Result<Option<Constraint>, SchemaFault>
    ensures { Gives (λ (x : Option Constraint). x) result
        (first_fault at.now pairs.now (in_map_if (codes "constraint") expression_fields))
        (option_map constraint_in (map_of (codes "constraint") pairs.now)) }
{
    match optional_map(alloc, at, pairs, "constraint")? {
        None => Ok(None),
        Some(inside) => {
            let place = place_of_key(alloc, at, "constraint")?;
            let expression = expression_of(alloc, place.as_str(), inside)?;
            Ok(Some(expression))
        }
    }
}

/// The constraint that a waypoint of this type has.
#[tactic(auto, using(crate::proofs::Chains::first_end), unfolding(crate::specs::Table::constraint_rows, crate::specs::Values::constraint_of))]
pub fn constraint_at(
    alloc: Global,
    at: &str,
    pairs: &[Pair],
    kind: WayKind,
) -> Result<Option<Constraint>, SchemaFault>
    ensures { Gives (λ (x : Option Constraint). x) result (first_fault at.now pairs.now (constraint_rows kind))
        (constraint_of kind pairs.now) }
{
    match kind {
        WayKind::Assumption => {
            let constraint = needed_expression(alloc, at, pairs)?;
            Ok(Some(constraint))
        }
        WayKind::Target => Ok(None),
        WayKind::FunctionEnter => Ok(None),
        WayKind::FunctionReturn => optional_expression(alloc, at, pairs),
        WayKind::Branching => {
            let constraint = needed_way(alloc, at, pairs)?;
            Ok(Some(constraint))
        }
    }
}
