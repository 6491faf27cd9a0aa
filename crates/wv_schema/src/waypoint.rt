// The waypoints of a segment.
ghost use Rattle.std.specs.Prelude.{◌≡◌, ◌&&◌, codes};
ghost use Rattle.wv_schema.specs.declared.waypoint.Step.{Step};
ghost use Rattle.wv_schema.specs.declared.waypoint.Avoids.{Avoids};
ghost use Rattle.wv_schema.specs.Table.{in_map, waypoint_fields};
ghost use Rattle.wv_schema.specs.Judging.{first_fault, items_fault};
ghost use Rattle.wv_schema.specs.Values.{map_at, kind_at, way_kind, waypoint_pairs};
ghost use Rattle.wv_schema.specs.Steps.{step_by, is_avoid_step, avoids_in};
ghost use Rattle.wv_schema.specs.Schema.{Gives, step_fault};

use crate::fault::SchemaFault;
use crate::field::{needed_map, needed_str};
use crate::location::{constraint_at, location_of};
use crate::place::{place_of_item, place_of_key, wrong_kind};
use crate::reach::pairs_of;
use crate::rule::TextRule;
use crate::witness::{WayKind, Waypoint};
use std::alloc::Global;
use wv_base::Seq;
use wv_yaml::{Pair, Tree};

/// A waypoint, and whether it is a follow.
#[derive(Drop)]
pub struct Step {
    pub waypoint: Waypoint,
    pub is_follow: bool,
}

/// The waypoints before a segment's last, and whether each is an avoid other than a target.
#[derive(Drop)]
pub struct Avoids {
    pub waypoints: Seq<Waypoint>,
    pub are_fit: bool,
}

#[tactic(auto, unfolding(crate::specs::Values::way_kind))]
fn kind_of(word: &str) -> WayKind
    ensures { result ≡ way_kind word.now }
{
    if word == "assumption" {
        WayKind::Assumption
    } else if word == "target" {
        WayKind::Target
    } else if word == "function_enter" {
        WayKind::FunctionEnter
    } else if word == "function_return" {
        WayKind::FunctionReturn
    } else {
        WayKind::Branching
    }
}

fn waypoint_fields_of(alloc: Global, at: &str, pairs: &[Pair]) -> Result<Step, SchemaFault>
    ensures { Gives (λ (s : Step). s) result (first_fault at.now pairs.now (waypoint_fields (kind_at pairs.now)))
        (step_by pairs.now) }
{
    let word = needed_str(alloc, at, pairs, "type", TextRule::WaypointType)?;
    let kind = kind_of(word);
    let action = needed_str(alloc, at, pairs, "action", TextRule::Action)?;
    let is_follow = action == "follow";
    let location = location_of(alloc, at, pairs)?;
    let constraint = constraint_at(alloc, at, pairs, kind)?;
    let waypoint = Waypoint {
        kind,
        location,
        constraint,
    };
    Ok(Step {
        waypoint,
        is_follow,
    })
}

fn waypoint_of(alloc: Global, at: &str, pairs: &[Pair]) -> Result<Step, SchemaFault>
    ensures { Gives (λ (s : Step). s) result
        (first_fault at.now pairs.now (in_map (codes "waypoint")
        (waypoint_fields (kind_at (map_at (codes "waypoint") pairs.now)))))
        (step_by (map_at (codes "waypoint") pairs.now)) }
{
    let inside = needed_map(alloc, at, pairs, "waypoint")?;
    let place = place_of_key(alloc, at, "waypoint")?;
    waypoint_fields_of(alloc, place.as_str(), inside)
}

/// An item of a segment.
pub fn step_of(alloc: Global, at: &str, item: &Tree) -> Result<Step, SchemaFault>
    ensures { Gives (λ (s : Step). s) result (step_fault at.now item.now) (step_by (waypoint_pairs item.now)) }
{
    match pairs_of(item) {
        None => Err(wrong_kind(alloc, at)),
        Some(pairs) => waypoint_of(alloc, at, pairs),
    }
}

fn is_avoid(step: &Step) -> bool
    ensures { result ≡ is_avoid_step step.now }
{
    !step.is_follow && step.waypoint.kind != WayKind::Target
}

fn stay_fit(are_fit: bool, step: &Step) -> bool
    ensures { result ≡ (are_fit && is_avoid_step step.now) }
{
    are_fit && is_avoid(step)
}

/// The waypoints before a segment's last.
pub fn avoids_of(alloc: Global, at: &str, items: &[Tree]) -> Result<Avoids, SchemaFault>
    ensures { Gives (λ (a : Avoids). a) result (items_fault step_fault at.now 0 items.now) (avoids_in items.now) }
{
    let mut waypoints = Seq::new(alloc);
    let mut are_fit = true;
    for (index, item) in items.iter().enumerate() {
        let place = place_of_item(alloc, at, index)?;
        let step = step_of(alloc, place.as_str(), item)?;
        are_fit = stay_fit(are_fit, &step);
        waypoints.push(step.waypoint)?;
    }
    Ok(Avoids { waypoints, are_fit })
}
