// The segments of a violation sequence.
ghost use Rattle.std.specs.Prelude.{◌≡◌, ◌-◌, ◌^◌, ◌&&◌, List, Option, map, min, true, codes, OnOk};
ghost use Rattle.wv_schema.specs.declared.witness.Segment.{Segment};
ghost use Rattle.wv_schema.specs.declared.segment.Drafts.{Drafts};
ghost use Rattle.std.specs.Option.{option_or};
ghost use Rattle.wv_schema.specs.Paths.{key_place};
ghost use Rattle.wv_schema.specs.Table.{segment_fields};
ghost use Rattle.wv_schema.specs.Judging.{first_fault, items_fault};
ghost use Rattle.wv_schema.specs.Values.{list_at, steps_in, segment_in};
ghost use Rattle.wv_schema.specs.Steps.{fits_end, segment_by, kept, drafts_in};
ghost use Rattle.wv_schema.specs.Schema.{Gives, step_fault, segment_fault, content_fault};

use crate::fault::SchemaFault;
use crate::field::needed_list;
use crate::place::{place_of_item, place_of_key, wrong_kind};
use crate::reach::pairs_of;
use crate::waypoint::{Avoids, Step, avoids_of, step_of};
use crate::witness::{Segment, WayKind};
use std::alloc::Global;
use wv_base::{OutOfMemory, Seq};
use wv_yaml::{Pair, Tree};

/// The segments of the right form, and the number of the first that isn't, from 1.
#[derive(Drop)]
pub struct Drafts {
    pub segments: Seq<Segment>,
    pub misshapen: Option<usize>,
}

/// Whether the last waypoint of a segment is a target exactly where the segment is the final one.
fn is_end_fit(is_final: bool, kind: WayKind) -> bool
    ensures { result ≡ fits_end is_final kind }
{
    if is_final {
        kind == WayKind::Target
    } else {
        kind != WayKind::Target
    }
}

fn is_well_formed(is_final: bool, avoids: &Avoids, last: &Step) -> bool
    ensures { result ≡ (last.now.is_follow && (avoids.now.are_fit && fits_end is_final last.now.waypoint.kind)) }
{
    last.is_follow && avoids.are_fit && is_end_fit(is_final, last.waypoint.kind)
}

/// The segment, or `None` where it is misshapen.
fn segment_of_steps(
    alloc: Global,
    at: &str,
    items: &[Tree],
    is_final: bool,
) -> Result<Option<Segment>, SchemaFault>
    ensures { Gives (λ (s : Option Segment). s) result (items_fault step_fault at.now 0 items.now)
        (segment_by is_final items.now) }
{
    if items.is_empty() {
        return Ok(None);
    }
    let last = items.len() - 1;
    let avoids = avoids_of(alloc, at, &items[..last])?;
    let place = place_of_item(alloc, at, last)?;
    let step = step_of(alloc, place.as_str(), &items[last])?;
    if !is_well_formed(is_final, &avoids, &step) {
        return Ok(None);
    }
    Ok(Some(Segment {
        avoids: avoids.waypoints,
        follow: step.waypoint,
    }))
}

fn segment_in_map(
    alloc: Global,
    at: &str,
    pairs: &[Pair],
    is_final: bool,
) -> Result<Option<Segment>, SchemaFault>
    ensures { Gives (λ (s : Option Segment). s) result
        (option_or (first_fault at.now pairs.now segment_fields)
        (items_fault step_fault (key_place at.now (codes "segment")) 0 (list_at (codes "segment") pairs.now)))
        (segment_by is_final (list_at (codes "segment") pairs.now)) }
{
    let items = needed_list(alloc, at, pairs, "segment")?;
    let place = place_of_key(alloc, at, "segment")?;
    segment_of_steps(alloc, place.as_str(), items, is_final)
}

/// An item of the content.
fn segment_of(
    alloc: Global,
    at: &str,
    item: &Tree,
    is_final: bool,
) -> Result<Option<Segment>, SchemaFault>
    ensures { Gives (λ (s : Option Segment). s) result (segment_fault at.now item.now)
        (segment_by is_final (steps_in item.now)) }
{
    match pairs_of(item) {
        None => Err(wrong_kind(alloc, at)),
        Some(pairs) => segment_in_map(alloc, at, pairs, is_final),
    }
}

/// Keeps a segment, or the number of the first that is misshapen.
fn keep(drafts: &mut Drafts, segment: Option<Segment>, number: usize) -> Result<(), OutOfMemory>
    ensures { OnOk result (drafts.new ≡ kept drafts.old segment number) }
{
    match segment {
        Some(segment) => drafts.segments.push(segment)?,
        None => drafts.misshapen = drafts.misshapen.or(Some(number)),
    }
    Ok(())
}

fn drafts_of(alloc: Global, at: &str, items: &[Tree]) -> Result<Drafts, SchemaFault>
    ensures { Gives (λ (d : Drafts). d) result (items_fault segment_fault at.now 0 items.now) (drafts_in items.now) }
{
    let mut drafts = Drafts {
        segments: Seq::new(alloc),
        misshapen: None,
    };
    for (index, item) in items.iter().enumerate() {
        let place = place_of_item(alloc, at, index)?;
        let number = index + 1;
        let segment = segment_of(alloc, place.as_str(), item, number == items.len())?;
        keep(&mut drafts, segment, number)?;
    }
    Ok(drafts)
}

/// A segment's number, as it is reported.
fn reported(number: usize) -> u32
    ensures { result ≡ min number (2 ^ 32 - 1) }
{
    if number < u32::MAX as usize {
        number as u32
    } else {
        u32::MAX
    }
}

/// The content of a violation sequence.
pub fn segments_of(alloc: Global, at: &str, items: &[Tree]) -> Result<Seq<Segment>, SchemaFault>
    ensures { Gives (λ (s : List Segment). s) result (content_fault at.now true items.now) (map segment_in items.now) }
{
    let drafts = drafts_of(alloc, at, items)?;
    if items.is_empty() {
        return Err(SchemaFault::Shape(1));
    }
    match drafts.misshapen {
        None => Ok(drafts.segments),
        Some(number) => Err(SchemaFault::Shape(reported(number))),
    }
}
