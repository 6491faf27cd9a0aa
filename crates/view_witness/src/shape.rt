// A violation sequence whose segments don't have the form that they should.
use std::alloc::Global;
use view_paths::{Step, place_of_path, reached};
use view_text::{File, Messages};
use wv_base::OutOfMemory;
use wv_yaml::Tree;

/// What is wrong with a segment, and the waypoint that shows it, from 0.
#[derive(Clone, Copy)]
struct Lack {
    waypoint: Option<usize>,
    told: &'static str,
}

/// The text at a key of the waypoint in an item of a segment.
fn word_of<'t>(item: &'t Tree, key: &'static str) -> &'t str {
    match reached(item, &[Step::Key("waypoint"), Step::Key(key)]) {
        Some(Tree::Text(text)) => text.as_str(),
        _ => "",
    }
}

fn is_followed(item: &Tree) -> bool {
    word_of(item, "action") == "follow"
}

fn is_target(item: &Tree) -> bool {
    word_of(item, "type") == "target"
}

/// The first waypoint to follow, or target, before the last waypoint of a segment.
fn lack_before(front: &[Tree]) -> Option<Lack> {
    for (index, item) in front.iter().enumerate() {
        if is_followed(item) {
            return Some(Lack {
                waypoint: Some(index),
                told: "the action of this waypoint is follow, and others stand after it: a waypoint to follow ends its segment, so the next ones belong in a segment of their own",
            });
        }
        if is_target(item) {
            return Some(Lack {
                waypoint: Some(index),
                told: "a target can't be avoided: its action has to be follow",
            });
        }
    }
    None
}

/// What is wrong with the last waypoint of a segment.
fn lack_of_last(last: &Tree, at: usize, is_final: bool) -> Lack {
    let told = if !is_followed(last) {
        "the action of the last waypoint of a segment has to be follow, and here it is avoid"
    } else if is_final {
        "the last segment has no target: its waypoint to follow has to be of type target, at the place of the violation"
    } else {
        "a target stands here, and more segments after it: it stands only in the last segment"
    };
    Lack {
        waypoint: Some(at),
        told,
    }
}

/// What is wrong with a segment of these waypoints.
fn lack_of(items: &[Tree], is_final: bool) -> Lack {
    match items {
        [] => Lack {
            waypoint: None,
            told: "it has no waypoint: it needs one to follow",
        },
        [front @ .., last] => match lack_before(front) {
            Some(lack) => lack,
            None => lack_of_last(last, front.len(), is_final),
        },
    }
}

fn items_at<'t>(tree: &'t Tree, steps: &[Step<'_>]) -> &'t [Tree] {
    match reached(tree, steps) {
        Some(Tree::List(items)) => items.as_slice(),
        _ => &[],
    }
}

/// A sequence without a segment.
fn explain_empty(
    alloc: Global,
    text: &[u8],
    entry: usize,
    out: &mut Messages,
) -> Result<(), OutOfMemory> {
    let spot = place_of_path(alloc, text, &[Step::Item(entry), Step::Key("content")])?;
    let told = String::from_str(
        alloc,
        "the sequence has no segment: it needs at least one, whose waypoint to follow is the target",
    )?;
    out.error("schema-shape", File::Witness, Some(spot), told)
}

/// The segment of this number, from 0, of an entry.
fn explain_segment(
    alloc: Global,
    text: &[u8],
    tree: &Tree,
    entry: usize,
    segment: usize,
    is_final: bool,
    out: &mut Messages,
) -> Result<(), OutOfMemory> {
    let list = [
        Step::Item(entry),
        Step::Key("content"),
        Step::Item(segment),
        Step::Key("segment"),
    ];
    let lack = lack_of(items_at(tree, &list), is_final);
    let spot = match lack.waypoint {
        None => place_of_path(alloc, text, &list)?,
        Some(waypoint) => {
            let mut steps = Vec::from_slice(alloc, &list)?;
            steps.push(Step::Item(waypoint))?;
            place_of_path(alloc, text, steps.as_slice())?
        }
    };
    let number = segment.saturating_add(1);
    let rule = lack.told;
    let told = format!(in alloc; "segment {number}: {rule}")?;
    out.error("schema-shape", File::Witness, Some(spot), told)
}

/// A segment, by its number from 1, that doesn't have the form that it should.
pub fn explain_shape(
    alloc: Global,
    text: &[u8],
    tree: &Tree,
    entry: usize,
    number: u32,
    out: &mut Messages,
) -> Result<(), OutOfMemory> {
    let count = items_at(tree, &[Step::Item(entry), Step::Key("content")]).len();
    if count == 0 {
        return explain_empty(alloc, text, entry, out);
    }
    let segment = (number as usize).saturating_sub(1);
    let is_final = segment.saturating_add(1) == count;
    explain_segment(alloc, text, tree, entry, segment, is_final, out)
}
