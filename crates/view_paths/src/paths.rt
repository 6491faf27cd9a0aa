// Paths of a witness's tree, and the places where they stand.
use crate::fronts::tree_of_front;
use crate::stopping::{Fronts, longest_front};
use c_core::Spot;
use std::alloc::Global;
use view_text::spot_at;
use wv_base::OutOfMemory;
use wv_yaml::Tree;

/// One step of a path: the value of a key, or an item from 0.
#[derive(Clone, Copy, Debug)]
pub enum Step<'a> {
    Key(&'a str),
    Item(usize),
}

fn step_of(piece: &str) -> Step<'_> {
    match piece.strip_suffix("]") {
        Some(digits) => Step::Item(digits.parse::<usize>().unwrap_or(0)),
        None => Step::Key(piece),
    }
}

/// The steps of a path as refusals write it, as `[0].content[1].segment[0].waypoint.type`.
pub fn steps_of<'a>(alloc: Global, path: &'a str) -> Result<Vec<Step<'a>>, OutOfMemory> {
    let mut steps = Vec::new(alloc);
    for part in path.split('.') {
        for piece in part.split('[') {
            if !piece.is_empty() {
                steps.push(step_of(piece))?;
            }
        }
    }
    Ok(steps)
}

fn value_at<'t>(tree: &'t Tree, key: &str) -> Option<&'t Tree> {
    let Tree::Map(pairs) = tree else {
        return None;
    };
    for pair in pairs.as_slice() {
        if pair.key.as_str() == key {
            return Some(&pair.value);
        }
    }
    None
}

fn item_at(tree: &Tree, at: usize) -> Option<&Tree> {
    match tree {
        Tree::List(items) => items.get(at),
        _ => None,
    }
}

/// What stands at a path of a tree.
pub fn reached<'t>(tree: &'t Tree, steps: &[Step<'_>]) -> Option<&'t Tree> {
    let mut at = tree;
    for step in steps {
        let next = match step {
            Step::Key(key) => value_at(at, *key),
            Step::Item(index) => item_at(at, *index),
        };
        at = next?;
    }
    Some(at)
}

/// Fronts in which nothing stands at a path yet.
#[derive(Drop)]
struct Without<'a> {
    steps: &'a [Step<'a>],
}

impl Fronts for Without<'_> {
    fn has(&self, alloc: Global, front: &[u8]) -> Result<bool, OutOfMemory> {
        match tree_of_front(alloc, front)? {
            Some(tree) => Ok(reached(&tree, self.steps).is_none()),
            None => Ok(true),
        }
    }
}

/// Where a key begins that ends at an offset, or shortly before it: a quote or a colon may stand behind it.
fn key_start(text: &[u8], end: usize, key: &str) -> usize {
    for back in 0..3 {
        let last = end.saturating_sub(back);
        let start = last.saturating_sub(key.len());
        if text.get(start..last) == Some(key.as_bytes()) {
            return start;
        }
    }
    end.saturating_sub(1)
}

/// Where the last step of a path begins, which ends there.
fn start_of(text: &[u8], end: usize, last: Option<&Step<'_>>) -> usize {
    match last {
        Some(Step::Key(key)) => key_start(text, end, *key),
        _ => end.saturating_sub(1),
    }
}

/// The place of what stands at a path of a readable witness: of its key, or of its item's first character.
pub fn place_of_path(alloc: Global, text: &[u8], steps: &[Step<'_>]) -> Result<Spot, OutOfMemory> {
    if steps.is_empty() {
        return Ok(Spot { line: 1, column: 1 });
    }
    let length = longest_front(alloc, text, &Without { steps })?;
    let end = length.saturating_add(1);
    Ok(spot_at(text, start_of(text, end, steps.last())))
}

/// A place is looked for by reading fronts of the witness: so many bytes of it for all the places together, once for
/// each try.
const MOST_READ: usize = 262_144;

/// So many places at most.
const MOST_PLACES: usize = 20;

/// For how many keys, or other things of one kind, a place is looked for in a witness.
pub fn places_in(text: &[u8]) -> usize {
    let length = text.len();
    if length == 0 {
        return MOST_PLACES;
    }
    (MOST_READ / length).max(1).min(MOST_PLACES)
}
