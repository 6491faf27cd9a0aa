// The spot that a line names, or a line and a column, among spots in the order of the text.
ghost use Rattle.std.specs.Prelude.{◌≡◌, ◌≤◌, IsTrue, length, true, false};
ghost use Rattle.std.specs.List.{filter};
ghost use Rattle.std.specs.List.Sorted.{IsPartitionPoint};
ghost use Rattle.std.specs.Option.{option_copied};
ghost use Rattle.c_core.specs.Places.{is_named, leftmost};
ghost use Rattle.c_core.specs.TextOrder.{is_before};
ghost use Rattle.way_places.specs.Ordered.{follow, kept_if, start};

use crate::order::is_before;
use crate::place::names;
use c_core::Spot;

// Where what a location names begins, if it is there.
fn start(line: u32, column: Option<u32>) -> Spot
    ensures { result ≡ start line column }
{
    Spot {
        line,
        column: column.unwrap_or(0),
    }
}

fn earlier(spots: &[Spot], from: Spot) -> usize
    requires { IsTrue (follow spots.now) }
    ensures within { result ≤ length spots.now }
    ensures point { IsPartitionPoint (λ s. is_before s from ≡ true) (λ s. is_before s from ≡ false) spots.now result }
{
    spots.partition_point(|spot| is_before(*spot, from))
}

fn only_named(spot: Option<&Spot>, line: u32, column: Option<u32>) -> Option<Spot>
    ensures { result ≡ kept_if (is_named line column) (option_copied spot.entry) }
{
    match spot {
        Some(spot) => {
            if names(line, column, *spot) {
                Some(*spot)
            } else {
                None
            }
        }
        None => None,
    }
}

/// The spot that a location names: exactly there, or the leftmost on the line.
pub fn named_in(spots: &[Spot], line: u32, column: Option<u32>) -> Option<Spot>
    requires { IsTrue (follow spots.now) }
    ensures { result ≡ leftmost (filter (is_named line column) spots.now) }
{
    let from = start(line, column);
    let index = earlier(spots, from);
    let rest = &spots[index..];
    only_named(rest.first(), line, column)
}
