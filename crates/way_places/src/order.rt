// The order of the text, and lists that keep it.
ghost use Rattle.std.specs.Prelude.{◌≡◌, IsTrue, OnOk};
ghost use Rattle.std.specs.List.Sorted.{IsPermutation};
ghost use Rattle.std.specs.Ordering.{is_lt};
ghost use Rattle.c_core.specs.TextOrder.{is_before};
ghost use Rattle.way_places.specs.Maps.{first_in};
ghost use Rattle.way_places.specs.Ordered.{follow, follow_by_spot};

use c_core::Spot;
use std::cmp::Ordering;
use wv_base::OutOfMemory;

/// Whether a place stands earlier in the text than another.
pub fn is_before(a: Spot, b: Spot) -> bool
    ensures { result ≡ is_before a b }
{
    a.line < b.line || a.line == b.line && a.column < b.column
}

fn in_text(a: Spot, b: Spot) -> Ordering
    ensures { is_lt result ≡ is_before a b }
{
    a.line.cmp(&b.line).then(a.column.cmp(&b.column))
}

/// Puts spots in the order of the text.
pub fn sort_spots(spots: &mut Vec<Spot>) -> Result<(), OutOfMemory>
    ensures ordered { OnOk result (IsTrue (follow spots.new.items)) }
    ensures same { OnOk result (IsPermutation spots.old.items spots.new.items) }
{
    spots.sort_by(|a, b| in_text(*a, *b))?;
    Ok(())
}

/// Puts what stands at spots in the order of the text; what stands at one spot keeps its order.
pub fn sort_by_spot<V>(all: &mut Vec<(Spot, V)>) -> Result<(), OutOfMemory>
    ensures ordered { OnOk result (IsTrue (follow_by_spot all.new.items)) }
    ensures same { OnOk result ((q : Spot) → first_in all.new.items q ≡ first_in all.old.items q) }
{
    all.sort_by(|a, b| in_text(a.0, b.0))?;
    Ok(())
}
