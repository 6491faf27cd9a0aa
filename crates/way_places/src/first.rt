// The first of those that stand at one place, in a list in the order of the text.
ghost use Rattle.std.specs.Prelude.{◌≡◌, ◌≤◌, IsTrue, length, true, false};
ghost use Rattle.std.specs.List.Sorted.{IsPartitionPoint};
ghost use Rattle.std.specs.Option.{option_copied, option_map};
ghost use Rattle.c_core.specs.Parts.{same_spot};
ghost use Rattle.c_core.specs.TextOrder.{is_before};
ghost use Rattle.way_places.specs.Maps.{first_in};
ghost use Rattle.way_places.specs.Ordered.{follow_by_spot, kept_if};

use crate::expressions::is_same;
use crate::order::is_before;
use c_core::Spot;

fn earlier<V>(all: &[(Spot, V)], spot: Spot) -> usize
    requires { IsTrue (follow_by_spot all.now) }
    ensures within { result ≤ length all.now }
    ensures point { IsPartitionPoint (λ e. is_before e.0 spot ≡ true) (λ e. is_before e.0 spot ≡ false) all.now result }
{
    all.partition_point(|e| is_before(e.0, spot))
}

fn only_at<V: Copy>(e: Option<&(Spot, V)>, spot: Spot) -> Option<V>
    ensures { result ≡ option_map (λ x. x.1) (kept_if (λ x. same_spot x.0 spot) (option_copied e.entry)) }
{
    match e {
        Some(e) => { if is_same(e.0, spot) { Some(e.1) } else { None } }
        None => None,
    }
}

/// What a list has at a place.
pub fn found_at<V: Copy>(all: &[(Spot, V)], spot: Spot) -> Option<V>
    requires { IsTrue (follow_by_spot all.now) }
    ensures { result ≡ first_in all.now spot }
{
    let index = earlier(all, spot);
    let rest = &all[index..];
    only_at(rest.first(), spot)
}
