// The values given at each place.
ghost use Rattle.std.specs.Prelude.{◌≡◌, ◌++◌, Some, IfOk, OnOk};
ghost use Rattle.c_core.specs.declared.number.Spot.{Spot};
ghost use Rattle.way_match.specs.inside.Gathered.{value_view, values_in, values_of, values_view};
ghost use Rattle.way_match.specs.Given.{value_if_at};

use crate::given_values::GivenValue;
use c_core::Spot;
use std::alloc::Global;
use std::collections::BTreeMap;
use wv_base::{OutOfMemory, Seq};

/// Under the line and the column of each place the values that are given there.
pub type Values = BTreeMap<(u32, u32), Seq<i128>>;

fn put(alloc: Global, values: &mut Values, given: GivenValue) -> Result<(), OutOfMemory>
    ensures { OnOk result ((q : Spot) → values_in values.new q ≡ values_in values.old q ++ value_if_at q
        (Some (value_view given))) }
{
    let key = (given.spot.line, given.spot.column);
    let mut list = values.remove(&key).unwrap_or(Seq::new(alloc));
    list.push(given.value)?;
    values.insert(key, list)?;
    Ok(())
}

/// Given values by place, those of one place in their order.
pub fn values_by_place(alloc: Global, given: &[GivenValue]) -> Result<Values, OutOfMemory>
    ensures { IfOk result (λ values. (q : Spot) → values_in values q ≡ values_of q (values_view given.now)) }
{
    let mut values = BTreeMap::new(alloc);
    for value in given {
        put(alloc, &mut values, *value)?;
    }
    Ok(values)
}

/// The values at a place.
pub fn values_at(alloc: Global, values: &Values, spot: Spot) -> Result<Seq<i128>, OutOfMemory>
    ensures { IfOk result (λ list. list ≡ values_in values.now spot) }
{
    let mut list = Vec::new(alloc);
    if let Some(there) = values.get(&(spot.line, spot.column)) {
        list.extend_from_slice(there.as_slice())?;
    }
    Ok(Seq::from_vec(list))
}
