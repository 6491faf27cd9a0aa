// The objects of static storage in the order of their declarations.
ghost use Rattle.std.specs.Prelude.{◌≡◌, ◌≤◌, ◌++◌, IfOk, OnOk, length, take};
ghost use Rattle.std.specs.List.Sorted.{IsPartitionedBy};
ghost use Rattle.c_core.specs.TextOrder.{is_before};
ghost use Rattle.way_names.specs.Scopes.{front_before, statics_from};
ghost use Rattle.way_names.specs.Versions.{numbers_of};

use c_core::{Object, Spot};
use std::alloc::Global;
use wv_base::OutOfMemory;

fn is_before(a: Spot, b: Spot) -> bool
    ensures { result ≡ is_before a b }
{
    a.line < b.line || a.line == b.line && a.column < b.column
}

/// Where each is declared, and its number.
pub fn statics(alloc: Global, objects: &[Object]) -> Result<Vec<(Spot, u32)>, OutOfMemory>
    requires { length objects.now ≤ 4294967295 }
    ensures { IfOk result (λ found. found.items ≡ statics_from 0 objects.now) }
{
    let mut found = Vec::new(alloc);
    for (index, object) in objects.iter().enumerate() {
        if object.fixed {
            found.push((object.spot, index as u32))?;
        }
    }
    Ok(found)
}

/// Those before the first that isn't declared before a place.
pub fn push_before(
    names: &mut Vec<u32>,
    spot: Spot,
    statics: &[(Spot, u32)],
) -> Result<(), OutOfMemory>
    ensures { OnOk result (names.new.items ≡ names.old.items ++ front_before spot statics.now) }
{
    for (declared, number) in statics {
        if !is_before(*declared, spot) {
            return Ok(());
        }
        names.push(*number)?;
    }
    Ok(())
}

/// How many of them are declared before a place.
pub fn count_before(spot: Spot, statics: &[(Spot, u32)]) -> usize
    requires { IsPartitionedBy (λ s. is_before s.0 spot) statics.now }
    ensures within { result ≤ length statics.now }
    ensures front { numbers_of (take result statics.now) ≡ front_before spot statics.now }
{
    statics.partition_point(|object| is_before(object.0, spot))
}
