// The names that a constraint sees.
ghost use Rattle.std.specs.Prelude.{◌≡◌, ◌++◌, IfOk, OnOk, slice_get};
ghost use Rattle.way_constraint.specs.Constraints.{entries, entry_at};
ghost use Rattle.check_scope.specs.InScope.{all_of};

use c_core::Object;
use check_scope::{Known, Table};
use std::alloc::Global;
use wv_base::{OutOfMemory, Seq};

// An object as the innermost name.
fn declare<'a>(table: &mut Table<'a>, number: u32, object: &'a Object) -> Result<(), OutOfMemory>
    ensures { OnOk result (all_of table.new ≡ all_of table.old ++ entry_at number (Some object.now)) }
{
    let known = Known::Object {
        number,
        ty: object.ty,
        dims: object.dims,
        fixed: object.fixed,
    };
    table.declare(object.name.as_str(), known)?;
    Ok(())
}

// One number more; that of no object adds no name.
fn declare_at<'a>(
    table: &mut Table<'a>,
    objects: &'a Seq<Object>,
    number: u32,
) -> Result<(), OutOfMemory>
    ensures { OnOk result (all_of table.new ≡ all_of table.old ++ entry_at number (slice_get objects.now number)) }
{
    match objects.get(number as usize) {
        Some(object) => {
            declare(table, number, object)?;
            Ok(())
        }
        None => Ok(()),
    }
}

/// The objects of these numbers as the names in scope, innermost last.
pub fn names_in_scope<'a>(
    alloc: Global,
    objects: &'a Seq<Object>,
    numbers: &[u32],
) -> Result<Table<'a>, OutOfMemory>
    ensures { IfOk result (λ table. all_of table ≡ entries objects.now numbers.now) }
{
    let mut table = Table::new(alloc);
    for number in numbers {
        declare_at(&mut table, objects, *number)?;
    }
    Ok(table)
}
