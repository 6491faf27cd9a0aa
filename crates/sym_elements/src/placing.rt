// Where each run is in an array, as bits.
ghost use Rattle.std.specs.Prelude.{◌≡◌, ◌+◌, ◌*◌, ◌<◌, ◌≤◌, ◌^◌, IfOk, length, not};
ghost use Rattle.c_core.specs.Types.{is_signed};
ghost use Rattle.c_core.specs.View.{program_view};
ghost use Rattle.c_meaning.specs.Objects as objects;
ghost use Rattle.circuits.specs.Gates.{negative};
ghost use Rattle.circuits.specs.Net.{Means, IsIn};
ghost use Rattle.circuits.specs.Numbers.{number, AreIn};
ghost use Rattle.sym_elements.specs.Placing.{ArePlaced, rows_of, index_where, row_where, index_cost, crossed_cost, row_cost};

use crate::marks::{crossed, decoded};
use c_core::{IntType, Program, signed};
use c_meaning::size_of_object;
use circuits::{Bit, Net, not};
use std::alloc::Global;
use wv_base::{OutOfMemory, Seq};

/// A bit for each cell of an object, in order: is it the one where a run is? And binary digits that spell that cell:
/// the first `inner` its column, lowest first, and the others its row.
#[derive(Debug, Drop)]
pub struct Places {
    pub bits: Seq<Bit>,
    pub digits: Seq<Bit>,
    pub inner: usize,
    pub columns: u32,
}

/// How many columns an object has.
pub fn columns_of_object(program: &Program, object: u32) -> u32
    ensures { result ≡ objects.columns_of_object (program_view program.now) object }
{
    match program.objects.get(object as usize) {
        Some(found) => found.columns,
        None => 1,
    }
}

// Is the number of the digits at least 0 in its type?
fn not_negative(net: &Net, ty: IntType, digits: &[Bit]) -> Bit
    requires some { 0 < length digits.now }
    requires digits_in { AreIn net.now digits.now }
    ensures { Means net.now result (λ v. not
        (negative (length digits.now) (is_signed ty) (number v net.now digits.now))) }
{
    if signed(ty) {
        return not(digits[digits.len() - 1]);
    }
    net.yes()
}

/// The places of an index among `count` cells, where `here` is true.
pub fn place_index(
    alloc: Global,
    net: &mut Net,
    here: Bit,
    ty: IntType,
    index: &[Bit],
    count: usize,
) -> Result<Places, OutOfMemory>
    requires here_in { IsIn net.old here }
    requires some { 0 < length index.now }
    requires index_in { AreIn net.old index.now }
    requires room { length net.old + index_cost count (length index.now) < 2 ^ 31 }
    ensures { IfOk result (λ r. ArePlaced net.old net.new (index_cost count (length index.now)) count
        (index_where net.old here count (is_signed ty) index.now) r) }
{
    let inside = not_negative(net, ty, index);
    let there = net.and(here, inside)?;
    let places = decoded(alloc, net, there, index, count)?;
    let copy = index.to_vec(alloc)?;
    let bits = Seq::from_vec(places);
    let digits = Seq::from_vec(copy);
    Ok(Places {
        bits,
        digits,
        inner: 0,
        columns: 1,
    })
}

// The places of a row and a column among these rows and columns, where `here` is true.
fn place_among(
    alloc: Global,
    net: &mut Net,
    here: Bit,
    row_type: IntType,
    row: &[Bit],
    column_type: IntType,
    column: &[Bit],
    rows: u32,
    columns: u32,
) -> Result<Places, OutOfMemory>
    requires here_in { IsIn net.old here }
    requires some_row { 0 < length row.now }
    requires row_in { AreIn net.old row.now }
    requires some_column { 0 < length column.now }
    requires column_in { AreIn net.old column.now }
    requires some { 0 < columns }
    requires room { length net.old + crossed_cost rows columns (length row.now) (length column.now) < 2 ^ 31 }
    ensures { IfOk result (λ r. ArePlaced net.old net.new
        (crossed_cost rows columns (length row.now) (length column.now)) (rows * columns)
        (row_where net.old here rows columns (is_signed row_type) row.now (is_signed column_type) column.now) r) }
{
    let first = place_index(alloc, net, here, row_type, row, rows as usize)?;
    let last = place_index(alloc, net, here, column_type, column, columns as usize)?;
    let places = crossed(alloc, net, first.bits.as_slice(), last.bits.as_slice())?;
    let mut both = column.to_vec(alloc)?;
    both.extend_from_slice(row)?;
    let bits = Seq::from_vec(places);
    let digits = Seq::from_vec(both);
    let inner = column.len();
    Ok(Places {
        bits,
        digits,
        inner,
        columns,
    })
}

/// The places of a row and a column of an object, each within its own dimension, where `here` is true.
pub fn place_row(
    alloc: Global,
    program: &Program,
    net: &mut Net,
    object: u32,
    here: Bit,
    row_type: IntType,
    row: &[Bit],
    column_type: IntType,
    column: &[Bit],
) -> Result<Places, OutOfMemory>
    requires here_in { IsIn net.old here }
    requires some_row { 0 < length row.now }
    requires row_in { AreIn net.old row.now }
    requires some_column { 0 < length column.now }
    requires column_in { AreIn net.old column.now }
    requires room { length net.old + row_cost (objects.size_of_object (program_view program.now) object)
        (length row.now) (length column.now) < 2 ^ 31 }
    ensures few { rows_of (program_view program.now) object * objects.columns_of_object (program_view program.now)
        object ≤ objects.size_of_object (program_view program.now) object }
    ensures placed { IfOk result (λ r. ArePlaced net.old net.new
        (row_cost (objects.size_of_object (program_view program.now) object) (length row.now) (length column.now))
        (rows_of (program_view program.now) object * objects.columns_of_object (program_view program.now) object)
        (row_where net.old here (rows_of (program_view program.now) object)
        (objects.columns_of_object (program_view program.now) object) (is_signed row_type) row.now
        (is_signed column_type) column.now) r) }
{
    let cells = size_of_object(program, object);
    let columns = columns_of_object(program, object);
    // an object of a checked program has a column, and no more columns than cells
    if columns == 0 || cells < columns {
        return Err(OutOfMemory);
    }
    let rows = cells / columns;
    let places = place_among(
        alloc,
        net,
        here,
        row_type,
        row,
        column_type,
        column,
        rows,
        columns,
    )?;
    Ok(places)
}
