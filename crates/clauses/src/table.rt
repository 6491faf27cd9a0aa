// The clause that a chain has come to, as a table: the cell of a variable holds its number in the clause, or 0.
ghost use Rattle.std.specs.Prelude.{◌≡◌, ◌+◌, ◌<◌, ◌++◌, ◌↔◌, ℕ, ℤ, pos, neg_ℤ, length, map, replicate, slice_set, unsigned_abs, IfOk, OnOk, IsTrue};
ghost use Rattle.std.specs.List.{All, Contains};
ghost use Rattle.clauses.specs.Clause.{IsNumber};
ghost use Rattle.clauses.specs.Table.{Fits, AreApart, AreHeld, AreBlank, written, erased};

use std::alloc::Global;
use wv_base::OutOfMemory;

/// A table of so many cells that holds nothing.
pub fn blank(alloc: Global, many: usize) -> Result<Vec<i32>, OutOfMemory>
    ensures { IfOk result (λ r. r.items ≡ replicate many (pos 0)) }
{
    let mut out = Vec::new(alloc);
    for i in 0..many {
        out.push(0)?;
    }
    Ok(out)
}

/// Whether a clause holds the opposite of a number.
pub fn holds_opposite(clause: &[i32], number: i32) -> bool
    requires { All IsNumber clause.now }
    ensures { IsTrue result ↔ Contains clause.now (neg_ℤ number) }
{
    for y in clause {
        if -*y == number {
            return true;
        }
    }
    false
}

/// Whether the table holds the opposite of no number of a clause.
pub fn are_apart(cells: &[i32], clause: &[i32]) -> bool
    requires numbers { All IsNumber clause.now }
    requires within { All (Fits cells.now) clause.now }
    ensures { IsTrue result ↔ AreApart cells.now clause.now }
{
    for y in clause {
        if cells[y.unsigned_abs() as usize] == -*y {
            return false;
        }
    }
    true
}

/// Adds the numbers of a clause, and their variables to those that were touched.
pub fn add(cells: &mut [i32], touched: &mut Vec<u32>, clause: &[i32]) -> Result<(), OutOfMemory>
    requires { All (Fits cells.old) clause.now }
    ensures cells { OnOk result (cells.new ≡ written cells.old clause.now) }
    ensures touched { OnOk result (touched.new.items ≡ touched.old.items ++ map unsigned_abs clause.now) }
{
    for y in clause {
        let variable = y.unsigned_abs();
        cells[variable as usize] = *y;
        touched.push(variable)?;
    }
    Ok(())
}

/// Whether the table holds all numbers of a clause.
pub fn holds_all(cells: &[i32], clause: &[i32]) -> bool
    ensures { IsTrue result ↔ AreHeld cells.now clause.now }
{
    for y in clause {
        let variable = y.unsigned_abs() as usize;
        if variable >= cells.len() || cells[variable] != *y {
            return false;
        }
    }
    true
}

/// Takes the numbers of a clause out.
pub fn erase(cells: &mut [i32], clause: &[i32])
    requires { All (Fits cells.old) clause.now }
    ensures { cells.new ≡ erased cells.old clause.now }
{
    for y in clause {
        cells[y.unsigned_abs() as usize] = 0;
    }
}

/// Whether the cells of variables are all 0.
pub fn are_blank(cells: &[i32], variables: &[u32]) -> bool
    ensures { IsTrue result ↔ AreBlank cells.now variables.now }
{
    for variable in variables {
        if let Some(number) = cells.get(*variable as usize) {
            if *number != 0 {
                return false;
            }
        }
    }
    true
}
