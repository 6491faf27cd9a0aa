// Marks of numbers: for each number below n a bit that tells whether it is the number.
ghost use Rattle.std.specs.Prelude.{◌+◌, ◌*◌, ◌<◌, ◌^◌, IfOk, cond, length};
ghost use Rattle.circuits.specs.Net.{holds, IsIn};
ghost use Rattle.circuits.specs.Numbers.{AreIn};
ghost use Rattle.sym_elements.specs.Marks.{AreMarks, IsDecoded, AreDoubled, AreCrossed, IsNone};

use circuits::{Bit, Net, not};
use std::alloc::Global;
use wv_base::OutOfMemory;

// Marks of the number 0, where the bit is true.
fn zero_marks(alloc: Global, net: &Net, here: Bit, n: usize) -> Result<Vec<Bit>, OutOfMemory>
    requires here_in { IsIn net.now here }
    ensures { IfOk result (λ r. AreMarks net.now r.items n (λ v. cond (holds v net.now here) 1 0)) }
{
    let never = not(net.yes());
    let mut out = Vec::new(alloc);
    if n == 0 {
        return Ok(out);
    }
    out.push(here)?;
    for i in 1..n {
        out.push(never)?;
    }
    Ok(out)
}

// Of marks of a number those of twice the number and a digit.
fn doubled(alloc: Global, net: &mut Net, marks: &[Bit], digit: Bit) -> Result<Vec<Bit>, OutOfMemory>
    requires marks_in { AreIn net.old marks.now }
    requires digit_in { IsIn net.old digit }
    requires room { length net.old + 2 * length marks.now < 2 ^ 31 }
    ensures { IfOk result (λ r. AreDoubled net.old net.new marks.now digit r.items) }
{
    let mut out = Vec::new(alloc);
    for i in 0..marks.len() {
        let mark = marks[i];
        let even = net.and(mark, not(digit))?;
        let odd = net.and(mark, digit)?;
        out.push(even)?;
        out.push(odd)?;
    }
    Ok(out)
}

/// For each number below n a bit: is it the number of the digits, and is `here` true?
pub fn decoded(
    alloc: Global,
    net: &mut Net,
    here: Bit,
    digits: &[Bit],
    n: usize,
) -> Result<Vec<Bit>, OutOfMemory>
    requires here_in { IsIn net.old here }
    requires digits_in { AreIn net.old digits.now }
    requires room { length net.old + 2 * (n + length digits.now) < 2 ^ 31 }
    ensures { IfOk result (λ r. IsDecoded net.old net.new here digits.now n r.items) }
{
    if digits.is_empty() {
        let out = zero_marks(alloc, net, here, n)?;
        return Ok(out);
    }
    let half = n - n / 2;
    let above = decoded(alloc, net, here, &digits[1..], half)?;
    let mut out = doubled(alloc, net, &above, digits[0])?;
    out.truncate(n);
    Ok(out)
}

/// For each cell of rows and columns, row by row, a bit: are its row's and its column's true?
pub fn crossed(
    alloc: Global,
    net: &mut Net,
    rows: &[Bit],
    columns: &[Bit],
) -> Result<Vec<Bit>, OutOfMemory>
    requires rows_in { AreIn net.old rows.now }
    requires columns_in { AreIn net.old columns.now }
    requires some { 0 < length columns.now }
    requires room { length net.old + length rows.now * length columns.now < 2 ^ 31 }
    ensures { IfOk result (λ r. AreCrossed net.old net.new rows.now columns.now (length rows.now * length columns.now)
        r.items) }
{
    let mut out = Vec::new(alloc);
    let width = columns.len();
    for i in 0..rows.len() * width {
        let place = net.and(rows[i / width], columns[i % width])?;
        out.push(place)?;
    }
    Ok(out)
}

/// Is none of the bits true?
pub fn none_of(net: &mut Net, bits: &[Bit]) -> Result<Bit, OutOfMemory>
    requires bits_in { AreIn net.old bits.now }
    requires room { length net.old + length bits.now < 2 ^ 31 }
    ensures { IfOk result (λ r. IsNone net.old net.new bits.now r) }
{
    let mut none = net.yes();
    for i in 0..bits.len() {
        none = net.and(none, not(bits[i]))?;
    }
    Ok(none)
}
