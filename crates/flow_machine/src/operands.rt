// Operands of operations.
ghost use Rattle.std.specs.Prelude.{◌≡◌, reverse};
ghost use Rattle.c_meaning.specs.Cells.{read};
ghost use Rattle.flow_laws.specs.Acting.{value_of, stack_of};
ghost use Rattle.c_meaning.specs.Run.{index_below as index_of_array, in_row as cell_in_row};
ghost use Rattle.flow_machine.specs.Rooms.{HasSpare, KeepsStacks};
ghost use Rattle.flow_machine.specs.Views.{control_of};

use crate::control::{Control, Running};
use flow_code::Operand;

/// The value of a cell.
#[inline(always)]
pub fn look(run: &Running, object: u32, index: u32) -> i128
    ensures { result ≡ read (record { object = object; index = index }) run.now.memory.cells }
{
    match run.memory.cell(object, index) {
        Some(value) => value,
        None => 0,
    }
}

/// An operand's value, taken from the stack where it is there.
#[inline(always)]
pub fn take(control: &mut Control, run: &Running, operand: &Operand) -> i128
    ensures value { result ≡ value_of operand.now (reverse control.old.stack.items) run.now.memory.cells }
    ensures control { control_of control.new ≡ record (control_of control.old)
        { stack = stack_of operand.now (reverse control.old.stack.items) } }
    ensures kept { KeepsStacks control.old control.new }
    ensures spare { HasSpare control.old → HasSpare control.new }
{
    match operand {
        Operand::Top => control.pop(),
        Operand::Cell(object) => look(run, *object, 0),
        Operand::Number(value) => *value,
    }
}

/// An index of an array of so many elements, if it is one.
#[inline(always)]
pub fn index_below(size: u32, index: i128) -> Option<u32>
    ensures { result ≡ index_of_array size index }
{
    if index >= 0 && index < i128::from(size) {
        Some(index as u32)
    } else {
        None
    }
}

/// The cell of a row and a column, where an array with these numbers of rows and columns has both.
#[tactic(auto, using(crate::proofs::Fitting::cell_fits))]
pub fn in_row(rows: u32, columns: u32, row: i128, column: i128) -> Option<u64>
    ensures { result ≡ cell_in_row columns (index_of_array rows row) (index_of_array columns column) }
{
    let row = index_below(rows, row)?;
    let column = index_below(columns, column)?;
    Some(u64::from(row) * u64::from(columns) + u64::from(column))
}
