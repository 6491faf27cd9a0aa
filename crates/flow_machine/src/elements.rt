// Elements of arrays: the index is tested before the cell is read, or left on the stack.
ghost use Rattle.std.specs.Prelude.{◌≡◌};
ghost use Rattle.flow_code.specs.declared.code.Action.TheVariants.{Look, Row};
ghost use Rattle.flow_code.specs.declared.code.Code.{Code};
ghost use Rattle.flow_laws.specs.Acting.{acted, aimed_at};
ghost use Rattle.flow_machine.specs.Fronts.{OnBroken};
ghost use Rattle.flow_machine.specs.Rooms.{HasSpare, KeepsRooms, KeepsStacks, Lasts};
ghost use Rattle.flow_machine.specs.Views.{Acts, control_of, state_of};

use crate::control::{Control, Running};
use crate::operands::{in_row, index_below, look, take};
use crate::results::finish;
use c_core::Spot;
use c_meaning::{End, Watcher};
use flow_code::{Into, Operand};
use run_state::Halt;

/// The element at an index goes where it is said.
#[inline(always)]
pub fn look_up<W: Watcher>(
    control: &mut Control,
    run: &mut Running,
    watcher: &mut W,
    object: u32,
    size: u32,
    index: &Operand,
    spot: Spot,
    into: &Into,
) -> Result<(), Halt>
    ensures acts { (c : Code) → Acts result (control_of control.new) (state_of run.new (W.seen watcher.new))
        (acted c W.Seen W.after (Look object size index.now spot into.now) (control_of control.old)
        (state_of run.old (W.seen watcher.old))) }
    ensures still { OnBroken result (W.seen watcher.new ≡ W.seen watcher.old) }
    ensures kept { KeepsStacks control.old control.new }
    ensures rooms { KeepsRooms run.old run.new }
    ensures lasting { W.sure → HasSpare control.old → Lasts result }
{
    let Some(index) = index_below(size, take(control, run, index)) else {
        return Err(Halt::Ends(End::Undefined(spot)));
    };
    let value = look(run, object, index);
    finish(control, run, watcher, value, value, into)
}

/// The index of an element, and its value where it is read.
pub fn aim<W: Watcher>(
    control: &mut Control,
    run: &Running,
    object: u32,
    size: u32,
    index: &Operand,
    spot: Spot,
    reads: bool,
) -> Result<(), Halt>
    ensures acts { (c : Code) (x : W.Seen) → Acts result (control_of control.new) (state_of run.now x)
        (aimed_at c W.Seen W.after object size index.now spot reads (control_of control.old) (state_of run.now x)) }
    ensures kept { KeepsStacks control.old control.new }
    ensures lasting { HasSpare control.old → Lasts result }
{
    let index = take(control, run, index);
    let Some(found) = index_below(size, index) else {
        return Err(Halt::Ends(End::Undefined(spot)));
    };
    control.push(i128::from(found))?;
    if reads {
        control.push(look(run, object, found))?;
    }
    Ok(())
}

/// The cell of a row and a column, apart from what is done often.
#[inline(never)]
pub fn find_in_row<W: Watcher>(
    control: &mut Control,
    run: &Running,
    rows: u32,
    columns: u32,
    left: &Operand,
    right: &Operand,
    spot: Spot,
) -> Result<(), Halt>
    ensures acts { (c : Code) (x : W.Seen) → Acts result (control_of control.new) (state_of run.now x)
        (acted c W.Seen W.after (Row rows columns left.now right.now spot) (control_of control.old)
        (state_of run.now x)) }
    ensures kept { KeepsStacks control.old control.new }
    ensures lasting { HasSpare control.old → Lasts result }
{
    let column = take(control, run, right);
    let row = take(control, run, left);
    let Some(found) = in_row(rows, columns, row, column) else {
        return Err(Halt::Ends(End::Undefined(spot)));
    };
    control.push(i128::from(found))
}
