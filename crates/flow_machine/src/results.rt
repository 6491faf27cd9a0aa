// What is done with a value.
ghost use Rattle.std.specs.Prelude.{◌≡◌, ◌≤◌, not, reverse};
ghost use Rattle.c_core.specs.Types.{fit, is_zero};
ghost use Rattle.c_core.specs.declared.number.DataModel.TheVariants.{Lp64};
ghost use Rattle.c_meaning.specs.Cells.{put};
ghost use Rattle.flow_code.specs.declared.code.Code.{Code};
ghost use Rattle.flow_laws.specs.Acting.{top, below, index_of, skipped, kept_value, stack_at, key_at, passed_on, finished};
ghost use Rattle.flow_machine.specs.Fronts.{OnBroken};
ghost use Rattle.flow_machine.specs.Rooms.{HasSpare, KeepsRooms, KeepsStacks, Lasts};
ghost use Rattle.flow_machine.specs.Views.{Acts, control_of, state_of};

use crate::arithmetic::convert;
use crate::control::{Control, Running, tell};
use c_meaning::{Event, Memory, Watcher, Way};
use flow_code::{Into, Place, Store, Then};
use run_state::Halt;

// The index of an element that is written: the number on top of the stack.
fn element(control: &mut Control) -> u32
    ensures value { result ≡ index_of (top (reverse control.old.stack.items)) }
    ensures control { control_of control.new ≡ record (control_of control.old)
        { stack = below (reverse control.old.stack.items) } }
    ensures kept { KeepsStacks control.old control.new }
    ensures spare { HasSpare control.old → HasSpare control.new }
{
    let top = control.pop();
    if top >= 0 && top < 4294967296 {
        top as u32
    } else {
        0
    }
}

// Stores a value.
#[inline(always)]
fn store(control: &mut Control, memory: &mut Memory, left: i128, value: i128, store: &Store) -> i128
    ensures value { result ≡ kept_value store.now left (fit Lp64 store.now.ty value) }
    ensures control { control_of control.new ≡ record (control_of control.old)
        { stack = stack_at store.now.place (reverse control.old.stack.items) } }
    ensures kept { KeepsStacks control.old control.new }
    ensures spare { HasSpare control.old → HasSpare control.new }
    ensures room { memory.old.room ≤ memory.new.room }
    ensures cells { memory.new.cells ≡ put (key_at store.now.place (reverse control.old.stack.items))
        (fit Lp64 store.now.ty value) memory.old.cells }
{
    let new = convert(store.ty, value);
    match &store.place {
        Place::Fixed(object, index) => memory.set(*object, *index, new),
        Place::Element(object) => {
            let index = element(control);
            memory.set(*object, index, new);
        }
    }
    if store.old { left } else { new }
}

// Goes on at an address where a value's truth is `way`.
#[inline(always)]
fn skip(control: &mut Control, value: i128, way: bool, to: u32)
    ensures control { control_of control.new ≡ skipped (not (is_zero value)) way to (control_of control.old) }
    ensures kept { KeepsStacks control.old control.new }
{
    if (value != 0) == way {
        control.at = to as usize;
    }
}

// A value goes on.
#[inline(always)]
fn pass<W: Watcher>(
    control: &mut Control,
    run: &Running,
    watcher: &mut W,
    value: i128,
    then: &Then,
) -> Result<(), Halt>
    ensures acts { (c : Code) → Acts result (control_of control.new) (state_of run.now (W.seen watcher.new))
        (passed_on c W.Seen W.after value then.now (control_of control.old) (state_of run.now (W.seen watcher.old))) }
    ensures still { OnBroken result (W.seen watcher.new ≡ W.seen watcher.old) }
    ensures kept { KeepsStacks control.old control.new }
    ensures lasting { W.sure → HasSpare control.old → Lasts result }
{
    match then {
        Then::Drop => Ok(()),
        Then::Push => control.push(value),
        Then::Skip { way, to } => {
            skip(control, value, *way, *to);
            Ok(())
        }
        Then::Branch { at, way, to } => {
            tell(run, watcher, Event::Branch(*at, Way::Truth(value != 0)))?;
            skip(control, value, *way, *to);
            Ok(())
        }
    }
}

/// A value goes where it is said; `left` is the value of the left operand.
#[inline(always)]
pub fn finish<W: Watcher>(
    control: &mut Control,
    run: &mut Running,
    watcher: &mut W,
    left: i128,
    value: i128,
    into: &Into,
) -> Result<(), Halt>
    ensures acts { (c : Code) → Acts result (control_of control.new) (state_of run.new (W.seen watcher.new))
        (finished c W.Seen W.after left value into.now (control_of control.old)
        (state_of run.old (W.seen watcher.old))) }
    ensures still { OnBroken result (W.seen watcher.new ≡ W.seen watcher.old) }
    ensures kept { KeepsStacks control.old control.new }
    ensures rooms { KeepsRooms run.old run.new }
    ensures lasting { W.sure → HasSpare control.old → Lasts result }
{
    let value = match &into.store {
        None => value,
        Some(found) => store(control, &mut run.memory, left, value, found),
    };
    pass(control, run, watcher, value, &into.then)
}
