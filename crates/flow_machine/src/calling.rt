// Calls of the program's functions, and the way back.
ghost use Rattle.std.specs.Prelude.{◌≡◌, ◌≤◌, ◌<◌, ◌+◌, [], ◌∷◌, Some, drop, length, reverse, slice_get, vec_len, vec_capacity, IsOkUnless, OnOk};
ghost use Rattle.run_state.specs.Fronts.{SawFront};
ghost use Rattle.flow_code.specs.declared.code.Code.{Code};
ghost use Rattle.flow_laws.specs.Acting.{called, left_by, arguments, with_parameters};
ghost use Rattle.flow_machine.specs.Fronts.{OnBroken, events_leaving};
ghost use Rattle.flow_machine.specs.Rooms.{GoesInRoom, HasSpare, KeepsRooms, KeepsStacks, Lasts};
ghost use Rattle.flow_machine.specs.Views.{Acts, argument_of, control_of, state_of};

use crate::arithmetic::convert;
use crate::control::{Control, Running, room, tell};
use c_core::IntType;
use c_meaning::{End, Event, Memory, Watcher};
use flow_code::{Body, Code, Parameter};
use flow_laws::Frame;
use run_state::{CallSite, Halt};

// The value of a parameter of a type: that of the argument at an index, or 0 where there is none.
fn argument(ty: IntType, values: &[i128], index: usize) -> i128
    ensures { result ≡ argument_of ty (slice_get values.now index) }
{
    match values.get(index) {
        Some(value) => convert(ty, *value),
        None => 0,
    }
}

// Each parameter has a cell, which gets the value of its argument, or 0 where there is none.
fn set_parameters(
    memory: &mut Memory,
    parameters: &[Parameter],
    values: &[i128],
) -> Result<(), Halt>
    ensures cells { OnOk result (memory.new.cells ≡ with_parameters parameters.now values.now memory.old.cells) }
    ensures refused { IsOkUnless result Halt.NoMemory }
    ensures room { memory.old.room ≤ memory.new.room }
    ensures lasting { length memory.old.cells + length parameters.now ≤ memory.old.room → Lasts result }
{
    for (index, parameter) in parameters.iter().enumerate() {
        memory.add(parameter.object, 0, argument(parameter.ty, values, index))?;
    }
    Ok(())
}

// The values on top of the stack go to parameters.
fn take_arguments(
    control: &mut Control,
    memory: &mut Memory,
    parameters: &[Parameter],
    count: u32,
) -> Result<(), Halt>
    ensures control { OnOk result (control_of control.new ≡ record (control_of control.old)
        { stack = drop count (reverse control.old.stack.items) }) }
    ensures cells { OnOk result (memory.new.cells ≡ with_parameters parameters.now
        (arguments count (reverse control.old.stack.items)) memory.old.cells) }
    ensures refused { IsOkUnless result Halt.NoMemory }
    ensures kept { KeepsStacks control.old control.new }
    ensures room { memory.old.room ≤ memory.new.room }
    ensures lasting { length memory.old.cells + length parameters.now ≤ memory.old.room → Lasts result }
{
    let below = control.stack.len().saturating_sub(count as usize);
    set_parameters(memory, parameters, &control.stack.as_slice()[below..])?;
    control.stack.truncate(below);
    Ok(())
}

// Notes where a call goes on.
fn push_frame(control: &mut Control, frame: Frame) -> Result<(), Halt>
    ensures control { OnOk result (control_of control.new ≡ record (control_of control.old)
        { frames = frame ∷ reverse control.old.frames.items }) }
    ensures refused { IsOkUnless result Halt.NoMemory }
    ensures kept { KeepsStacks control.old control.new }
    ensures lasting { vec_len control.old.frames < vec_capacity control.old.frames → Lasts result }
{
    match control.frames.push(frame) {
        Ok(()) => Ok(()),
        Err(_) => Err(Halt::NoMemory),
    }
}

// A function begins, where there is room for its parameters.
fn enter<W: Watcher>(
    control: &mut Control,
    run: &mut Running,
    body: &Body,
    arguments: u32,
    site: CallSite,
) -> Result<(), Halt>
    ensures acts { (c : Code) (x : W.Seen) → Acts result (control_of control.new) (state_of run.new x)
        (called c W.Seen W.after (Some body.now) arguments site (control_of control.old) (state_of run.old x)) }
    ensures kept { KeepsStacks control.old control.new }
    ensures rooms { KeepsRooms run.old run.new }
    ensures lasting { (c : Code) (x : W.Seen) → HasSpare control.old
        → GoesInRoom run.old (called c W.Seen W.after (Some body.now) arguments site (control_of control.old)
        (state_of run.old x)) → Lasts result }
{
    let cells = body.parameters.len() as u128 + 1;
    room::<W>(run, cells)?;
    run.active += 1;
    let frame = Frame {
        back: control.at,
        cells: run.memory.count(),
        site,
    };
    push_frame(control, frame)?;
    take_arguments(
        control,
        &mut run.memory,
        body.parameters.as_slice(),
        arguments,
    )?;
    control.at = body.entry as usize;
    Ok(())
}

/// A function is called.
pub fn call<W: Watcher>(
    code: &Code,
    control: &mut Control,
    run: &mut Running,
    function: u32,
    arguments: u32,
    site: CallSite,
) -> Result<(), Halt>
    ensures acts { (x : W.Seen) → Acts result (control_of control.new) (state_of run.new x)
        (called code.now W.Seen W.after (slice_get code.now.functions function) arguments site (control_of control.old)
        (state_of run.old x)) }
    ensures kept { KeepsStacks control.old control.new }
    ensures rooms { KeepsRooms run.old run.new }
    ensures lasting { (x : W.Seen) → HasSpare control.old
        → GoesInRoom run.old (called code.now W.Seen W.after (slice_get code.now.functions function) arguments site
        (control_of control.old) (state_of run.old x)) → Lasts result }
{
    match code.functions.get(function as usize) {
        Some(body) => enter::<W>(control, run, body, arguments, site),
        // no code calls it
        None => Err(Halt::Ends(End::Ended)),
    }
}

/// The innermost function is left, with a value or without one.
pub fn leave<W: Watcher>(
    control: &mut Control,
    run: &mut Running,
    watcher: &mut W,
    value: Option<i128>,
) -> Result<(), Halt>
    ensures acts { (c : Code) → Acts result (control_of control.new) (state_of run.new (W.seen watcher.new))
        (left_by c W.Seen W.after (reverse control.old.frames.items) value (control_of control.old)
        (state_of run.old (W.seen watcher.old))) }
    ensures front { (c : Code) → OnBroken result
        (SawFront W.after (events_leaving c (reverse control.old.frames.items) value (control_of control.old)
        (state_of run.old [])) (W.seen watcher.old) (W.seen watcher.new)) }
    ensures kept { KeepsStacks control.old control.new }
    ensures rooms { KeepsRooms run.old run.new }
    ensures lasting { W.sure → HasSpare control.old → Lasts result }
{
    let Some(frame) = control.frames.pop() else {
        return Err(Halt::Ends(End::Ended));
    };
    run.memory.cut(frame.cells);
    run.active = run.active.saturating_sub(1);
    tell(run, watcher, Event::Return(frame.site.close, value))?;
    control.at = frame.back;
    match value {
        Some(value) => control.push(value),
        None => {
            if frame.site.needed {
                return Err(Halt::Ends(End::Undefined(frame.site.spot)));
            }
            control.push(0)
        }
    }
}
