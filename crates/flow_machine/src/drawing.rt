// Drawn values, and the cells of declared names.
ghost use Rattle.std.specs.Prelude.{◌≡◌, ◌≤◌, ◌<◌, ◌+◌, vec_len, vec_capacity, IfOk, IsOk, OnErr, OnOk};
ghost use Rattle.c_meaning.specs.Acts.{Go};
ghost use Rattle.c_meaning.specs.Run as runs;
ghost use Rattle.c_meaning.specs.Watching.{seen_by};
ghost use Rattle.run_state.specs.Interpreting.{same};
ghost use Rattle.flow_laws.specs.Acting.{program_in, input_given, declared, cells_drawn};
ghost use Rattle.flow_machine.specs.Rooms.{GoesInRoom, IsCounted, KeepsRooms, Lasts};
ghost use Rattle.flow_machine.specs.Views.{Gives, state_of};

use crate::control::{Running, room, show};
use c_core::{IntType, Spot, convert};
use c_meaning::{Draw, DrawKind, Event, Watcher};
use flow_code::Code;
use run_state::{Halt, add_cells, count_unfixed, take_choice};
use wv_base::OutOfMemory;

/// A drawn value. An error that holds nothing lets the value stay in registers.
#[inline(always)]
pub fn draw<W: Watcher>(
    code: &Code,
    run: &mut Running,
    kind: DrawKind,
    spot: Spot,
    ty: IntType,
) -> Result<i128, OutOfMemory>
    ensures gives { (x : W.Seen) → IfOk result (λ v. runs.draw (program_in code.now) W.Seen (seen_by W.after) kind spot
        ty (state_of run.old x) ≡ Go v (state_of run.new x)) }
    ensures rooms { KeepsRooms run.old run.new }
    ensures counts { OnOk result ((vec_len run.new.draws ≡ vec_len run.old.draws + 1)
        × (run.new.unfixed ≤ run.old.unfixed + 1)) }
    ensures within { IsCounted run.old → vec_len run.old.draws < vec_capacity run.old.draws → IsOk result }
{
    let taken = take_choice(&mut run.left, kind, spot);
    let value = convert(code.model, ty, taken.unwrap_or(0));
    let Ok(unfixed) = count_unfixed(run.unfixed, taken) else {
        return Err(OutOfMemory);
    };
    run.unfixed = unfixed;
    run.draws.push(Draw {
        value,
        spot,
        ty,
        from: kind,
    })?;
    Ok(value)
}

/// The call of an input function.
#[inline(always)]
pub fn input<W: Watcher>(
    code: &Code,
    run: &mut Running,
    watcher: &mut W,
    spot: Spot,
    close: Spot,
    ty: IntType,
) -> Result<i128, OutOfMemory>
    ensures gives { IfOk result (λ v. input_given code.now W.Seen W.after spot close ty
        (state_of run.old (W.seen watcher.old)) ≡ Go v (state_of run.new (W.seen watcher.new))) }
    ensures still { OnErr result (W.seen watcher.new ≡ W.seen watcher.old) }
    ensures rooms { KeepsRooms run.old run.new }
    ensures within { W.sure → IsCounted run.old → vec_len run.old.draws < vec_capacity run.old.draws → IsOk result }
{
    let value = draw::<W>(code, run, DrawKind::Input, spot, ty)?;
    show(run, watcher, Event::Return(close, Some(value)))?;
    Ok(value)
}

/// A declared object's cells.
#[inline(never)]
pub fn declare<W: Watcher>(
    code: &Code,
    run: &mut Running,
    spot: Spot,
    object: u32,
    size: u32,
    ty: IntType,
    draws: bool,
) -> Result<(), Halt>
    ensures gives { (x : W.Seen) → Gives same result (state_of run.new x)
        (declared code.now W.Seen W.after spot object size ty draws (state_of run.old x)) }
    ensures rooms { KeepsRooms run.old run.new }
    ensures lasting { (x : W.Seen) → IsCounted run.old
        → GoesInRoom run.old (declared code.now W.Seen W.after spot object size ty draws (state_of run.old x))
        → Lasts result }
{
    room::<W>(run, size as u128)?;
    add_cells(&mut run.memory, object, size)?;
    if draws {
        draw_cells::<W>(code, run, spot, object, size, ty)?;
    }
    Ok(())
}

// The cells of an object draw their values, one after another.
fn draw_cells<W: Watcher>(
    code: &Code,
    run: &mut Running,
    spot: Spot,
    object: u32,
    size: u32,
    ty: IntType,
) -> Result<(), Halt>
    ensures gives { (x : W.Seen) → Gives same result (state_of run.new x)
        (cells_drawn code.now W.Seen W.after spot object ty 0 size (state_of run.old x)) }
    ensures rooms { KeepsRooms run.old run.new }
    ensures lasting { IsCounted run.old → vec_len run.old.draws + size ≤ vec_capacity run.old.draws → Lasts result }
{
    for index in 0..size {
        let value = draw::<W>(code, run, DrawKind::Cell, spot, ty)?;
        run.memory.set(object, index, value);
    }
    Ok(())
}
