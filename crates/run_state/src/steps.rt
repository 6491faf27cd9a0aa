// Steps, room and events.
ghost use Rattle.std.specs.Prelude.{◌≡◌, ◌≤◌, suc, OnOk, OnErr, IfOk, IsOkUnless};
ghost use Rattle.c_core.specs.Tree.{Program as Tree};
ghost use Rattle.c_core.specs.View.{program_view};
ghost use Rattle.run_state.specs.Interpreting.{Gives, same, state_of, where_of, ticked, roomed, violating, arrived, branching};

use crate::machine::{Around, Halt, Machine};
use c_core::{Program, Spot};
use c_meaning::{End, Event, Watcher, Way};

/// Takes a step.
pub fn tick<W: Watcher>(machine: &mut Machine) -> Result<(), Halt>
    ensures gives { (p : Tree) (x : W.Seen)
        → Gives same result (state_of machine.new x) (ticked p W.Seen W.after (state_of machine.old x)) }
    ensures spends { machine.new.steps ≤ machine.old.steps }
    ensures takes { OnOk result (suc machine.new.steps ≡ machine.old.steps) }
{
    if machine.steps == 0 {
        return Err(Halt::Ends(End::Spent));
    }
    machine.steps -= 1;
    Ok(())
}

/// Tells the watcher an event.
pub fn tell<W: Watcher>(machine: &Machine, watcher: &mut W, event: Event) -> Result<(), Halt>
    ensures seen { OnOk result (W.seen watcher.new ≡ W.after event machine.now.memory.cells (W.seen watcher.old)) }
    ensures refused { IsOkUnless result Halt.NoMemory }
    ensures unseen { OnErr result (W.seen watcher.new ≡ W.seen watcher.old) }
{
    watcher.see(event, &machine.memory)?;
    Ok(())
}

/// Room for this many cells more.
pub fn room<W: Watcher>(machine: &Machine, cells: u64) -> Result<(), Halt>
    ensures gives { (p : Tree) (x : W.Seen)
        → Gives same result (state_of machine.now x) (roomed p W.Seen W.after cells (state_of machine.now x)) }
{
    let live = machine.memory.count() as u128 + machine.active as u128 + cells as u128;
    if live <= 1_000_000 {
        Ok(())
    } else {
        Err(Halt::Ends(End::Deep))
    }
}

/// Ends the run with a violation at an expression, and reports it.
pub fn violate<W: Watcher>(
    machine: &Machine,
    watcher: &mut W,
    at: Around,
    spot: Spot,
    call: Option<Spot>,
) -> Result<i128, Halt>
    ensures gives { (p : Tree) → Gives same result (state_of machine.now (W.seen watcher.new))
        (violating p W.Seen W.after (where_of at) spot call (state_of machine.now (W.seen watcher.old))) }
{
    tell(
        machine,
        watcher,
        Event::Fail {
            statement: at.statement,
            full: at.full,
            call,
        },
    )?;
    Err(Halt::Ends(End::Violated(spot)))
}

/// Tells that a statement is about to be done.
pub fn arrive<W: Watcher>(
    program: &Program,
    machine: &Machine,
    watcher: &mut W,
    spot: Spot,
) -> Result<(), Halt>
    ensures gives { Gives same result (state_of machine.now (W.seen watcher.new))
        (arrived (program_view program.now) W.Seen W.after spot (state_of machine.now (W.seen watcher.old))) }
{
    tell(machine, watcher, Event::At(spot))
}

/// Whether a value isn't 0, reported as a branching.
pub fn branch<W: Watcher>(
    program: &Program,
    machine: &Machine,
    watcher: &mut W,
    spot: Spot,
    value: i128,
) -> Result<bool, Halt>
    ensures gives { Gives same result (state_of machine.now (W.seen watcher.new))
        (branching (program_view program.now) W.Seen W.after spot value (state_of machine.now (W.seen watcher.old))) }
{
    let taken = value != 0;
    tell(machine, watcher, Event::Branch(spot, Way::Truth(taken)))?;
    Ok(taken)
}

/// One more, where a u64 counts so far.
pub fn one_more(count: u64) -> Result<u64, Halt>
    ensures more { IfOk result (λ n. n ≡ suc count) }
    ensures refused { IsOkUnless result Halt.NoMemory }
{
    match count.checked_add(1) {
        Some(more) => Ok(more),
        None => Err(Halt::NoMemory),
    }
}
