// A run by the interpreter, and by a machine.
ghost use Rattle.std.specs.Prelude.{◌≡◌};

use crate::events::Events;
use c_core::Program;
use c_interpreter::run_plain;
use c_meaning::{Choices, Run};
use flow_machine::{Code, Machine};
use std::alloc::Global;
use wv_base::{OutOfMemory, Seq};

// The cells and draws that room is made for.
const ROOM: u32 = 1000;

/// A run, with what was seen of it.
#[derive(Drop)]
pub struct Watched {
    pub run: Run,
    pub events: Events,
}

impl Watched {
    /// Whether two runs are the same, and looked the same.
    pub fn is(&self, other: &Watched) -> bool {
        self.run.end == other.run.end
            && self.run.steps == other.run.steps
            && self.run.unfixed == other.run.unfixed
            && self.run.draws.as_slice() == other.run.draws.as_slice()
            && self.events.seen.as_slice() == other.events.seen.as_slice()
    }
}

/// Values that the draws take in turn.
pub fn choices(alloc: Global) -> Result<Choices, OutOfMemory> {
    let mut values = Seq::new(alloc);
    for value in [5, -3, 2147483647, 70000, 1, 0, 0, 2, -2147483648] {
        values.push(value)?;
    }
    Ok(Choices::InTurn(values))
}

/// By the interpreter.
pub fn plain(
    alloc: Global,
    program: &Program,
    choices: &Choices,
    budget: u64,
) -> Result<Watched, OutOfMemory> {
    let mut events = Events {
        seen: Vec::new(alloc),
    };
    let run = run_plain(alloc, program, choices, budget, &mut events)?;
    Ok(Watched { run, events })
}

/// By a machine that gets the budget in parts of this size, the rest of it last; where they are larger than a step,
/// behind `reserve`.
pub fn stepped(
    alloc: Global,
    code: &Code,
    choices: &Choices,
    part: u64,
    budget: u32,
) -> Result<Watched, OutOfMemory> {
    let mut events = Events {
        seen: Vec::new(alloc),
    };
    let mut machine = Machine::new(alloc, code, choices)?;
    if part > 1 {
        machine.reserve(ROOM, ROOM)?;
    }
    advance_by(&mut machine, part, budget, &mut events)?;
    Ok(Watched {
        run: machine.finish(),
        events,
    })
}

// Hands the machine a budget in parts of this size, and then what is left of it.
fn advance_by(
    machine: &mut Machine<'_>,
    part: u64,
    budget: u32,
    events: &mut Events,
) -> Result<(), OutOfMemory>
    requires { machine.old.sum ≡ 0 }
{
    let mut left = u64::from(budget);
    for _part in 0..budget {
        let now = left.min(part);
        machine.advance(now, events)?;
        left -= now;
    }
    machine.advance(left, events)?;
    Ok(())
}
