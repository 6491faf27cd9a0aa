// Runs of programs.
ghost use Rattle.std.specs.Prelude.{◌≡◌, IfOk, OnErr};
ghost use Rattle.c_core.specs.View.{program_view};
ghost use Rattle.c_meaning.specs.Run as runs;
ghost use Rattle.c_meaning.specs.Watching.{seen_after};
ghost use Rattle.run_state.specs.Fronts.{SawFront};

use crate::compiled::compile;
use crate::machine::Machine;
use c_core::Program;
use c_meaning::{Choices, Run, Watcher};
use std::alloc::Global;
use wv_base::OutOfMemory;

/// Runs a program as code with choices and at most so many steps; the watcher sees each event, with the memory of that
/// moment. Where memory runs out, it has seen the first of them, each once.
pub fn run_machine<W: Watcher>(
    alloc: Global,
    program: &Program,
    choices: &Choices,
    steps: u64,
    watcher: &mut W,
) -> Result<Run, OutOfMemory>
    ensures run { IfOk result (λ r. r ≡ runs.Run (program_view program.now) choices.now steps) }
    ensures seen { IfOk result (λ r. W.seen watcher.new ≡ seen_after W.after (W.seen watcher.old)
        (runs.Moments (program_view program.now) choices.now steps)) }
    ensures front { OnErr result (SawFront W.after (runs.Moments (program_view program.now) choices.now steps)
        (W.seen watcher.old) (W.seen watcher.new)) }
{
    let code = compile(alloc, program)?;
    let mut machine = Machine::new(alloc, &code, choices)?;
    machine.advance(steps, watcher)?;
    Ok(machine.finish())
}
