// Runs of programs.
ghost use Rattle.std.specs.Prelude.{◌≡◌, ◌≤◌, suc, length, None, IfOk, OnErr, Err};
ghost use Rattle.std.specs.List.{All};
ghost use Rattle.c_core.specs.View.{program_view};
ghost use Rattle.c_calls.specs.Calling.{IsFirstRecursion};
ghost use Rattle.c_frames.specs.Frames.{IsFramed};
ghost use Rattle.c_meaning.specs.Run as runs;
ghost use Rattle.c_meaning.specs.Watching.{seen_after};
ghost use Rattle.c_room.specs.Room.{most_functions};
ghost use Rattle.run_state.specs.Fronts.{SawFront};
ghost use Rattle.run_state.specs.declared.machine.Halt.TheVariants.{NoMemory};
ghost use Rattle.run_state.specs.Interpreting.{Gives, EndsAs, state_of, flow_of, in_main};

use crate::calls::body;
use c_core::Program;
use c_frames::heads_are_framed;
use c_meaning::{Choices, End, Run, Watcher};
use c_room::runs_have_room;
use run_state::{Flow, Halt, Machine, start};
use std::alloc::Global;
use wv_base::OutOfMemory;

/// Runs a program with choices and at most this many steps; the watcher sees each event, with the memory of then.
/// Where memory ran out, it has seen the first of them, and none twice.
///
/// Of its run hold the laws on every run: a loop leaves the cells as they were on arrival but for what it changes, and
/// without recursion there is room.
///
/// Example: `plain` in `crates/flow_tests/src/runs.rt`.
pub fn run_plain<W: Watcher>(
    alloc: Global,
    program: &Program,
    choices: &Choices,
    steps: u64,
    watcher: &mut W,
) -> Result<Run, OutOfMemory>
    ensures run { IfOk result (λ r. r ≡ runs.Run (program_view program.now) choices.now steps) }
    ensures seen { IfOk result (λ r. W.seen watcher.new
        ≡ seen_after W.after (W.seen watcher.old) (runs.Moments (program_view program.now) choices.now steps)) }
    ensures front { OnErr result (SawFront W.after (runs.Moments (program_view program.now) choices.now steps)
        (W.seen watcher.old) (W.seen watcher.new)) }
    ensures framed { All (IsFramed (program_view program.now))
        (runs.Moments (program_view program.now) choices.now steps) }
    ensures room { IfOk result (λ r. let p = program_view program.now in IsFirstRecursion p None
        → length p.functions ≤ most_functions → r.end ≡ End.Deep → ⊥) }
{
    heads_are_framed();
    runs_have_room();
    let mut machine = start(alloc, program, choices, steps)?;
    let end = end_of(run_main(program, &mut machine, watcher, steps))?;
    Ok(Run {
        end,
        steps: steps - machine.steps,
        draws: machine.draws,
        unfixed: machine.unfixed,
    })
}

// The end of a run that went on to its end, or halted.
fn end_of(outcome: Result<Flow, Halt>) -> Result<End, OutOfMemory>
    ensures end { IfOk result (EndsAs outcome) }
    ensures refused { OnErr result (outcome ≡ Err NoMemory) }
{
    match outcome {
        Ok(_) => Ok(End::Ended),
        Err(Halt::Ends(end)) => Ok(end),
        Err(Halt::NoMemory) => Err(OutOfMemory),
    }
}

// The whole of `main`.
fn run_main<W: Watcher>(
    program: &Program,
    machine: &mut Machine,
    watcher: &mut W,
    steps: u64,
) -> Result<Flow, Halt>
    requires bound { machine.old.steps ≤ steps }
    ensures gives { Gives flow_of result (state_of machine.new (W.seen watcher.new))
        (in_main (program_view program.now) W.Seen W.after (suc steps) (state_of machine.old (W.seen watcher.old))) }
    ensures spends { machine.new.steps ≤ machine.old.steps }
{
    match program.functions.get(program.main as usize) {
        Some(function) => body(program, machine, watcher, steps, function),
        None => Ok(Flow::Next),
    }
}
