// A run that is matched while it goes.
ghost use Rattle.std.specs.Prelude.{IfOk};
ghost use Rattle.c_core.specs.View.{program_view};
ghost use Rattle.judge.specs.Watching.{IsWatched};
ghost use Rattle.way_match.specs.View.{segments_view};

use c_core::Program;
use c_meaning::{Choices, Run};
use flow_machine::run_machine;
use std::alloc::Global;
use way_match::{Bound, Matcher};
use way_places::Index;
use wv_base::{OutOfMemory, Seq};

/// What came of a run, and the positions at which its events match the segments of a sequence, where they do.
#[derive(Drop)]
pub struct Watched {
    pub run: Run,
    pub found: Option<Seq<u64>>,
}

/// The run of an indexed program with choices and a budget of steps, whose events a matcher of the segments sees.
pub fn watched_over(
    alloc: Global,
    index: &Index,
    bound: &Bound,
    choices: &Choices,
    steps: u64,
) -> Result<Watched, OutOfMemory>
    ensures { IfOk result (IsWatched (program_view index.now) (segments_view bound.now) choices.now steps) }
{
    let mut matcher = Matcher::new(alloc, bound, index)?;
    let run = run_machine(alloc, index.program(), choices, steps, &mut matcher)?;
    let found = matcher.done();
    Ok(Watched { run, found })
}

/// The same run of a program that isn't indexed yet.
pub fn run_watched(
    alloc: Global,
    program: &Program,
    bound: &Bound,
    choices: &Choices,
    steps: u64,
) -> Result<Watched, OutOfMemory>
    ensures { IfOk result (IsWatched (program_view program.now) (segments_view bound.now) choices.now steps) }
{
    let index = Index::new(alloc, program)?;
    let watched = watched_over(alloc, &index, bound, choices, steps)?;
    Ok(watched)
}
