// The test that refuses a bound before any circuit is made.
ghost use Rattle.std.specs.Prelude.{◌≡◌, map, IfOk};
ghost use Rattle.c_core.specs.TreeView.{function_view, functions_view};
ghost use Rattle.c_core.specs.View.{program_view};
ghost use Rattle.seek_weight.specs.SeekWeight as sums;
ghost use Rattle.seek_weight.specs.Weighed.{WeighsToSeek, judged};
ghost use Rattle.seek_weight.specs.inside.Weighing.{AreTolls, AreTotals, IsReady, comes_to, program_in, segments_in};
ghost use Rattle.sym_weight.specs.Tally.{capped};
ghost use Rattle.way_match.specs.View.{each_segment_view, segments_view};

use crate::statements::function_body;
use crate::tolls::{Tolls, tolls_of};
use crate::walk::{Walk, total_at};
use c_core::{Function, Program};
use std::alloc::Global;
use way_match::{Bound, BoundSegment};
use way_places::Index;
use wv_base::OutOfMemory;

fn function_weight(walk: Walk, function: &Function) -> u64
    requires { IsReady walk }
    ensures { result ≡ comes_to walk.entry (function_view function.now) }
{
    function_body(walk, function.result, &function.body)
}

fn totals_of(alloc: Global, walk: Walk, functions: &[Function]) -> Result<Vec<u64>, OutOfMemory>
    requires { IsReady walk }
    ensures { IfOk result (λ all. all.items ≡ map (comes_to walk.entry) (functions_view functions.now)) }
{
    let mut all = Vec::new(alloc);
    for function in functions {
        all.push(function_weight(walk, function))?;
    }
    Ok(all)
}

// What each function comes to.
fn totals(alloc: Global, walk: Walk) -> Result<Vec<u64>, OutOfMemory>
    requires { IsReady walk }
    ensures { IfOk result (λ all. AreTotals (program_in walk.entry) (segments_in walk.entry) walk.entry.turns
        walk.entry.depth all.items) }
{
    let functions = walk.program.functions.as_slice();
    let all = totals_of(alloc, walk, functions)?;
    Ok(all)
}

// What main comes to with calls as deep as loops have turns: a round for each depth.
fn unfolded(
    alloc: Global,
    program: &Program,
    segments: &[BoundSegment],
    tolls: &Tolls,
    turns: u32,
) -> Result<u64, OutOfMemory>
    requires { AreTolls (program_view program.now) (each_segment_view segments.now) tolls.now }
    ensures { IfOk result (λ w. w
        ≡ capped (sums.SeekWeight (program_view program.now) (each_segment_view segments.now) turns)) }
{
    let walk = Walk {
        program,
        segments,
        tolls,
        turns,
        depth: 0,
        totals: &[],
    };
    let mut all = totals(alloc, walk)?;
    for depth in 0..turns {
        let walk = Walk {
            program,
            segments,
            tolls,
            turns,
            depth: depth + 1,
            totals: all.as_slice(),
        };
        all = totals(alloc, walk)?;
    }
    Ok(total_at(all.as_slice(), program.main))
}

fn judged(weight: u64) -> Option<u64>
    ensures { result ≡ judged weight }
{
    if weight <= 2000000 {
        Some(weight)
    } else {
        None
    }
}

/// What the runs of a program within a bound on turns and calls weigh as a circuit that follows the segments of a
/// witness; `None` exactly where it is too big to be made: where the weight is over 2,000,000. It takes one walk through
/// the program for each depth of calls.
pub fn weigh(
    alloc: Global,
    program: &Program,
    bound: &Bound,
    turns: u32,
) -> Result<Option<u64>, OutOfMemory>
    ensures { IfOk result (WeighsToSeek (program_view program.now) (segments_view bound.now) turns) }
{
    let index = Index::new(alloc, program)?;
    let segments = bound.segments.as_slice();
    let tolls = tolls_of(alloc, &index, segments)?;
    let weight = unfolded(alloc, program, segments, &tolls, turns)?;
    Ok(judged(weight))
}
