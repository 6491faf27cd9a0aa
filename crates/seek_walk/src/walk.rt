// The walk that makes the net of a search.
ghost use Rattle.std.specs.Prelude.{◌≡◌, ◌≤◌, IfOk};
ghost use Rattle.std.specs.List.{All};
ghost use Rattle.c_core.specs.View.{program_view};
ghost use Rattle.seek_passes.specs.Passing.{IsSegment};
ghost use Rattle.seek_walk.specs.Whole.{IsLightToSeek, IsWholeSought};
ghost use Rattle.way_match.specs.View.{segments_view};

use c_core::Program;
use seek_mode::runs_that_seek_cost_their_weight_at_most;
use seek_weight::draws_are_light;
use std::alloc::Global;
use sym_eval::whole;
use sym_state::Sym;
use sym_walk::{Judging, Seeking, Walk};
use way_match::Bound;
use wv_base::OutOfMemory;

// As a number of 32 bits.
fn small(count: usize) -> Result<u32, OutOfMemory>
    ensures { IfOk result (λ n. n ≡ count) }
{
    match u32::try_from(count) {
        Ok(n) => Ok(n),
        Err(_) => Err(OutOfMemory),
    }
}

/// The state after main's body, which stands for all runs that seek within a bound on turns and calls: its one failing
/// bit is the hit.
pub fn sought<'a>(
    alloc: Global,
    program: &'a Program,
    bound: &'a Bound,
    turns: u32,
) -> Result<Sym, OutOfMemory>
    requires turns { turns ≤ 64 }
    requires segments { All (IsSegment (program_view program.now)) (segments_view bound.now) }
    requires light { IsLightToSeek (program_view program.now) (segments_view bound.now) turns }
    ensures { IfOk result (IsWholeSought (program_view program.now) (segments_view bound.now) turns) }
{
    runs_that_seek_cost_their_weight_at_most();
    draws_are_light();
    let count = small(bound.segments.len())?;
    let segments = bound.segments.as_slice();
    let walk = Walk {
        alloc,
        program,
        mode: Judging::Seeks(Seeking { segments, turns }),
    };
    // the one duty is the hit; calls are as deep as loops have turns
    let sym = whole(&walk, 1, count, turns)?;
    Ok(sym)
}
