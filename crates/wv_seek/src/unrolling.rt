// All runs within a bound, as one bit of a net.
ghost use Rattle.std.specs.Prelude.{◌≡◌, ◌≤◌, ◌∷◌, [], IfOk, length};
ghost use Rattle.std.specs.List.{All};
ghost use Rattle.c_core.specs.View.{program_view};
ghost use Rattle.seek_passes.specs.Passing.{IsSegment};
ghost use Rattle.seek_walk.specs.Whole.{IsLightToSeek};
ghost use Rattle.way_match.specs.View.{segments_view};
ghost use Rattle.wv_seek.specs.Seeking.{IsUnrolled, UnrollsTo};

use crate::fault::SeekFault;
use crate::sites::test_sites;
use c_core::Program;
use circuits::Bit;
use seek_answer::{Reach, reach_tells_what_is_sought};
use seek_mode::sought_runs_are_judged;
use seek_walk::sought;
use seek_weight::{decided_within_weight, draws_are_light, weigh};
use std::alloc::Global;
use way_match::Bound;
use wv_base::{OutOfMemory, Seq};

// The bit of the one duty.
fn hit(failing: &[Bit]) -> Bit
    requires { length failing.now ≡ 1 }
    ensures { failing.now ≡ result ∷ [] }
{
    match failing {
        [hit] => *hit,
        _ => unreachable!(),
    }
}

// The net of a program that isn't too heavy.
fn made(alloc: Global, program: &Program, bound: &Bound, turns: u32) -> Result<Reach, OutOfMemory>
    requires turns { turns ≤ 64 }
    requires segments { All (IsSegment (program_view program.now)) (segments_view bound.now) }
    requires light { IsLightToSeek (program_view program.now) (segments_view bound.now) turns }
    ensures { IfOk result (IsUnrolled (program_view program.now) (segments_view bound.now) turns) }
{
    sought_runs_are_judged();
    draws_are_light();
    decided_within_weight();
    reach_tells_what_is_sought();
    let sym = sought(alloc, program, bound, turns)?;
    test_sites(alloc, program, sym.sites.as_slice())?;
    let reach = hit(sym.failing.as_slice());
    Ok(Reach {
        net: sym.net,
        reach,
        sites: Seq::from_vec(sym.sites),
    })
}

/// All runs of a program on which some values may be sought with this bound on turns and calls, as one bit of a net:
/// under each input of the net the bit is true exactly where the values of the live sites, in order, are sought. It is
/// too big exactly where the runs weigh more than 2,000,000, and then no net is made.
pub fn unroll(
    alloc: Global,
    program: &Program,
    bound: &Bound,
    turns: u32,
) -> Result<Reach, SeekFault>
    requires turns { turns ≤ 64 }
    requires segments { All (IsSegment (program_view program.now)) (segments_view bound.now) }
    ensures { UnrollsTo (program_view program.now) (segments_view bound.now) turns result }
{
    match weigh(alloc, program, bound, turns)? {
        None => Err(SeekFault::TooBig),
        Some(_) => {
            let reach = made(alloc, program, bound, turns)?;
            Ok(reach)
        }
    }
}
