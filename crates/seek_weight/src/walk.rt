// What a walk through the body of a function counts with.
ghost use Rattle.std.specs.Prelude.{◌≡◌, ◌+◌, ◌*◌, suc};
ghost use Rattle.seek_weight.specs.Tolls.{ACall, AStatement, ATest, passage, toll};
ghost use Rattle.seek_weight.specs.inside.Weighing.{IsReady, program_in, segments_in, total_at};
ghost use Rattle.sym_weight.specs.Tally.{capped};

use crate::tolls::Tolls;
use c_core::{Program, Spot};
use sym_weight::weight_at;
use way_match::BoundSegment;

/// A program, the segments of a witness and their tolls; the bound on turns; how deep calls may be from here, and what
/// each function comes to with calls one less deep, which isn't looked at where none may be.
#[derive(Clone, Copy)]
pub struct Walk<'a> {
    pub program: &'a Program,
    pub segments: &'a [BoundSegment],
    pub tolls: &'a Tolls,
    pub turns: u32,
    pub depth: u32,
    pub totals: &'a [u64],
}

/// Both together; what is beyond the type's end counts as its end.
pub fn plus(a: u64, b: u64) -> u64
    ensures { result ≡ capped (a + b) }
{
    a.saturating_add(b)
}

/// What a function came to, by its number.
pub fn total_at(totals: &[u64], function: u32) -> u64
    ensures { result ≡ total_at totals.now function }
{
    match totals.get(function as usize) {
        Some(total) => *total,
        None => 0,
    }
}

/// The turns of a loop: bodies, and a test more.
pub fn turns(walk: Walk, test: u64, rest: u64) -> u64
    ensures { result ≡ capped (suc walk.entry.turns * test + walk.entry.turns * rest) }
{
    let turns = u64::from(walk.turns);
    (turns + 1)
        .saturating_mul(test)
        .saturating_add(turns.saturating_mul(rest))
}

/// What a function's body weighs besides being a statement.
pub fn passage(walk: Walk) -> u64
    requires { IsReady walk }
    ensures { result ≡ capped (passage (segments_in walk.entry)) }
{
    walk.tolls.passage
}

/// The toll of a statement.
pub fn statement_toll(walk: Walk, at: Spot) -> u64
    requires { IsReady walk }
    ensures { result ≡ capped (toll (program_in walk.entry) (segments_in walk.entry) AStatement at) }
{
    plus(walk.tolls.passage, weight_at(&walk.tolls.statements, at))
}

/// The toll of a controlling expression or of the test of `?:`.
pub fn test_toll(walk: Walk, at: Spot) -> u64
    requires { IsReady walk }
    ensures { result ≡ capped (toll (program_in walk.entry) (segments_in walk.entry) ATest at) }
{
    plus(walk.tolls.passage, weight_at(&walk.tolls.tests, at))
}

/// The toll of a call.
pub fn call_toll(walk: Walk, at: Spot) -> u64
    requires { IsReady walk }
    ensures { result ≡ capped (toll (program_in walk.entry) (segments_in walk.entry) ACall at) }
{
    plus(walk.tolls.passage, weight_at(&walk.tolls.calls, at))
}
