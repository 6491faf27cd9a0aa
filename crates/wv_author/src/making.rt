ghost use Rattle.std.specs.Prelude.{◌≡◌, ◌≤◌, IfOk};
ghost use Rattle.wv_author.specs.Demo.{AreWithin, AreWritable, demo_of};

use crate::programs::{correct_program, faulty_program};
use crate::sequence::bounds;
use crate::witnesses::{invariants, violation};
use std::alloc::Global;
use wv_base::{OutOfMemory, Text};
use wv_schema::Witness;

/// Two programs, and a witness about each.
#[derive(Debug, Drop)]
pub struct Made {
    /// No run of it reaches the error.
    pub correct: Text,
    /// It reaches the error where its input is the number.
    pub faulty: Text,
    /// About the correct program.
    pub invariants: Witness,
    /// About the faulty program.
    pub violation: Witness,
}

/// The demo of a number: two programs of forty loops, whose bounds the number gives, and a witness about each.
#[tactic(auto, using(crate::proofs::Lengths::programs_are_within), unfolding(crate::specs::Demo::demo_of, crate::specs::Programs::correct_program, crate::specs::Programs::faulty_program))]
pub fn demo(alloc: Global, number: u32) -> Result<Made, OutOfMemory>
    requires { number ≤ 999999 }
    ensures made { IfOk result (λ made. made ≡ demo_of number) }
    ensures within { IfOk result AreWithin }
    ensures writable { IfOk result AreWritable }
{
    let bounds = bounds(alloc, number)?;
    let correct = correct_program(alloc, &bounds)?;
    let faulty = faulty_program(alloc, &bounds, number)?;
    let invariants = invariants(alloc, &correct, &bounds)?;
    let violation = violation(alloc, &faulty, number)?;
    Ok(Made {
        correct,
        faulty,
        invariants,
        violation,
    })
}
