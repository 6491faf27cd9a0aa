// Logs checked against the obligations of a program.
ghost use Rattle.std.specs.Prelude.{None, IfOk};
ghost use Rattle.c_calls.specs.Calling.{IsFirstRecursion};
ghost use Rattle.c_core.specs.View.{program_view};
ghost use Rattle.c_meaning.specs.Placing.{placed_view};
ghost use Rattle.sym_duties.specs.Promise.{ArePromised};
ghost use Rattle.wv_cert.specs.Accepted.{IsAnswer};
ghost use Rattle.wv_cert.specs.Certified.{IsCertified};

use crate::checking::{Rechecked, recheck_bits};
use c_core::Program;
use c_lifting::runs_are_lifted;
use c_meaning::PlacedInvariant;
use clauses::Refutation;
use std::alloc::Global;
use sym_duties::Obligations;
use wv_base::{OutOfMemory, Seq};

/// Checks a log for each obligation of a program with invariants. Where all are refutations, no run of the program
/// violates the property.
pub fn recheck(
    alloc: Global,
    program: &Program,
    invariants: &Seq<PlacedInvariant>,
    obligations: &Obligations,
    logs: &Seq<Refutation>,
) -> Result<Rechecked, OutOfMemory>
    requires straight { IsFirstRecursion (program_view program.now) None }
    requires promised { ArePromised (program_view program.now) (placed_view invariants.now) obligations.now }
    ensures exact { IfOk result (IsAnswer obligations.now.net obligations.now.failing logs.now) }
    ensures sound { IfOk result (IsCertified (program_view program.now) (placed_view invariants.now)) }
{
    runs_are_lifted();
    let net = &obligations.net;
    let _ = net.nodes();
    let answer = recheck_bits(alloc, net, &obligations.failing, logs)?;
    Ok(answer)
}
