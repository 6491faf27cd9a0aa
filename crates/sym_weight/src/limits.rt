// The test that refuses a program before any circuit is made.
ghost use Rattle.std.specs.Prelude.{◌≡◌, suc, min, length, IfOk, IsTrue, None, false};
ghost use Rattle.c_core.specs.View.{program_view};
ghost use Rattle.sym_weight.specs.Tally.{AreTallied, all_tallies, placed_of, tallies_view};
ghost use Rattle.c_meaning.specs.Placing.{placed_view};
ghost use Rattle.sym_weight.specs.Totals as totals;
ghost use Rattle.sym_weight.specs.Weighed.{Weighs, judged};

use crate::cost::Tally;
use crate::functions::tallies_of;
use crate::placed::placed_weights;
use crate::reached::reached;
use crate::statements::Weigher;
use crate::totals::{Total, total_at, totals_after};
use c_core::Program;
use c_meaning::PlacedInvariant;
use std::alloc::Global;
use wv_base::{OutOfMemory, Seq};

// As deep as calls are ever unfolded: a longer chain is too long.
fn depth(functions: usize) -> usize
    ensures { result ≡ min (suc functions) 33 }
{
    if functions < 33 { functions + 1 } else { 33 }
}

fn judged(total: Total) -> Option<Total>
    ensures { result ≡ judged total }
{
    if total.chain <= 32 && total.weight <= 2000000 {
        Some(total)
    } else {
        None
    }
}

// What main reaches, by these tallies.
fn unfolded(alloc: Global, tallies: &[Tally], main: u32) -> Result<Total, OutOfMemory>
    ensures { IfOk result (λ t. t
        ≡ totals.total_at (totals.totals_after (tallies_view tallies.now) (min (suc (length tallies.now)) 33)) main) }
{
    let rounds = depth(tallies.len());
    let all = totals_after(alloc, tallies, rounds)?;
    Ok(total_at(all.as_slice(), main))
}

// Whether the program is too big even without the heads of its loops.
fn is_too_big(alloc: Global, tallies: &[Tally], main: u32) -> Result<bool, OutOfMemory>
    ensures { IfOk result (λ big. IsTrue big
        → judged (totals.total_at (totals.totals_after (tallies_view tallies.now) (min (suc (length tallies.now)) 33))
        main) ≡ None) }
{
    let least = unfolded(alloc, tallies, main)?;
    match judged(least) {
        Some(_) => Ok(false),
        None => Ok(true),
    }
}

// The whole weight, by tallies without the heads of loops: heads are counted in the functions that main reaches.
fn whole(weigher: Weigher, tallies: &[Tally]) -> Result<Total, OutOfMemory>
    requires { AreTallied (λ f. false) (tallies_view tallies.now)
        (all_tallies (program_view weigher.program.now) (placed_of weigher)) }
    ensures { IfOk result (λ t. t
        ≡ totals.total_at
        (totals.totals_after (all_tallies (program_view weigher.entry.program.now) (placed_of weigher.entry))
        (min (suc (length (program_view weigher.entry.program.now).functions)) 33)) weigher.entry.program.now.main) }
{
    let main = weigher.program.main;
    let marks = reached(weigher.alloc, tallies, main)?;
    let functions = weigher.program.functions.as_slice();
    let all = tallies_of(weigher, functions, marks.as_slice())?;
    let total = unfolded(weigher.alloc, all.as_slice(), main)?;
    Ok(total)
}

/// What a program with its invariants weighs, with all calls unfolded; `None` exactly where it is too big to be made a
/// circuit: where a chain of calls from main has more than 32 calls, or the weight is over 2,000,000. What loops change
/// is looked for only where the rest is within these limits, and only in the functions that main reaches: so no more
/// text is gone through for it than the limits allow.
pub fn weigh(
    alloc: Global,
    program: &Program,
    invariants: &Seq<PlacedInvariant>,
) -> Result<Option<Total>, OutOfMemory>
    ensures { IfOk result (Weighs (program_view program.now) (placed_view invariants.now)) }
{
    let listed = invariants.as_slice();
    let at_loops = placed_weights(alloc, program, listed, true)?;
    let at_statements = placed_weights(alloc, program, listed, false)?;
    let weigher = Weigher {
        alloc,
        program,
        at_loops: &at_loops,
        at_statements: &at_statements,
        heads: false,
    };
    let functions = program.functions.as_slice();
    let no_marks = vec![in alloc; false; functions.len()]?;
    let light = tallies_of(weigher, functions, no_marks.as_slice())?;
    let big = is_too_big(alloc, light.as_slice(), program.main)?;
    if big {
        return Ok(None);
    }
    let total = whole(weigher, light.as_slice())?;
    Ok(judged(total))
}
