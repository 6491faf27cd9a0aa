// What the bodies of functions weigh and draw, and the functions that they call.
ghost use Rattle.std.specs.Prelude.{◌≡◌, Some, IfOk, length};
ghost use Rattle.c_core.specs.TreeView.{function_view, functions_view};
ghost use Rattle.c_core.specs.View.{program_view};
ghost use Rattle.sym_weight.specs.Sum.{function_of};
ghost use Rattle.sym_weight.specs.Reached.{is_wanted};
ghost use Rattle.sym_weight.specs.Tally.{AreTallied, IsTallied, placed_of, tallies_of, tallies_view, tally_view, tallying};

use crate::cost::{Tally, plus, weighs};
use crate::reached::is_wanted;
use crate::statements::{Weigher, form};
use c_core::Function;
use wv_base::{OutOfMemory, Seq};

fn tally_of(weigher: Weigher, function: &Function) -> Result<Tally, OutOfMemory>
    ensures { IfOk result (λ t. IsTallied weigher.entry.heads (tally_view t)
        (function_of (program_view weigher.entry.program.now) tallying (placed_of weigher.entry)
        (Some (function_view function.now)))) }
{
    let mut calls = Vec::new(weigher.alloc);
    let body = &function.body;
    let inner = form(weigher, &mut calls, function.result, body.spot, &body.form)?;
    Ok(Tally {
        cost: plus(weighs(64), inner),
        calls: Seq::from_vec(calls),
    })
}

fn with_heads<'a>(weigher: Weigher<'a>, heads: bool) -> Weigher<'a>
    ensures heads { result.heads ≡ heads }
    ensures places { placed_of result ≡ placed_of weigher.entry }
    ensures program { program_view result.program.now ≡ program_view weigher.entry.program.now }
{
    let mut counting = weigher;
    counting.heads = heads;
    counting
}

/// The tally of each of these functions, with the heads of loops in those that are marked.
pub fn tallies_of(
    weigher: Weigher,
    functions: &[Function],
    marks: &[bool],
) -> Result<Vec<Tally>, OutOfMemory>
    ensures tallied { IfOk result (λ all. AreTallied (is_wanted marks.now) (tallies_view all.items)
        (tallies_of (program_view weigher.entry.program.now) (placed_of weigher.entry)
        (functions_view functions.now))) }
    ensures count { IfOk result (λ all. length all.items ≡ length functions.now) }
{
    let mut all = Vec::new(weigher.alloc);
    for f in functions {
        let counting = with_heads(weigher, is_wanted(marks, all.len()));
        let tally = tally_of(counting, f)?;
        all.push(tally)?;
    }
    Ok(all)
}
