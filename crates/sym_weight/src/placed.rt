// What the invariants weigh that stand at a place.
ghost use Rattle.std.specs.Prelude.{◌≡◌, ◌+◌, cond, [], IfOk, OnOk};
ghost use Rattle.c_core.specs.View.{expr_view, program_view};
ghost use Rattle.c_core.specs.declared.number.Spot.{Spot};
ghost use Rattle.c_meaning.specs.Havoc.{stands};
ghost use Rattle.c_core.specs.Parts.{same_spot};
ghost use Rattle.sym_weight.specs.Tally as tally;
ghost use Rattle.sym_weight.specs.Tally.{capped};
ghost use Rattle.c_meaning.specs.Placing.{placed, placed_view};
ghost use Rattle.sym_weight.specs.Weight as weight;

use crate::expressions::weight_of;
use crate::table::tested;
use c_core::{Expr, Program, Spot};
use c_meaning::PlacedInvariant;
use std::alloc::Global;
use std::collections::BTreeMap;
use wv_base::OutOfMemory;

/// Weights by line and column.
pub type Weights = BTreeMap<(u32, u32), u64>;

/// The weight at a place, 0 where there is none.
pub fn weight_at(weights: &Weights, spot: Spot) -> u64
    ensures { result ≡ tally.weight_at weights.now spot }
{
    weights.get(&(spot.line, spot.column)).copied().unwrap_or(0)
}

fn evaluation(alloc: Global, program: &Program, e: &Expr) -> Result<u64, OutOfMemory>
    ensures { IfOk result (λ w. w ≡ capped (weight.evaluation (program_view program.now) (expr_view e.now))) }
{
    let weight = weight_of(alloc, program, e)?;
    Ok(weight.saturating_add(64 + tested(program.model, e)))
}

/// A weight more at a place.
pub fn add_weight(weights: &mut Weights, spot: Spot, weight: u64) -> Result<(), OutOfMemory>
    ensures { OnOk result ((q : Spot) → tally.weight_at weights.new q
        ≡ cond (same_spot spot q) (capped (tally.weight_at weights.old q + weight)) (tally.weight_at weights.old q)) }
{
    let sum = weight_at(weights, spot).saturating_add(weight);
    weights.insert((spot.line, spot.column), sum)?;
    Ok(())
}

// An invariant, if it stands at loops (true) or at statements (false).
fn add_placed(
    alloc: Global,
    program: &Program,
    weights: &mut Weights,
    at_loop: bool,
    x: &PlacedInvariant,
) -> Result<(), OutOfMemory>
    ensures { OnOk result ((q : Spot) → tally.weight_at weights.new q
        ≡ cond (stands (program_view program.now) [] at_loop q (placed x.now))
        (capped (tally.weight_at weights.old q + weight.evaluation (program_view program.now) (expr_view x.now.test)))
        (tally.weight_at weights.old q)) }
{
    if x.at_loop == at_loop {
        let weight = evaluation(alloc, program, &x.test)?;
        add_weight(weights, x.spot, weight)?;
    }
    Ok(())
}

/// The weights of the invariants of loops (true) or of statements (false), by place.
pub fn placed_weights(
    alloc: Global,
    program: &Program,
    invariants: &[PlacedInvariant],
    at_loop: bool,
) -> Result<Weights, OutOfMemory>
    ensures { IfOk result (λ weights. (q : Spot) → tally.weight_at weights q
        ≡ capped (weight.placed_weight (program_view program.now) (placed_view invariants.now) at_loop q)) }
{
    let mut weights = BTreeMap::new(alloc);
    for x in invariants {
        add_placed(alloc, program, &mut weights, at_loop, x)?;
    }
    Ok(weights)
}
