// The refusals of a source: those that the walk found, and those by the order of operands.
ghost use Rattle.std.specs.Prelude.{◌≡◌, List, IfOk};
ghost use Rattle.c_core.specs.declared.number.DataModel.{DataModel};
ghost use Rattle.c_parser.specs.Tree as raw;
ghost use Rattle.c_check.specs.Finding.{IsFirstOf, IsWalk, orders_noted};

use c_core::Spot;
use check_elaborate::Walked;
use check_rules::{CheckCode, Refusal, noted};
use check_unsequenced::unordered;
use std::alloc::Global;
use wv_base::OutOfMemory;

// The first of the refusals so far and of those by the order of operands at these places.
fn with_orders(mut best: Option<Refusal>, spots: &[Spot]) -> Option<Refusal>
    ensures { result ≡ orders_noted best spots.now }
{
    for spot in spots {
        best = noted(best, true, CheckCode::Order, *spot);
    }
    best
}

/// The first refusal of a source that was gone through; more objects than the order rule has numbers for are want of
/// memory.
pub fn first_refusal(alloc: Global, walked: &Walked) -> Result<Option<Refusal>, OutOfMemory>
    ensures { IfOk result (λ first. (m : DataModel) (items : List raw.Item) → IsWalk m items walked.now
        → IsFirstOf m items first) }
{
    if walked.objects.len() >= u32::MAX as usize {
        return Err(OutOfMemory);
    }
    let spots = unordered(
        alloc,
        walked.objects.as_slice(),
        walked.functions.as_slice(),
        walked.kept.as_slice(),
        walked.outside.as_slice(),
    )?;
    Ok(with_orders(walked.best, spots.as_slice()))
}
