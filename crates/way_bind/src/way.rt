// The way that a branching states.
ghost use Rattle.std.specs.Prelude.{◌≡◌};
ghost use Rattle.c_core.specs.View.{program_view};
ghost use Rattle.wv_schema.specs.Judging.{integer_in};
ghost use Rattle.way_bind.specs.Ways.{arm_in, case_of, truth_in, way_at};

use c_core::{DataModel, IntType, Spot, convert};
use c_meaning::Way;
use way_places::Index;
use wv_schema::integer_in;

fn truth_in(text: &str) -> Option<Way>
    ensures { result ≡ truth_in text.now }
{
    if text == "true" {
        Some(Way::Truth(true))
    } else if text == "false" {
        Some(Way::Truth(false))
    } else {
        None
    }
}

fn case_in(model: DataModel, ty: IntType, text: &str) -> Option<Way>
    ensures { result ≡ case_of model ty (integer_in text.now) }
{
    match integer_in(text) {
        None => None,
        Some(value) => Some(Way::Case(convert(model, ty, value))),
    }
}

fn arm_in(model: DataModel, ty: IntType, text: &str) -> Option<Way>
    ensures { result ≡ arm_in model ty text.now }
{
    if text == "default" {
        Some(Way::Default)
    } else {
        case_in(model, ty, text)
    }
}

/// An arm where a switch is, a truth elsewhere.
#[tactic(auto, unfolding(crate::specs::Ways::way_at))]
pub fn way_at(index: &Index, spot: Spot, text: &str) -> Option<Way>
    ensures { result ≡ way_at (program_view index.now) spot text.now }
{
    match index.switch_at(spot) {
        None => truth_in(text),
        Some(ty) => arm_in(index.program().model, ty, text),
    }
}
