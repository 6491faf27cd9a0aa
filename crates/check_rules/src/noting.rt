// The first refusal so far, while the parts of a source are gone through.
ghost use Rattle.std.specs.Prelude.{◌≡◌};
ghost use Rattle.c_core.specs.TextOrder as order;
ghost use Rattle.check_rules.specs.First.{refusal, comes_first as comes_first_of, rank as rank_of};
ghost use Rattle.check_rules.specs.Noting as noting;

use crate::fault::{CheckCode, Refusal};
use c_core::Spot;

fn is_before(a: Spot, b: Spot) -> bool
    ensures { result ≡ order.is_before a b }
{
    a.line < b.line || (a.line == b.line && a.column < b.column)
}

// The order in which refusals at one place are reported.
fn rank(code: CheckCode) -> u8
    ensures { result ≡ rank_of code }
{
    match code {
        CheckCode::Name => 0,
        CheckCode::Again => 1,
        CheckCode::Typing => 2,
        CheckCode::Size => 3,
        CheckCode::Order => 4,
        CheckCode::Body => 5,
        CheckCode::Main => 6,
        CheckCode::Cells => 7,
    }
}

fn comes_first(a: Refusal, b: Refusal) -> bool
    ensures { result ≡ comes_first_of a b }
{
    is_before(a.spot, b.spot) || (!is_before(b.spot, a.spot) && rank(a.code) < rank(b.code))
}

/// The first of the refusals so far and of one more, where that one holds.
pub fn noted(best: Option<Refusal>, holds: bool, code: CheckCode, spot: Spot) -> Option<Refusal>
    ensures { result ≡ noting.noted best holds (refusal code spot) }
{
    if !holds {
        return best;
    }
    let new = Refusal { code, spot };
    match best {
        None => Some(new),
        Some(first) => if comes_first(new, first) {
            Some(new)
        } else {
            Some(first)
        },
    }
}
