// Which runs take the way of a waypoint.
ghost use Rattle.std.specs.Prelude.{◌≡◌, ℕ, ℤ, Bool, cond, length};
ghost use Rattle.c_core.specs.Typing.{labels_in};
ghost use Rattle.c_core.specs.View.{switch_view};
ghost use Rattle.c_meaning.specs.Run.{is_case, way_for};
ghost use Rattle.circuits.specs.Net.{holds, opposite, Means, IsIn};
ghost use Rattle.circuits.specs.Numbers.{AreIn};
ghost use Rattle.seek_passes.specs.Event.{AreCasesOf, IsNoneOf};
ghost use Rattle.way_match.specs.Passing.{same_way};

use crate::spots::known;
use c_core::{Arm, Label};
use c_meaning::Way;
use circuits::{Bit, Net, not};

// The bit, or its opposite.
fn kept_if(keep: bool, bit: Bit) -> Bit
    ensures { result ≡ cond keep bit (opposite bit) }
{
    if keep { bit } else { not(bit) }
}

/// Where a condition of this truth value takes the way.
pub fn truth_way(net: &Net, way: Way, truth: Bit) -> Bit
    requires { IsIn net.now truth }
    ensures { Means net.now result (λ v. same_way way (Way.Truth (holds v net.now truth))) }
{
    match way {
        Way::Truth(taken) => kept_if(taken, truth),
        Way::Case(_) => known(net, false),
        Way::Default => known(net, false),
    }
}

fn is_label(label: Label, constant: i128) -> bool
    ensures { result ≡ is_case constant label }
{
    match label {
        Label::Case(other) => constant == other,
        Label::Default => false,
    }
}

// Where a switch takes the arm of a constant: by the bit of the first arm that has it.
fn case_way(net: &Net, constant: i128, arms: &[Arm], cases: &[Bit]) -> Bit
    requires cases_in { AreIn net.now cases.now }
    requires many { length cases.now ≡ length arms.now }
    ensures { (z : (ℕ → Bool) → ℤ)
        → AreCasesOf net.now cases.now arms.now z
        → Means net.now result (λ v. same_way (Way.Case constant) (way_for (z v) (labels_in (switch_view arms.now)))) }
{
    for (i, arm) in arms.iter().enumerate() {
        if is_label(arm.label, constant) {
            return cases[i];
        }
    }
    not(net.yes())
}

/// Where a switch takes the way, by the bits of its constants and the bit that says whether it takes none of them.
pub fn arm_way(net: &Net, way: Way, arms: &[Arm], cases: &[Bit], none: Bit) -> Bit
    requires cases_in { AreIn net.now cases.now }
    requires many { length cases.now ≡ length arms.now }
    requires none_in { IsIn net.now none }
    ensures { (z : (ℕ → Bool) → ℤ)
        → AreCasesOf net.now cases.now arms.now z → IsNoneOf net.now none arms.now z
        → Means net.now result (λ v. same_way way (way_for (z v) (labels_in (switch_view arms.now)))) }
{
    match way {
        Way::Truth(_) => known(net, false),
        Way::Case(constant) => case_way(net, constant, arms, cases),
        Way::Default => none,
    }
}
