// Places, and bits that are the same in all runs.
ghost use Rattle.std.specs.Prelude.{◌≡◌};
ghost use Rattle.c_core.specs.Parts.{same_spot as same_spot_of};
ghost use Rattle.circuits.specs.Net.{Means};

use c_core::Spot;
use circuits::{Bit, Net, not};

pub fn same_spot(a: Spot, b: Spot) -> bool
    ensures { result ≡ same_spot_of a b }
{
    a.line == b.line && a.column == b.column
}

/// A bit that is this constant under every input.
pub fn known(net: &Net, value: bool) -> Bit
    ensures { Means net.now result (λ v. value) }
{
    if value {
        return net.yes();
    }
    not(net.yes())
}
