// Bits that are never true together.
ghost use Rattle.std.specs.Prelude.{◌&&◌, IfSome};
ghost use Rattle.circuits.specs.Net.{holds, IsIn, Means};
ghost use Rattle.folded_nets.specs.Following.{AreApart};

use circuits::{Bit, Net, not};

/// Two bits that are never true together.
#[derive(Clone, Copy, Debug, PartialEq, Eq)]
pub struct Apart {
    pub left: Bit,
    pub right: Bit,
}

/// The bit that is the conjunction of two bits already, where a pair tells: a is never true together with right, so a
/// alone is "a and not right".
#[tactic(auto, using(crate::proofs::Telling::means_left, crate::proofs::Telling::means_right, crate::proofs::Telling::means_never))]
pub fn told(net: &Net, pair: Apart, a: Bit, b: Bit) -> Option<Bit>
    requires apart { AreApart net.now pair }
    requires a_in { IsIn net.now a }
    requires b_in { IsIn net.now b }
    ensures { IfSome result (λ r. Means net.now r (λ v. holds v net.now a && holds v net.now b)) }
{
    if a == pair.left && b == not(pair.right) {
        return Some(a);
    }
    if a == not(pair.left) && b == pair.right {
        return Some(b);
    }
    if a == pair.left && b == pair.right {
        return Some(not(net.yes()));
    }
    None
}
