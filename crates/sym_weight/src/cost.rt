ghost use Rattle.std.specs.Prelude.{◌≡◌};
ghost use Rattle.sym_weight.specs.Tally as tally;

use wv_base::Seq;

/// A weight and a number of drawn bits; what is beyond the type's end counts as its end.
#[derive(Clone, Copy, Debug, PartialEq, Eq)]
pub struct Cost {
    pub weight: u64,
    pub bits: u64,
}

/// What weighs and draws nothing.
pub fn nothing() -> Cost
    ensures { result ≡ tally.cost 0 0 }
{
    Cost { weight: 0, bits: 0 }
}

/// Something of this weight that draws nothing.
pub fn weighs(weight: u64) -> Cost
    ensures { result ≡ tally.cost weight 0 }
{
    Cost { weight, bits: 0 }
}

/// Something of this weight that draws this many bits.
pub fn draws(weight: u64, bits: u64) -> Cost
    ensures { result ≡ tally.cost weight bits }
{
    Cost { weight, bits }
}

/// Both together.
pub fn plus(a: Cost, b: Cost) -> Cost
    ensures { result ≡ tally.plus a b }
{
    Cost {
        weight: a.weight.saturating_add(b.weight),
        bits: a.bits.saturating_add(b.bits),
    }
}

/// What a function's body weighs and draws by itself, and the functions that it calls, each as often as it does.
#[derive(Drop)]
pub struct Tally {
    pub cost: Cost,
    pub calls: Seq<u32>,
}
