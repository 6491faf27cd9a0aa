// A law, the contract of a function without a body.
ghost use Rattle.std.specs.Prelude.{ℕ, List};
ghost use Rattle.c_core.specs.Tree.{Program};
ghost use Rattle.c_meaning.specs.Duties.{Placed};
ghost use Rattle.sym_scale.specs.Obliged.{CostsItsWeight};

/// By the scale of obligations a call of a function costs what its parameters and the function's body weigh, at every
/// depth of calls, and draws the bits that the body draws.
pub fn obligations_cost_their_weight()
    ensures { (p : Program) (I : List Placed) (n : ℕ) → CostsItsWeight p I n }
{}
