// What the forms ask of steps and of bits.
ghost use Rattle.std.specs.Prelude.{◌≡◌, cond};
ghost use Rattle.c_core.specs.Operators as operators;
ghost use Rattle.circuits.specs.Net.{opposite};

use c_core::StepOp;
use circuits::{Bit, not};

/// Is the value of a step the one after it?
pub fn is_prefix(op: StepOp) -> bool
    ensures { result ≡ operators.is_prefix op }
{
    match op {
        StepOp::PreInc | StepOp::PreDec => true,
        StepOp::PostInc | StepOp::PostDec => false,
    }
}

/// The bit, or its opposite.
pub fn kept_if(keep: bool, bit: Bit) -> Bit
    ensures { result ≡ cond keep bit (opposite bit) }
{
    if keep { bit } else { not(bit) }
}
