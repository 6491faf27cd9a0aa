// Widths of types as lengths of lists.
ghost use Rattle.std.specs.Prelude.{◌≡◌};
ghost use Rattle.c_core.specs.Types.{width_of};

use c_core::{DataModel, IntType};

/// The width of a type in bits.
pub fn width(model: DataModel, ty: IntType) -> usize
    ensures { result ≡ width_of model ty }
{
    c_core::width(model, ty) as usize
}
