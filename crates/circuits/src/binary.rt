// Operators of two numbers.
ghost use Rattle.std.specs.Prelude.{◌≡◌, ◌<◌, ◌^◌, IfOk, IsFalse, length};
ghost use Rattle.c_core.specs.Types.{IsPromoted};
ghost use Rattle.c_core.specs.Operators.{is_shift, apply_of};
ghost use Rattle.circuits.specs.Net.{Grown};
ghost use Rattle.circuits.specs.Numbers.{typed, AreTyped};
ghost use Rattle.circuits.specs.Outcome.{Gives, binary_type, binary_cost};

use crate::comparisons::{at_most, equal, less, unequal};
use crate::gates::Gate;
use crate::logic::bit_operator;
use crate::products::multiply;
use crate::quotients::{divide, remainder};
use crate::shifts::{shift_left, shift_right};
use crate::sums::{add, subtract};
use crate::{Bits, Net, Outcome};
use c_core::{BinOp, DataModel, IntType};
use std::alloc::Global;
use wv_base::OutOfMemory;

// The circuit of each operator.
macro_rules! circuits {
    ($op:ident, $($name:ident => $circuit:expr,)*) => {
        match $op {
            $(BinOp::$name => {
                let out = $circuit?;
                Ok(out)
            })*
        }
    };
}

/// An operator of two numbers of a promoted type (ISO C11 6.5.5 to 6.5.12). `right` is the type of `b`: that of `a`, or
/// any promoted type where the operator is a shift.
pub fn apply_bits(
    alloc: Global,
    net: &mut Net,
    model: DataModel,
    op: BinOp,
    ty: IntType,
    a: &Bits,
    right: IntType,
    b: &Bits,
) -> Result<Outcome, OutOfMemory>
    requires promoted { IsPromoted ty }
    requires right_promoted { IsPromoted right }
    requires same { IsFalse (is_shift op) → right ≡ ty }
    requires a_in { AreTyped model ty net.old a.now.bits }
    requires b_in { AreTyped model right net.old b.now.bits }
    requires room { length net.old < 2 ^ 28 }
    ensures grown { Grown (binary_cost model op ty) net.old net.new }
    ensures value { IfOk result (λ r. Gives model (binary_type op ty) net.new r
        (λ v. apply_of model op ty (typed model ty v net.old a.now.bits) (typed model right v net.old b.now.bits))) }
{
    let x = a.bits.as_slice();
    let y = b.bits.as_slice();
    circuits!(op,
        Add => add(alloc, net, model, ty, x, y),
        Sub => subtract(alloc, net, model, ty, x, y),
        Mul => multiply(alloc, net, model, ty, x, y),
        Div => divide(alloc, net, model, ty, x, y),
        Rem => remainder(alloc, net, model, ty, x, y),
        Shl => shift_left(alloc, net, model, ty, x, right, y),
        Shr => shift_right(alloc, net, model, ty, x, right, y),
        And => bit_operator(alloc, net, model, Gate::And, ty, x, y),
        Xor => bit_operator(alloc, net, model, Gate::Xor, ty, x, y),
        Or => bit_operator(alloc, net, model, Gate::Or, ty, x, y),
        Lt => less(alloc, net, model, ty, x, y),
        Le => at_most(alloc, net, model, ty, x, y),
        Gt => less(alloc, net, model, ty, y, x),
        Ge => at_most(alloc, net, model, ty, y, x),
        Eq => equal(alloc, net, model, ty, x, y),
        Ne => unequal(alloc, net, model, ty, x, y),
    )
}
