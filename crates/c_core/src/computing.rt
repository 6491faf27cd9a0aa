// What operators give over values of any two types: the conversions to those in which they compute come first (C11
// 6.5p4, 6.3.1.8).
ghost use Rattle.std.specs.Prelude.{◌≡◌, IsTrue};
ghost use Rattle.c_core.specs.Types.{fit, in_range, IsPromoted};
ghost use Rattle.c_core.specs.Operators as operators;

use crate::number::{BinOp, DataModel, Done, IntType, StepOp, UnOp};
use crate::operate::{apply, apply_one};
use crate::types::{common, convert, promote};

/// Is it `<<` or `>>`?
pub fn is_shift(op: BinOp) -> bool
    ensures { result ≡ operators.is_shift op }
{
    match op {
        BinOp::Shl | BinOp::Shr => true,
        _ => false,
    }
}

/// The operator of `++` or `--`.
pub fn op_of_step(op: StepOp) -> BinOp
    ensures { result ≡ operators.op_of_step op }
{
    match op {
        StepOp::PreInc | StepOp::PostInc => BinOp::Add,
        StepOp::PreDec | StepOp::PostDec => BinOp::Sub,
    }
}

/// The type in which an operator computes.
pub fn type_for(model: DataModel, op: BinOp, a: IntType, b: IntType) -> IntType
    ensures value { result ≡ operators.type_for model op a b }
    ensures promoted { IsPromoted result }
{
    if is_shift(op) {
        promote(model, a)
    } else {
        common(model, a, b)
    }
}

/// The type of its right side, where it computes in `ty`.
pub fn right_type_for(model: DataModel, op: BinOp, ty: IntType, b: IntType) -> IntType
    ensures { result ≡ operators.right_type_for op ty b }
{
    if is_shift(op) { promote(model, b) } else { ty }
}

/// A value converted to a type, of which it is then a value.
pub fn fitted(model: DataModel, ty: IntType, value: i128) -> i128
    ensures value { result ≡ fit model ty value }
    ensures range { IsTrue (in_range model ty result) }
{
    convert(model, ty, value)
}

/// What a binary operator gives over values of two types.
pub fn computed(model: DataModel, op: BinOp, a: IntType, x: i128, b: IntType, y: i128) -> Done
    ensures { result ≡ operators.computed model op a x b y }
{
    let ty = type_for(model, op, a, b);
    let left = fitted(model, ty, x);
    if is_shift(op) {
        apply(model, op, ty, left, fitted(model, promote(model, b), y))
    } else {
        apply(model, op, ty, left, fitted(model, ty, y))
    }
}

/// What a unary operator gives over a value of a type.
pub fn computed_one(model: DataModel, op: UnOp, a: IntType, x: i128) -> Done
    ensures { result ≡ operators.computed_one model op a x }
{
    let ty = promote(model, a);
    apply_one(model, op, ty, fitted(model, ty, x))
}
