// Types of operators, and what they give over constants (C11 6.5, 6.6).
ghost use Rattle.std.specs.Prelude.{◌≡◌};
ghost use Rattle.c_core.specs.Types.{fit, promote_of};
ghost use Rattle.c_core.specs.Operators.{is_comparison as is_comparison_of, apply_one_of, type_for as type_for_of};
ghost use Rattle.c_core.specs.Typing.{binary_type as binary_type_of};
ghost use Rattle.check_rules.specs.Constants as constants;
ghost use Rattle.check_rules.specs.Typed as typed;

use c_core::{BinOp, DataModel, Done, IntType, UnOp, common, convert, promote, type_for};

/// The type of a value; void counts as `int` where a value is needed.
pub fn valued(ty: Option<IntType>) -> IntType
    ensures { result ≡ constants.valued ty }
{
    match ty {
        Some(ty) => ty,
        None => IntType::Int,
    }
}

fn is_comparison(op: BinOp) -> bool
    ensures { result ≡ is_comparison_of op }
{
    match op {
        BinOp::Lt | BinOp::Le | BinOp::Gt | BinOp::Ge | BinOp::Eq | BinOp::Ne => true,
        _ => false,
    }
}

/// The type of a binary operator over values of two types.
pub fn binary_type(model: DataModel, op: BinOp, a: IntType, b: IntType) -> IntType
    ensures { result ≡ binary_type_of model op a b }
{
    if is_comparison(op) {
        IntType::Int
    } else {
        type_for(model, op, a, b)
    }
}

/// The type of a unary operator over a value of a type.
pub fn unary_type(model: DataModel, op: UnOp, ty: IntType) -> IntType
    ensures { result ≡ typed.unary_type op ty }
{
    match op {
        UnOp::Not => IntType::Int,
        UnOp::Plus | UnOp::Neg | UnOp::BitNot => promote(model, ty),
    }
}

/// The type of a choice between two arms.
pub fn choice_type(model: DataModel, yes: Option<IntType>, no: Option<IntType>) -> Option<IntType>
    ensures { result ≡ typed.choice_type model yes no }
{
    match (yes, no) {
        (None, None) => None,
        (None, Some(no)) => Some(common(model, IntType::Int, no)),
        (Some(yes), None) => Some(common(model, yes, IntType::Int)),
        (Some(yes), Some(no)) => Some(common(model, yes, no)),
    }
}

// The value that an operator gives, unless it overflows or is undefined.
fn outcome(done: Done) -> Option<i128>
    ensures { result ≡ constants.outcome done }
{
    match done {
        Done::Value(value) => Some(value),
        Done::Overflow(_) => None,
        Done::Undefined => None,
    }
}

/// What a binary operator gives over values of two types.
pub fn computed(
    model: DataModel,
    op: BinOp,
    a: IntType,
    b: IntType,
    x: i128,
    y: i128,
) -> Option<i128>
    ensures { result ≡ constants.computed model op (type_for_of model op a b) a b x y }
{
    outcome(c_core::computed(model, op, a, x, b, y))
}

/// What a unary operator gives over a value of a type.
pub fn computed_one(model: DataModel, op: UnOp, a: IntType, x: i128) -> Option<i128>
    ensures { result ≡ constants.outcome (apply_one_of model op (promote_of a) (fit model (promote_of a) x)) }
{
    outcome(c_core::computed_one(model, op, a, x))
}

/// A value converted to a type; void leaves it.
pub fn converted(model: DataModel, ty: Option<IntType>, x: i128) -> i128
    ensures { result ≡ constants.converted model ty x }
{
    match ty {
        None => x,
        Some(ty) => convert(model, ty, x),
    }
}
