// Numbers at their types, where most of them are small.
ghost use Rattle.std.specs.Prelude.{◌≡◌};
ghost use Rattle.c_core.specs.Types.{fit};
ghost use Rattle.c_core.specs.Operators.{is_comparison};
ghost use Rattle.c_core.specs.View.{expr_view, program_view};
ghost use Rattle.c_meaning.specs.Objects as objects;
ghost use Rattle.way_tests.specs.Truth as truth;

use c_core::{BinOp, DataModel, Expr, IntType, Program, convert};

/// The type of an expression; that of a void one isn't asked for.
#[inline(always)]
pub fn type_of(e: &Expr) -> IntType
    ensures { result ≡ objects.type_of (expr_view e.now) }
{
    match e.ty {
        Some(ty) => ty,
        None => IntType::Int,
    }
}

/// The type of an object.
#[inline(always)]
pub fn type_of_object(program: &Program, object: u32) -> IntType
    ensures { result ≡ objects.type_of_object (program_view program.now) object }
{
    match program.objects.get(object as usize) {
        Some(found) => found.ty,
        None => IntType::Int,
    }
}

/// A value converted to a type; a small one mostly has it already.
#[inline(always)]
pub fn fitted(model: DataModel, ty: IntType, value: i128) -> i128
    ensures { result ≡ fit model ty value }
{
    match ty {
        IntType::Int => {
            if value >= -2147483648 && value <= 2147483647 {
                value
            } else {
                convert(model, ty, value)
            }
        }
        _ => convert(model, ty, value),
    }
}

/// Is it `<`, `<=`, `>`, `>=`, `==` or `!=`?
#[inline(always)]
pub fn is_comparison(op: BinOp) -> bool
    ensures { result ≡ is_comparison op }
{
    match op {
        BinOp::Lt | BinOp::Le | BinOp::Gt | BinOp::Ge | BinOp::Eq | BinOp::Ne => true,
        _ => false,
    }
}

/// Two values of one type compared.
#[inline(always)]
pub fn is_so(op: BinOp, a: i128, b: i128) -> bool
    ensures { result ≡ truth.is_so op a b }
{
    match op {
        BinOp::Lt => a < b,
        BinOp::Le => a <= b,
        BinOp::Gt => a > b,
        BinOp::Ge => a >= b,
        BinOp::Eq => a == b,
        BinOp::Ne => a != b,
        _ => false,
    }
}
