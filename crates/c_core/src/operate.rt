// Operators (C11 6.5), in native arithmetic at the width of the promoted type.
ghost use Rattle.std.specs.Prelude.{◌≡◌, ◌<◌, ◌≤◌, ◌<ℤ◌, ◌≤ℤ◌, pos, cond, ◌&&◌, IsTrue, IsFalse, SomeIff, unsigned_abs, FitsSigned};
ghost use Rattle.std.specs.Int.{w32, w64, FitsUnsigned};
ghost use Rattle.c_core.specs.Types.{in_range, IsPromoted};
ghost use Rattle.c_core.specs.Operators.{is_shift, apply_of, apply_one_of, truth};
ghost use Rattle.c_core.specs.declared.number.DataModel.TheVariants.{Lp64};
ghost use Rattle.c_core.specs.declared.number.IntType.TheVariants.{Int, UInt, LongLong, ULongLong};
ghost use Rattle.c_core.specs.declared.number.Done.TheVariants.{Value, Overflow};

use crate::number::{BinOp, DataModel, Done, IntType, UnOp};
use crate::types::{convert, signed, width};

/// What a binary operator gives at the promoted type `ty`. `a` and `b` are values of that type;
/// the right side of a shift may be any number.
pub fn apply(model: DataModel, op: BinOp, ty: IntType, a: i128, b: i128) -> Done
    requires promoted { IsPromoted ty }
    requires left { IsTrue (in_range model ty a) }
    requires right { IsFalse (is_shift op) → IsTrue (in_range model ty b) }
    ensures { result ≡ apply_of model op ty a b }
{
    match (signed(ty), width(model, ty)) {
        (true, 32) => operate_i32(op, a as i32, b),
        (false, 32) => operate_u32(op, a as u32, b),
        (true, _) => operate_i64(op, a as i64, b),
        (false, _) => operate_u64(op, a as u64, b),
    }
}

/// What a unary operator gives at the promoted type `ty`, of which `a` is a value.
pub fn apply_one(model: DataModel, op: UnOp, ty: IntType, a: i128) -> Done
    requires promoted { IsPromoted ty }
    requires range { IsTrue (in_range model ty a) }
    ensures { result ≡ apply_one_of model op ty a }
{
    match op {
        UnOp::Plus => Done::Value(a),
        UnOp::Neg => apply(model, BinOp::Sub, ty, 0, a),
        UnOp::BitNot => Done::Value(convert(model, ty, !a)),
        UnOp::Not => truth_of(a == 0),
    }
}

// A native operator that tells by itself whether its result left the range.
macro_rules! overflowing {
    ($signed:literal, $outcome:expr) => {{
        let (r, over) = $outcome;
        judge($signed, over, i128::from(r))
    }};
}

// All operators at one native type. A shift to the left keeps the range of a signed type where
// the number has more leading zeros than places; a number below 0 has none.
macro_rules! operate {
    ($native:ident, $signed:literal, $op:ident, $a:ident, $b:ident) => {
        match $op {
            BinOp::Add => overflowing!($signed, $a.overflowing_add($b as $native)),
            BinOp::Sub => overflowing!($signed, $a.overflowing_sub($b as $native)),
            BinOp::Mul => overflowing!($signed, $a.overflowing_mul($b as $native)),
            BinOp::Div => {
                if $b == 0 {
                    return Done::Undefined;
                }
                let over = $a.checked_div($b as $native).is_none();
                judge($signed, over, i128::from($a.wrapping_div($b as $native)))
            }
            BinOp::Rem => {
                if $b == 0 {
                    return Done::Undefined;
                }
                let over = $a.checked_rem($b as $native).is_none();
                judge($signed, over, i128::from($a.wrapping_rem($b as $native)))
            }
            BinOp::Shl => match places($b, $native::BITS) {
                Some(k) => {
                    let over = $a.leading_zeros() <= k;
                    judge($signed, over, i128::from($a << k))
                }
                None => Done::Undefined,
            },
            BinOp::Shr => match places($b, $native::BITS) {
                Some(k) => Done::Value(i128::from($a >> k)),
                None => Done::Undefined,
            },
            BinOp::And => Done::Value(i128::from($a & $b as $native)),
            BinOp::Xor => Done::Value(i128::from($a ^ $b as $native)),
            BinOp::Or => Done::Value(i128::from($a | $b as $native)),
            BinOp::Lt => truth_of($a < $b as $native),
            BinOp::Le => truth_of($a <= $b as $native),
            BinOp::Gt => truth_of($a > $b as $native),
            BinOp::Ge => truth_of($a >= $b as $native),
            BinOp::Eq => truth_of($a == $b as $native),
            BinOp::Ne => truth_of($a != $b as $native),
        }
    };
}

// At a signed type of 32 bits, such as `int`.
fn operate_i32(op: BinOp, a: i32, b: i128) -> Done
    requires { IsFalse (is_shift op) → FitsSigned w32 b }
    ensures { result ≡ apply_of Lp64 op Int a b }
{
    operate!(i32, true, op, a, b)
}

// At an unsigned type of 32 bits, such as `unsigned`.
fn operate_u32(op: BinOp, a: u32, b: i128) -> Done
    requires { IsFalse (is_shift op) → FitsUnsigned w32 b }
    ensures { result ≡ apply_of Lp64 op UInt (pos a) b }
{
    operate!(u32, false, op, a, b)
}

// At a signed type of 64 bits, such as `long long`.
fn operate_i64(op: BinOp, a: i64, b: i128) -> Done
    requires { IsFalse (is_shift op) → FitsSigned w64 b }
    ensures { result ≡ apply_of Lp64 op LongLong a b }
{
    operate!(i64, true, op, a, b)
}

// At an unsigned type of 64 bits, such as `unsigned long long`.
fn operate_u64(op: BinOp, a: u64, b: i128) -> Done
    requires { IsFalse (is_shift op) → FitsUnsigned w64 b }
    ensures { result ≡ apply_of Lp64 op ULongLong (pos a) b }
{
    operate!(u64, false, op, a, b)
}

// The wrapped value, reported as an overflow where it left the range of a signed type.
fn judge(signed: bool, over: bool, value: i128) -> Done
    ensures { result ≡ cond (signed && over) (Overflow value) (Value value) }
{
    if signed && over {
        Done::Overflow(value)
    } else {
        Done::Value(value)
    }
}

fn truth_of(holds: bool) -> Done
    ensures { result ≡ truth holds }
{
    Done::Value(i128::from(holds))
}

// The count of places to shift by, if it is from 0 on and below the width.
fn places(b: i128, width: u32) -> Option<u32>
    requires { width ≤ 64 }
    ensures { SomeIff result ((pos 0 ≤ℤ b) × (b <ℤ pos width)) (unsigned_abs b) }
{
    if b >= 0 && b < i128::from(width) {
        Some(b as u32)
    } else {
        None
    }
}
