// Values as their types have them, and operators in native arithmetic.
ghost use Rattle.std.specs.Prelude.{◌≡◌, IsTrue, IsFalse, IfSome};
ghost use Rattle.c_core.specs.Operators.{apply_of, apply_one_of};
ghost use Rattle.c_core.specs.Operators.{is_shift as is_shift_of};
ghost use Rattle.c_core.specs.declared.number.Done.TheVariants.{Value};
ghost use Rattle.c_core.specs.Types.{fit, in_range};
ghost use Rattle.c_core.specs.declared.number.DataModel.TheVariants.{Lp64};
ghost use Rattle.flow_code.specs.Words.{type_of_word};
ghost use Rattle.flow_laws.specs.Acting.{right_of};

use crate::native::{signed_32, signed_64, unsigned_32, unsigned_64};
use c_core::{BinOp, DataModel, Done, IntType, UnOp, apply, apply_one, fitted, is_shift};
use flow_code::Word;

// Whether a type that operators compute in has a value.
#[inline(always)]
fn has(word: Word, value: i128) -> bool
    ensures { result ≡ in_range Lp64 (type_of_word word) value }
{
    match word {
        Word::Signed32 => value >= -2147483648 && value < 2147483648,
        Word::Unsigned32 => value >= 0 && value < 4294967296,
        Word::Signed64 => value >= -9223372036854775808 && value < 9223372036854775808,
        Word::Unsigned64 => value >= 0 && value < 18446744073709551616,
    }
}

// Whether a value needn't be converted: it is asked only of types of 32 bits and more.
#[inline(always)]
fn is_kept(ty: IntType, value: i128) -> bool
    ensures { IsTrue result → IsTrue (in_range Lp64 ty value) }
{
    match ty {
        IntType::Int => has(Word::Signed32, value),
        IntType::UInt => has(Word::Unsigned32, value),
        IntType::Long | IntType::LongLong => has(Word::Signed64, value),
        IntType::ULong | IntType::ULongLong => has(Word::Unsigned64, value),
        _ => false,
    }
}

/// A value converted to a type of this machine.
#[inline(always)]
pub fn convert(ty: IntType, value: i128) -> i128
    ensures { result ≡ fit Lp64 ty value }
{
    if is_kept(ty, value) {
        value
    } else {
        c_core::convert(DataModel::Lp64, ty, value)
    }
}

// A value converted to a type that operators compute in, which hasn't it.
fn wrapped_in(word: Word, value: i128) -> i128
    ensures value { result ≡ fit Lp64 (type_of_word word) value }
    ensures range { IsTrue (in_range Lp64 (type_of_word word) result) }
{
    match word {
        Word::Signed32 => fitted(DataModel::Lp64, IntType::Int, value),
        Word::Unsigned32 => fitted(DataModel::Lp64, IntType::UInt, value),
        Word::Signed64 => fitted(DataModel::Lp64, IntType::LongLong, value),
        Word::Unsigned64 => fitted(DataModel::Lp64, IntType::ULongLong, value),
    }
}

// A value converted to a type that operators compute in.
#[inline(always)]
fn in_word(word: Word, value: i128) -> i128
    ensures value { result ≡ fit Lp64 (type_of_word word) value }
    ensures range { IsTrue (in_range Lp64 (type_of_word word) result) }
{
    if has(word, value) {
        value
    } else {
        wrapped_in(word, value)
    }
}

// Any operator over two values.
fn operate_on(op: BinOp, word: Word, a: i128, b: i128) -> Done
    requires left { IsTrue (in_range Lp64 (type_of_word word) a) }
    requires right { IsFalse (is_shift_of op) → IsTrue (in_range Lp64 (type_of_word word) b) }
    ensures { result ≡ apply_of Lp64 op (type_of_word word) a b }
{
    match word {
        Word::Signed32 => apply(DataModel::Lp64, op, IntType::Int, a, b),
        Word::Unsigned32 => apply(DataModel::Lp64, op, IntType::UInt, a, b),
        Word::Signed64 => apply(DataModel::Lp64, op, IntType::LongLong, a, b),
        Word::Unsigned64 => apply(DataModel::Lp64, op, IntType::ULongLong, a, b),
    }
}

// An operator as the processor does it, where it gives a value.
#[inline(always)]
fn quick(op: BinOp, word: Word, a: i128, b: i128) -> Option<i128>
    requires left { IsTrue (in_range Lp64 (type_of_word word) a) }
    requires right { IsTrue (in_range Lp64 (type_of_word word) b) }
    ensures { IfSome result (λ r. apply_of Lp64 op (type_of_word word) a b ≡ Value r) }
{
    match word {
        Word::Signed32 => signed_32(op, a as i32, b as i32),
        Word::Unsigned32 => unsigned_32(op, a as u32, b as u32),
        Word::Signed64 => signed_64(op, a as i64, b as i64),
        Word::Unsigned64 => unsigned_64(op, a as u64, b as u64),
    }
}

// An operator that isn't a shift.
#[inline(always)]
fn operate_in(op: BinOp, word: Word, left: i128, right: i128) -> Done
    requires { IsFalse (is_shift_of op) }
    ensures { result ≡ apply_of Lp64 op (type_of_word word) (fit Lp64 (type_of_word word) left)
        (fit Lp64 (type_of_word word) right) }
{
    let a = in_word(word, left);
    let b = in_word(word, right);
    match quick(op, word, a, b) {
        Some(value) => Done::Value(value),
        None => operate_on(op, word, a, b),
    }
}

// The value of an operator that isn't a shift, where the processor gives it.
#[inline(always)]
fn settle_in(op: BinOp, word: Word, left: i128, right: i128) -> Option<i128>
    requires { IsFalse (is_shift_of op) }
    ensures { IfSome result (λ r. apply_of Lp64 op (type_of_word word) (fit Lp64 (type_of_word word) left)
        (fit Lp64 (type_of_word word) right) ≡ Value r) }
{
    quick(op, word, in_word(word, left), in_word(word, right))
}

/// The value of an operator, where the processor gives it.
#[inline(always)]
pub fn settle(op: BinOp, word: Word, left: i128, count: Word, right: i128) -> Option<i128>
    ensures { IfSome result (λ r. apply_of Lp64 op (type_of_word word) (fit Lp64 (type_of_word word) left)
        (right_of op word count right) ≡ Value r) }
{
    if is_shift(op) {
        return None;
    }
    // each arm is compiled for its type
    match word {
        Word::Signed32 => settle_in(op, Word::Signed32, left, right),
        Word::Unsigned32 => settle_in(op, Word::Unsigned32, left, right),
        Word::Signed64 => settle_in(op, Word::Signed64, left, right),
        Word::Unsigned64 => settle_in(op, Word::Unsigned64, left, right),
    }
}

/// An operator that computes in a type.
#[inline(never)]
pub fn operate(op: BinOp, word: Word, left: i128, count: Word, right: i128) -> Done
    ensures { result ≡ apply_of Lp64 op (type_of_word word) (fit Lp64 (type_of_word word) left)
        (right_of op word count right) }
{
    if is_shift(op) {
        return operate_on(op, word, in_word(word, left), in_word(count, right));
    }
    // each arm is compiled for its type
    match word {
        Word::Signed32 => operate_in(op, Word::Signed32, left, right),
        Word::Unsigned32 => operate_in(op, Word::Unsigned32, left, right),
        Word::Signed64 => operate_in(op, Word::Signed64, left, right),
        Word::Unsigned64 => operate_in(op, Word::Unsigned64, left, right),
    }
}

/// A unary operator that computes in a type.
#[inline]
pub fn operate_one(op: UnOp, word: Word, value: i128) -> Done
    ensures { result ≡ apply_one_of Lp64 op (type_of_word word) (fit Lp64 (type_of_word word) value) }
{
    let a = in_word(word, value);
    match word {
        Word::Signed32 => apply_one(DataModel::Lp64, op, IntType::Int, a),
        Word::Unsigned32 => apply_one(DataModel::Lp64, op, IntType::UInt, a),
        Word::Signed64 => apply_one(DataModel::Lp64, op, IntType::LongLong, a),
        Word::Unsigned64 => apply_one(DataModel::Lp64, op, IntType::ULongLong, a),
    }
}
