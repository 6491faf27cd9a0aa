// Widths, conversions and common types (C11 6.2.5, 6.3.1).
ghost use Rattle.std.specs.Prelude.{◌≡◌, ◌<◌, ◌≤◌, ◌^◌};
ghost use Rattle.c_core.specs.Types.{width_of, is_signed, fit, promote_of, rank_of, unsigned_of, mixed, common_of, residue, signed_of, wrapped};

use crate::number::{DataModel, IntType};

/// How many bits a value of the type has.
pub fn width(model: DataModel, ty: IntType) -> u32
    ensures { result ≡ width_of model ty }
{
    match ty {
        IntType::Bool => 1,
        IntType::Char | IntType::SChar | IntType::UChar => 8,
        IntType::Short | IntType::UShort => 16,
        IntType::Int | IntType::UInt => 32,
        IntType::Long | IntType::ULong => {
            match model {
                DataModel::Ilp32 => 32,
                DataModel::Lp64 => 64,
            }
        }
        IntType::LongLong | IntType::ULongLong => 64,
    }
}

/// Whether the type has negative values; `char` does.
pub fn signed(ty: IntType) -> bool
    ensures { result ≡ is_signed ty }
{
    match ty {
        IntType::Char
        | IntType::SChar
        | IntType::Short
        | IntType::Int
        | IntType::Long
        | IntType::LongLong => true,
        _ => false,
    }
}

/// The value that `v` has once it is converted to the type.
pub fn convert(model: DataModel, ty: IntType, v: i128) -> i128
    ensures { result ≡ fit model ty v }
{
    match ty {
        IntType::Bool => i128::from(v != 0),
        _ => wrap(width(model, ty), signed(ty), v),
    }
}

// The number of the type of `bits` bits that is congruent to v.
fn wrap(bits: u32, signed: bool, v: i128) -> i128
    requires some { 0 < bits }
    requires few { bits ≤ 64 }
    ensures { result ≡ wrapped bits signed v }
{
    let low = low_bits(bits, v);
    if signed {
        in_twos_complement(bits, low)
    } else {
        i128::from(low)
    }
}

// A number of `bits` bits, read in two's complement.
fn in_twos_complement(bits: u32, low: u64) -> i128
    requires some { 0 < bits }
    requires few { bits ≤ 64 }
    requires below { low < 2 ^ bits }
    ensures { result ≡ signed_of bits low }
{
    if low < 1u64 << (bits - 1) {
        i128::from(low)
    } else {
        i128::from(low) - (1i128 << bits)
    }
}

// The lowest bits of v in two's complement.
fn low_bits(bits: u32, v: i128) -> u64
    requires { bits ≤ 64 }
    ensures value { result ≡ residue bits v }
    ensures bound { result < 2 ^ bits }
{
    (v.cast_unsigned() & ((1u128 << bits) - 1)) as u64
}

/// The type of a value after integer promotion.
pub fn promote(_model: DataModel, ty: IntType) -> IntType
    ensures { result ≡ promote_of ty }
{
    match ty {
        IntType::UInt | IntType::Long | IntType::ULong | IntType::LongLong | IntType::ULongLong =>
            ty,
        _ => IntType::Int,
    }
}

/// The type in which two values meet, by the usual arithmetic conversions.
pub fn common(model: DataModel, a: IntType, b: IntType) -> IntType
    ensures { result ≡ common_of model a b }
{
    let a = promote(model, a);
    let b = promote(model, b);
    match (signed(a), signed(b)) {
        (true, false) => meet(model, a, b),
        (false, true) => meet(model, b, a),
        _ => { if rank(a) <= rank(b) { b } else { a } }
    }
}

// The common type of a signed and an unsigned promoted type.
fn meet(model: DataModel, s: IntType, u: IntType) -> IntType
    ensures { result ≡ mixed model s u }
{
    if rank(s) <= rank(u) {
        u
    } else if width(model, u) < width(model, s) {
        s
    } else {
        partner(s)
    }
}

// The rank of a promoted type.
fn rank(ty: IntType) -> u8
    ensures { result ≡ rank_of ty }
{
    match ty {
        IntType::LongLong | IntType::ULongLong => 3,
        IntType::Long | IntType::ULong => 2,
        _ => 1,
    }
}

// The unsigned type of a promoted type's rank.
fn partner(ty: IntType) -> IntType
    ensures { result ≡ unsigned_of ty }
{
    match ty {
        IntType::LongLong | IntType::ULongLong => IntType::ULongLong,
        IntType::Long | IntType::ULong => IntType::ULong,
        _ => IntType::UInt,
    }
}
