// Types as the processor has them, whatever the data model.
ghost use Rattle.std.specs.Prelude.{◌≡◌};
ghost use Rattle.c_core.specs.Types.{IsPromoted};
ghost use Rattle.flow_code.specs.Words as spec;

use crate::code::Word;
use c_core::{DataModel, IntType, signed, width};

// By sign, and by whether it has 64 bits.
fn word_by(signed: bool, wide: bool) -> Word
    ensures { result ≡ spec.word_by signed wide }
{
    match (signed, wide) {
        (true, true) => Word::Signed64,
        (false, true) => Word::Unsigned64,
        (true, false) => Word::Signed32,
        (false, false) => Word::Unsigned32,
    }
}

/// The type that operators of a promoted type compute in.
pub fn word_of(model: DataModel, ty: IntType) -> Word
    ensures { result ≡ spec.word_of model ty }
{
    word_by(signed(ty), width(model, ty) == 64)
}

/// The type that such a type is where `long` has 64 bits.
pub fn type_of_word(word: Word) -> IntType
    ensures value { result ≡ spec.type_of_word word }
    ensures promoted { IsPromoted result }
{
    match word {
        Word::Signed32 => IntType::Int,
        Word::Unsigned32 => IntType::UInt,
        Word::Signed64 => IntType::LongLong,
        Word::Unsigned64 => IntType::ULongLong,
    }
}

// `long` has 32 bits in one of the models.
fn native_ilp32(ty: IntType) -> IntType
    ensures { result ≡ spec.native_ilp32 ty }
{
    match ty {
        IntType::Long => IntType::Int,
        IntType::ULong => IntType::UInt,
        _ => ty,
    }
}

/// The type that a type is where `long` has 64 bits.
pub fn native(model: DataModel, ty: IntType) -> IntType
    ensures { result ≡ spec.native model ty }
{
    match model {
        DataModel::Ilp32 => native_ilp32(ty),
        DataModel::Lp64 => ty,
    }
}

/// The same, where there is one.
pub fn native_if(model: DataModel, ty: Option<IntType>) -> Option<IntType>
    ensures { result ≡ spec.native_if model ty }
{
    match ty {
        None => None,
        Some(ty) => Some(native(model, ty)),
    }
}
