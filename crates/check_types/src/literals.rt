// Types of integer constants (C11 6.4.4.1p5).
ghost use Rattle.std.specs.Prelude.{◌≡◌, ◌++◌, List, pos};
ghost use Rattle.c_core.specs.Types.{in_range};
ghost use Rattle.c_core.specs.declared.number.IntType.{IntType as NumberType};
ghost use Rattle.check_rules.specs.Constants as constants;

use c_core::{DataModel, IntType, convert};

// Is this a value of the type?
fn holds(model: DataModel, ty: IntType, value: u64) -> bool
    ensures { result ≡ in_range model ty (pos value) }
{
    let value = i128::from(value);
    convert(model, ty, value) == value
}

// The first type of one rank that holds the value, or else that of a higher rank.
fn of_rank(
    model: DataModel,
    value: u64,
    decimal: bool,
    with_u: bool,
    signed: IntType,
    unsigned: IntType,
    higher: Option<IntType>,
) -> Option<IntType>
    ensures { (tys : List NumberType) → higher ≡ constants.first_that_holds model value tys → result
        ≡ constants.first_that_holds model value
        (constants.of_rank decimal with_u (record { signed = signed; unsigned = unsigned }) ++ tys) }
{
    if !with_u && holds(model, signed, value) {
        Some(signed)
    } else if (with_u || !decimal) && holds(model, unsigned, value) {
        Some(unsigned)
    } else {
        higher
    }
}

/// The type of an integer constant, the first of its list that holds the value.
pub fn constant_type(
    model: DataModel,
    value: u64,
    decimal: bool,
    unsigned: bool,
    longs: u8,
) -> Option<IntType>
    ensures { result ≡ constants.constant_type model value decimal unsigned longs }
{
    if longs > 2 {
        return None;
    }
    let long_long = of_rank(
        model,
        value,
        decimal,
        unsigned,
        IntType::LongLong,
        IntType::ULongLong,
        None,
    );
    if longs == 2 {
        return long_long;
    }
    let long = of_rank(
        model,
        value,
        decimal,
        unsigned,
        IntType::Long,
        IntType::ULong,
        long_long,
    );
    if longs == 1 {
        return long;
    }
    of_rank(
        model,
        value,
        decimal,
        unsigned,
        IntType::Int,
        IntType::UInt,
        long,
    )
}
