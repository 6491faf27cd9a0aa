ghost use Rattle.std.specs.Prelude.{◌≡◌, length, slice_get};
ghost use Rattle.c_core.specs.Typing;
ghost use Rattle.check_rules.specs.Codes;
ghost use Rattle.check_scope.specs.Kinds.{types_in, types_stated};

use crate::known::Stated;
use c_core::IntType;

fn same_type(one: IntType, other: IntType) -> bool
    ensures { result ≡ Typing.same_type one other }
{
    one == other
}

/// Whether two results are of the same type, or both void.
pub fn same_result(one: Option<IntType>, other: Option<IntType>) -> bool
    ensures { result ≡ Typing.same_types one other }
{
    match (one, other) {
        (None, None) => true,
        (Some(one), Some(other)) => same_type(one, other),
        _ => false,
    }
}

/// How many parameters are stated.
pub fn count(stated: Stated) -> usize
    ensures { result ≡ length (types_in stated.entry) }
{
    match stated {
        Stated::Unstated => 0,
        Stated::Types(types) => types.len(),
        Stated::Parameters(parameters) => parameters.len(),
    }
}

fn type_at(stated: Stated, at: usize) -> Option<IntType>
    ensures { result ≡ slice_get (types_in stated.entry) at }
{
    match stated {
        Stated::Unstated => None,
        Stated::Types(types) => types.get(at).copied(),
        Stated::Parameters(parameters) => match parameters.get(at) {
            Some(parameter) => Some(parameter.ty),
            None => None,
        },
    }
}

fn same_types(one: Stated, other: Stated) -> bool
    ensures { result ≡ Codes.same_lists (types_in one.entry) (types_in other.entry) }
{
    let count = count(one);
    for at in 0..count {
        if !same_result(type_at(one, at), type_at(other, at)) {
            return false;
        }
    }
    type_at(other, count).is_none()
}

/// Whether parameters that both state are of the same types.
pub fn agree(one: Stated, other: Stated) -> bool
    ensures { result ≡ Codes.agree (types_stated one.entry) (types_stated other.entry) }
{
    match (one, other) {
        (Stated::Unstated, _) | (_, Stated::Unstated) => true,
        _ => same_types(one, other),
    }
}
