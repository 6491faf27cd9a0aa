ghost use Rattle.std.specs.Prelude.{◌≡◌};
ghost use Rattle.check_rules.specs.Names;

use c_core::{Callee, IntType};

/// A built-in function by its name: the input functions, and those that end a run.
pub fn built_in(name: &str) -> Option<Callee>
    ensures { result ≡ Names.built_in name.now }
{
    match name {
        "__VERIFIER_nondet_bool" => Some(Callee::Input(IntType::Bool)),
        "__VERIFIER_nondet_char" => Some(Callee::Input(IntType::Char)),
        "__VERIFIER_nondet_uchar" => Some(Callee::Input(IntType::UChar)),
        "__VERIFIER_nondet_short" => Some(Callee::Input(IntType::Short)),
        "__VERIFIER_nondet_ushort" => Some(Callee::Input(IntType::UShort)),
        "__VERIFIER_nondet_int" => Some(Callee::Input(IntType::Int)),
        "__VERIFIER_nondet_uint" => Some(Callee::Input(IntType::UInt)),
        "__VERIFIER_nondet_unsigned" => Some(Callee::Input(IntType::UInt)),
        "__VERIFIER_nondet_long" => Some(Callee::Input(IntType::Long)),
        "__VERIFIER_nondet_ulong" => Some(Callee::Input(IntType::ULong)),
        "__VERIFIER_nondet_longlong" => Some(Callee::Input(IntType::LongLong)),
        "__VERIFIER_nondet_ulonglong" => Some(Callee::Input(IntType::ULongLong)),
        "reach_error" => Some(Callee::ReachError),
        "abort" => Some(Callee::Abort),
        "exit" => Some(Callee::Exit),
        _ => None,
    }
}
