ghost use Rattle.std.specs.Prelude.{◌≡◌};
ghost use Rattle.std.specs.Option.{option_map};
ghost use Rattle.check_rules.specs.Names;
ghost use Rattle.check_scope.specs.Kinds.{kind_of, meaning_of};

use crate::known::Known;
use c_core::{Callee, IntType};

/// What a word stands for, as far as expressions ask.
#[derive(Clone, Copy, Debug, PartialEq, Eq)]
pub enum Meaning {
    Object {
        number: u32,
        ty: IntType,
        dims: u8,
        fixed: bool,
    },
    /// With its result.
    Function(Option<IntType>),
    /// Of a closed item.
    Closed,
}

fn of_callee(callee: Callee) -> Meaning
    ensures { result ≡ meaning_of (Names.kind_of_callee callee) }
{
    match callee {
        Callee::Input(ty) => Meaning::Function(Some(ty)),
        _ => Meaning::Function(None),
    }
}

fn of_known(known: Known) -> Meaning
    ensures { result ≡ meaning_of (kind_of known.entry) }
{
    match known {
        Known::Object {
            number,
            ty,
            dims,
            fixed,
        } => Meaning::Object {
            number,
            ty,
            dims,
            fixed,
        },
        Known::Function { result, .. } => Meaning::Function(result),
        Known::Closed => Meaning::Closed,
    }
}

/// A declared object hides a built-in function; what else is declared by its name says nothing new.
pub fn or_built_in(declared: Option<Known>, built: Option<Callee>) -> Option<Meaning>
    ensures { result ≡ option_map meaning_of (Names.or_built_in (option_map kind_of declared.entry) built) }
{
    match (declared, built) {
        (Some(Known::Object { .. }), _) | (_, None) => declared.map(of_known),
        (_, Some(callee)) => Some(of_callee(callee)),
    }
}
