// What words stand for.
ghost use Rattle.std.specs.Prelude.{◌≡◌, Some, length};
ghost use Rattle.std.specs.Option.{option_map};
ghost use Rattle.c_core.specs.declared.number.DataModel.{DataModel};
ghost use Rattle.c_parser.specs.View.{node_view};
ghost use Rattle.check_rules.specs.Codes as codes;
ghost use Rattle.check_rules.specs.Names as names;
ghost use Rattle.check_scope.specs.InScope.{all_of};
ghost use Rattle.check_scope.specs.declared.meaning.Meaning.TheVariants.{Function};
ghost use Rattle.check_scope.specs.Sources.{items_of};
ghost use Rattle.check_types.specs.Words.{no_word, word_of, word_as, word_at};

use c_core::{Callee, IntType};
use c_parser::RawNode;
use check_scope::{Functions, Meaning, Table, built_in};

// The number of no object.
const NO_OBJECT: u32 = 4_294_967_295;

/// What expressions ask of a word. What is unknown counts as an `int`, and is no function.
#[derive(Clone, Copy)]
pub struct Word {
    pub number: u32,
    pub ty: IntType,
    pub result: Option<IntType>,
    pub is_nameless: bool,
    pub is_no_scalar: bool,
    pub is_no_array: bool,
    pub dims: u8,
    pub is_function: bool,
}

// Nothing is wrong where no word stands.
fn no_word() -> Word
    ensures { result ≡ no_word }
{
    Word {
        number: NO_OBJECT,
        ty: IntType::Int,
        result: Some(IntType::Int),
        is_nameless: false,
        is_no_scalar: false,
        is_no_array: false,
        dims: 0,
        is_function: false,
    }
}

// The word of a function with this result.
fn of_function(gives: Option<IntType>) -> Word
    ensures { result ≡ word_of (Some (Function gives)) }
{
    Word {
        result: gives,
        is_no_scalar: true,
        is_no_array: true,
        is_function: true,
        ..no_word()
    }
}

// A word by its meaning.
fn word_of(meaning: Option<Meaning>) -> Word
    ensures { result ≡ word_of meaning }
{
    match meaning {
        None => Word {
            is_nameless: true,
            ..no_word()
        },
        Some(
            Meaning::Object {
                number,
                ty,
                dims,
                ..
            },
        ) => Word {
            number,
            ty,
            is_no_scalar: dims != 0,
            is_no_array: dims == 0,
            dims,
            ..no_word()
        },
        Some(Meaning::Function(gives)) => of_function(gives),
        Some(Meaning::Closed) => of_function(Some(IntType::Int)),
    }
}

// What a name stands for.
fn word_named(table: &Table, name: &str) -> Word
    ensures { result ≡ word_as (names.named (all_of table.now) name.now) }
{
    word_of(table.meaning(name))
}

// The name that an expression uses itself.
fn name_in(node: &RawNode) -> Option<&str>
    ensures { option_map (λ name. name.now) result ≡ codes.word_of (node_view node.now) }
{
    match node {
        RawNode::Var { name, .. } => Some(name.as_str()),
        RawNode::Index { object, .. } => Some(object.as_str()),
        RawNode::Call { callee, .. } => Some(callee.as_str()),
        _ => None,
    }
}

/// The word of an expression, where it has one.
pub fn word_at(table: &Table, node: &RawNode) -> Word
    ensures { result ≡ word_at (all_of table.now) (codes.word_of (node_view node.now)) }
{
    match name_in(node) {
        Some(name) => word_named(table, name),
        None => no_word(),
    }
}

// How many parameters a built-in function has.
fn parameters_of(callee: Callee) -> usize
    ensures { result ≡ length (names.parameters_of_callee callee) }
{
    match callee {
        Callee::Exit => 1,
        _ => 0,
    }
}

/// How many arguments a call of this name has, where that is known.
pub fn count_for(functions: &Functions, table: &Table, name: &str) -> Option<usize>
    ensures { (m : DataModel) → result
        ≡ codes.count_for m (items_of functions.now) (names.built_in name.now) (all_of table.now) name.now }
{
    match built_in(name) {
        Some(callee) => Some(parameters_of(callee)),
        None => {
            match table.count_stated(name) {
                Some(count) => Some(count),
                None => functions.count_defined(name),
            }
        }
    }
}
