// Type words in any order, and the type that they spell (C11 6.7.2).
ghost use Rattle.std.specs.Prelude.{◌≡◌, ◌+◌, ◌<◌, ◌^◌, ℕ, List, [], ◌∷◌, ◌++◌, slice_index};
ghost use Rattle.std.specs.Option.{option_map};
ghost use Rattle.c_parser.specs.Words.{TypeWord as Word, type_word, type_of};
ghost use Rattle.c_parser.specs.TypeCounts.{word_view, counted, number_of, first_type};

use c_core::IntType;

/// A word of a type (ISO C11 6.7.2).
#[derive(Clone, Copy, Debug)]
pub enum TypeWord {
    Void,
    Bool,
    Char,
    Short,
    Int,
    Long,
    Signed,
    Unsigned,
}

/// How often each type word stands among some, in their order above.
pub type WordCounts = [usize; 8];

type TypeRow = (WordCounts, Option<IntType>);

/// Every type by its words: void, _Bool, char, short, int, long, signed, unsigned.
static TYPES: [TypeRow; 28] = [
    ([1, 0, 0, 0, 0, 0, 0, 0], None),
    ([0, 1, 0, 0, 0, 0, 0, 0], Some(IntType::Bool)),
    ([0, 0, 1, 0, 0, 0, 0, 0], Some(IntType::Char)),
    ([0, 0, 1, 0, 0, 0, 1, 0], Some(IntType::SChar)),
    ([0, 0, 1, 0, 0, 0, 0, 1], Some(IntType::UChar)),
    ([0, 0, 0, 1, 0, 0, 0, 0], Some(IntType::Short)),
    ([0, 0, 0, 1, 1, 0, 0, 0], Some(IntType::Short)),
    ([0, 0, 0, 1, 0, 0, 1, 0], Some(IntType::Short)),
    ([0, 0, 0, 1, 1, 0, 1, 0], Some(IntType::Short)),
    ([0, 0, 0, 1, 0, 0, 0, 1], Some(IntType::UShort)),
    ([0, 0, 0, 1, 1, 0, 0, 1], Some(IntType::UShort)),
    ([0, 0, 0, 0, 0, 1, 0, 0], Some(IntType::Long)),
    ([0, 0, 0, 0, 1, 1, 0, 0], Some(IntType::Long)),
    ([0, 0, 0, 0, 0, 1, 1, 0], Some(IntType::Long)),
    ([0, 0, 0, 0, 1, 1, 1, 0], Some(IntType::Long)),
    ([0, 0, 0, 0, 0, 1, 0, 1], Some(IntType::ULong)),
    ([0, 0, 0, 0, 1, 1, 0, 1], Some(IntType::ULong)),
    ([0, 0, 0, 0, 0, 2, 0, 0], Some(IntType::LongLong)),
    ([0, 0, 0, 0, 1, 2, 0, 0], Some(IntType::LongLong)),
    ([0, 0, 0, 0, 0, 2, 1, 0], Some(IntType::LongLong)),
    ([0, 0, 0, 0, 1, 2, 1, 0], Some(IntType::LongLong)),
    ([0, 0, 0, 0, 0, 2, 0, 1], Some(IntType::ULongLong)),
    ([0, 0, 0, 0, 1, 2, 0, 1], Some(IntType::ULongLong)),
    ([0, 0, 0, 0, 1, 0, 0, 0], Some(IntType::Int)),
    ([0, 0, 0, 0, 0, 0, 1, 0], Some(IntType::Int)),
    ([0, 0, 0, 0, 1, 0, 1, 0], Some(IntType::Int)),
    ([0, 0, 0, 0, 0, 0, 0, 1], Some(IntType::UInt)),
    ([0, 0, 0, 0, 1, 0, 0, 1], Some(IntType::UInt)),
];

/// The type word that is spelled so.
pub fn type_word(word: &str) -> Option<TypeWord>
    ensures { option_map word_view result ≡ type_word word.now }
{
    match word {
        "void" => Some(TypeWord::Void),
        "_Bool" => Some(TypeWord::Bool),
        "char" => Some(TypeWord::Char),
        "short" => Some(TypeWord::Short),
        "int" => Some(TypeWord::Int),
        "long" => Some(TypeWord::Long),
        "signed" => Some(TypeWord::Signed),
        "unsigned" => Some(TypeWord::Unsigned),
        _ => None,
    }
}

/// Counts one more word.
pub fn count(counts: &mut WordCounts, word: TypeWord)
    requires { slice_index counts.old (number_of word) + 1 < 2 ^ 64 }
    ensures { (words : List Word) → counts.old ≡ counted words → counts.new ≡ counted (words ++ word_view word ∷ []) }
{
    counts[word as usize] += 1;
}

/// The type in the first row of these counts.
fn first_type(rows: &[TypeRow], counts: &WordCounts) -> Option<Option<IntType>>
    ensures { result ≡ first_type rows.now counts.now }
{
    for row in rows {
        if row.0 == *counts {
            return Some(row.1);
        }
    }
    None
}

/// The type that words of these counts spell, if they spell one.
pub fn type_of(counts: &WordCounts) -> Option<Option<IntType>>
    ensures { (words : List Word) → counts.now ≡ counted words → result ≡ type_of words }
{
    first_type(&TYPES, counts)
}
