// Type names (C11 6.7.7).
ghost use Rattle.std.specs.Prelude.{◌≡◌, ◌+◌, ◌<◌, ◌^◌, ◌++◌, ℕ, List, slice_index, Some};
ghost use Rattle.c_parser.specs.ReadExpressions.{name_words, part_of_name};
ghost use Rattle.c_parser.specs.Signs.{word_of, word_at};
ghost use Rattle.c_parser.specs.Words.{TypeWord as Word};
ghost use Rattle.c_parser.specs.TypeCounts.{counted, number_of};
ghost use Rattle.c_parser.specs.Gives.{part_view, part_words};
ghost use Rattle.c_parser.specs.declared.type_words.TypeWord.{TypeWord as RawWord};

use crate::look::behind;
use crate::type_words::{TypeWord, WordCounts, count, type_word};
use crate::words::is_spelled;
use c_tokens::{Token, TokenKind};

/// What a word is in a type name: a type word, `const`, or none.
fn part_of_name(word: &str) -> Option<Option<TypeWord>>
    ensures { part_view result ≡ part_of_name (Some word.now) }
{
    if is_spelled(b"const", word.as_bytes()) {
        return Some(None);
    }
    match type_word(word) {
        Some(found) => Some(Some(found)),
        None => None,
    }
}

/// What the first token is in a type name.
fn first_part(tokens: &[Token]) -> Option<Option<TypeWord>>
    ensures { part_view result ≡ part_of_name (word_at tokens.now) }
{
    match tokens {
        [first, ..] => match &first.kind {
            TokenKind::Word(word) => part_of_name(word.as_str()),
            _ => None,
        },
        [] => None,
    }
}

/// Counts a part of a type name.
fn count_part(counts: &mut WordCounts, part: Option<TypeWord>)
    requires { (w : RawWord) → slice_index counts.old (number_of w) + 1 < 2 ^ 64 }
    ensures { (words : List Word) → counts.old ≡ counted words → counts.new ≡ counted (words ++ part_words part) }
{
    match part {
        Some(word) => count(counts, word),
        None => {}
    }
}

/// How often each type word stands in the type name at the front, and the tokens after it.
pub fn name_words(tokens: &[Token]) -> (WordCounts, &[Token])
    ensures words { result.0 ≡ counted (name_words tokens.now).0 }
    ensures rest { result.1.now ≡ (name_words tokens.now).1 }
{
    let mut counts = [0; 8];
    let mut rest = tokens;
    let total = tokens.len();
    for _passed in 0..total {
        let Some(part) = first_part(rest) else {
            return (counts, rest);
        };
        count_part(&mut counts, part);
        rest = behind(rest);
    }
    (counts, rest)
}
