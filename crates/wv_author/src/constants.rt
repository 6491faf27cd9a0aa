// The texts of values as constant expressions of C.
ghost use Rattle.std.specs.Prelude.{◌≡◌, ◌++◌, IfOk, codes};
ghost use Rattle.std.specs.Fmt.{signed_decimal};
ghost use Rattle.wv_author.specs.Authored.{result_text};

use std::alloc::Global;
use wv_base::{OutOfMemory, Text};

/// The largest value of a signed type (C11 5.2.4.2.1).
const LARGEST: i128 = 9223372036854775807;

/// A value that a signed type holds, as its negation is.
fn signed_text(alloc: Global, value: i128) -> Result<Text, OutOfMemory>
    ensures { IfOk result (λ text. text ≡ codes "\\result == " ++ signed_decimal value) }
{
    let text = format!(in alloc; "\\result == {value}")?;
    Text::of(alloc, text.as_str())
}

/// A value that an unsigned type alone holds.
fn unsigned_text(alloc: Global, value: i128) -> Result<Text, OutOfMemory>
    ensures { IfOk result (λ text. text ≡ codes "\\result == " ++ signed_decimal value ++ codes "ULL") }
{
    let text = format!(in alloc; "\\result == {value}ULL")?;
    Text::of(alloc, text.as_str())
}

/// An input call comes back with this value.
#[tactic(auto, using(crate::proofs::ConstantTexts::least_text, crate::proofs::ConstantTexts::signed_text, crate::proofs::ConstantTexts::unsigned_text))]
pub fn result_text(alloc: Global, value: i128) -> Result<Text, OutOfMemory>
    ensures { IfOk result (λ text. text ≡ result_text value) }
{
    if value < -9223372036854775807 {
        Text::of(alloc, "\\result == -9223372036854775807 - 1")
    } else if value > LARGEST {
        unsigned_text(alloc, value)
    } else {
        signed_text(alloc, value)
    }
}
