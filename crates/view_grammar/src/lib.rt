//! What the text of a program lacks, in places of it: where no token begins, which token the grammar can't take, how
//! far an expression of a witness is one; and what to shrink in a program that isn't judged. The tokenizer and the
//! parser are asked, on fronts of the text.
#![tactic(auto)]

mod brackets;
mod constraint;
mod fronts;
mod grammar;
mod refused;
mod shrinking;
mod sources;
mod words;

pub use constraint::{Lack, is_read, lack_of, words_of};
pub use refused::{explain_syntax, explain_tokens};
pub use shrinking::{explain_recursion, explain_weight};
pub use sources::{Spelling, read_source};
pub use words::word_text;
