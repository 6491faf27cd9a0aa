//! Laws on what `wv_author` makes: the tokens and the items of the programs of a demo.
#![tactic(auto)]

mod laws;

pub use laws::{demos_are_parsed, demos_are_sources, demos_are_tokens, demos_have_bounds};
