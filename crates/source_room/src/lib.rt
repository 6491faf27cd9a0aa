//! A source of the allowed length has few functions, so its runs have room.
#![tactic(auto)]

mod laws;

pub use laws::{
    functions_are_few, functions_take_tokens, runs_of_sources_have_room, tokens_are_few,
};
