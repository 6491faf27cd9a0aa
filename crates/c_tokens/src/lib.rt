//! The tokens of a C source text: each is the longest that stands at its place, and a text that is no list of tokens
//! is refused at the first place where that shows.
#![tactic(auto)]

mod bytes;
mod gap;
mod laws;
mod leading;
mod number;
mod piece;
mod place;
mod quoted;
mod reading;
mod sign;
mod token;

pub use laws::{one_outcome, some_outcome};
pub use leading::lead;
pub use place::{Place, first_place, place_past};
pub use reading::{plain_tokens, plain_tokens_from, tokens};
pub use token::{Punct, Token, TokenFault, TokenKind};
