// What is read from the front of tokens.
use crate::fault::Unread;
use c_tokens::Token;

/// What the front of tokens spells, and the tokens after it.
pub type Read<'a, T> = Result<(T, &'a [Token]), Unread>;
