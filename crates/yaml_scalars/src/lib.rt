//! Scalars of YAML 1.2.2 (7.3 and 8.1): plain, quoted and block scalars, and the tokens of flow collections. Each
//! reader gives what the definition in `specs/` gives, or `Grammar`.
#![tactic(auto)]

mod block_scalar;
mod fault;
mod header;
mod plain;
mod quoted;
mod token;
mod tokens;

pub use block_scalar::push_block;
pub use fault::YamlFault;
pub use plain::{cut_len, is_plain_start, push_chars, push_plain};
pub use quoted::push_quoted;
pub use token::Token;
pub use tokens::{is_quote_char, is_quoted_start, is_short, read_tokens};
