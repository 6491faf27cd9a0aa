//! What witnesses name in a checked program: places, targets, calls and statements.
#![tactic(auto)]

mod aims;
mod before;
mod calls;
mod expressions;
mod first;
mod fulls;
mod index;
mod inputs;
mod leftmost;
mod listed;
mod neighbours;
mod order;
mod place;
mod switches;
mod tests;

pub use before::stmt_before;
pub use expressions::{aim_fits, call_at, is_same};
pub use first::found_at;
pub use index::Index;
pub use inputs::{InputCall, input_calls, input_of};
pub use listed::places;
pub use order::sort_by_spot;
pub use place::place_at;
pub use switches::switch_at;
