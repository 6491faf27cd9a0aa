//! Where a program draws: its input calls, the cells of its automatic objects without initializer and what its loops
//! change, in main and in the functions that main reaches. Its one promise: each place that is listed is one of these.
#![tactic(auto)]

mod inputs;
mod places;
mod program;
mod statements;

pub use places::{DrawPlace, is_listed};
pub use program::draws;
