//! The rules of names, types and order of operands in C sources, as definitions: which parts of a source are refused,
//! by which code and where; which refusal is the first; the program of a source that isn't refused.
#![tactic(auto)]

mod fault;
mod noting;
mod role;
mod sizes;
mod within;

pub use fault::{CheckCode, CheckFault, Refusal};
pub use noting::noted;
pub use role::Role;
pub use sizes::Sizes;
pub use within::Within;
