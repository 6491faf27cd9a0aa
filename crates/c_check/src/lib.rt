//! Names, types and the order of operands of a C source: its checked program, or its first refusal.
#![tactic(auto)]

mod checked;
mod checking;
mod laws;
mod main_function;
mod refusals;

pub use check_rules::{CheckCode, CheckFault};
pub use checking::check;
pub use laws::one_answer;
