//! Decides one bit of a net, and reads off the draws that an answer shows. Its one promise: a bit that no inputs make
//! true has a log that refutes its clauses; else there are inputs that make it true, and the draws are those at the
//! sites that are live under them; or the log shows that the budget was spent.
#![tactic(auto)]

mod deciding;
mod draws;

pub use deciding::{Finding, decide_bit, is_false};
pub use draws::draws_under;
