//! Machines that step code, as definitions, and the law that they run programs: the code of a program ends as the
//! program's run does, in the same state, with the same events.
#![tactic(auto)]

mod frame;
mod laws;

pub use frame::Frame;
pub use laws::code_is_simulated;
