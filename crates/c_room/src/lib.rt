//! Where main reaches no cycle of calls, every run has room for its cells and its active calls.
#![tactic(auto)]

mod laws;

pub use laws::runs_have_room;
