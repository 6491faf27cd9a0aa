//! The runs that a circuit follows, in a mode: what a statement, another event, a violation and a loop do is the
//! mode's. In the mode of obligations they are havoc runs.
#![tactic(auto)]

mod laws;

pub use laws::havoc_runs_are_judged;
