//! What the evaluator of programs gives a search: all runs that seek within a bound, over one net. Its one promise:
//! under each input the state tells of the run that draws what the input says, and its one failing bit is the hit.
#![tactic(auto)]

mod walk;

pub use walk::sought;
