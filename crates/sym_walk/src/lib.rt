//! What a walk over a program reads, and what it does where runs have an event. Its one promise: in each mode the runs
//! that are here do what the mode's meaning says of a statement, of another event and of a violation, for no more
//! and-nodes than the mode's scale says. In the mode of obligations an event that is no statement's adds none.
#![tactic(auto)]

mod hooks;
mod violations;
mod walk;

pub use hooks::{begin, tell_branch, tell_choice, tell_enter, tell_return, tell_value};
pub use violations::{around, operate, operate_one, reach};
pub use walk::{Judging, Seeking, Walk};
