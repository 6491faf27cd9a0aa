//! The forms of expressions over symbolic states. Its one promise, for each form: where the calls for its parts keep
//! theirs, each run that is here goes on, fails or ends as the definition of judged runs says, and the value is the bits'
//! number, at no more and-nodes than the expression weighs.
#![tactic(auto)]

mod parts;

pub use parts::{is_prefix, kept_if};
