//! Judges obligations that stand as failing bits of a net: each in its order by its own clauses. Its one promise: the
//! answer is the right verdict on the program's invariants, and it is undecided only where the log shows that the
//! budget was spent. `judge_logged` keeps besides the log that shows each obligation, where all hold.
#![tactic(auto)]

mod asking;
mod judging;
mod laws;
mod logged;

pub use judging::{Judged, decide};
pub use laws::{failing_bits_tell, one_answer};
pub use logged::{Logged, judge_logged};
