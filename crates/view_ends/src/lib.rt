//! What becomes of the run that a violation sequence gives: it ends without a violation, it violates the property
//! otherwise than the segments say, or it is confirmed; and which values it drew, for which objects, given by what.
#![tactic(auto)]

mod confirmed;
mod counted;
mod draws;
mod ended;
mod stored;
mod unfit;
mod unmatched;

pub use confirmed::show_run;
pub use counted::count_lines;
pub use draws::note_unfixed;
pub use ended::explain_ended;
pub use unmatched::explain_unmatched;
