//! How often a run comes to each line of its program, as gcov counts it: the lines on which a compiler makes code, and
//! the events of the run that come to them.
#![tactic(auto)]

mod code_lines;
mod counts;
mod parts;

pub use counts::Counts;
pub use parts::open_parts;
