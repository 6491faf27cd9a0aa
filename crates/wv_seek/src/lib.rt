//! Values for the open inputs of a violation witness. Its one promise: what is found was run and matched, nothing is
//! answered only where no values are sought within the bound, and a program is refused exactly where its runs within
//! the bound weigh too much.
#![tactic(auto)]

mod fault;
mod seeking;
mod sites;
mod unrolling;

pub use fault::SeekFault;
pub use seek_answer::{Reach, Sought};
pub use seeking::seek;
pub use unrolling::unroll;
