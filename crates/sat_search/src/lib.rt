//! A search for values that satisfy clauses, or for a refutation, as MiniSat makes it. It has contracts that it is
//! safe, and none on what it finds: who calls it checks that.
#![tactic(auto)]

mod arena;
mod cells;
mod conflict;
mod hints;
mod learn;
mod lit;
mod order;
mod places;
mod reduce;
mod restart;
mod search;
mod values;
mod watches;

pub use cells::filled;
pub use hints::weights_of_first;
pub use search::{Learner, Outcome, Step, find};
