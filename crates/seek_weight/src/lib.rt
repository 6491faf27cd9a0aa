//! How much the runs of a program within a bound weigh as a circuit that follows the segments of a witness, how many
//! bits they draw, and what a weight that isn't too big says of them.
#![tactic(auto)]

mod expressions;
mod laws;
mod limits;
mod statements;
mod tolls;
mod walk;

pub use laws::{decided_within_weight, draws_are_light, steps_are_light};
pub use limits::weigh;
