//! How much a program weighs as a circuit, and the test that refuses it before any circuit is made.
#![tactic(auto)]

mod cost;
mod expressions;
mod functions;
mod laws;
mod limits;
mod placed;
mod reached;
mod statements;
mod table;
mod totals;

pub use expressions::{exit_weight, parameters_weight, weight_of};
pub use laws::{calls_outweigh, draws_are_light};
pub use limits::weigh;
pub use placed::{Weights, add_weight, weight_at};
pub use table::{bits_of_object, chooses, node_work, operation, returned, stored, tested};
pub use totals::Total;
