//! The state of a havoc run, and what its smallest parts do to it: draws, cells, operators, calls, invariants.
#![tactic(auto)]

mod callees;
mod cells;
mod draws;
mod initial;
mod invariants;
mod loops;
mod machine;
mod parameters;
mod values;

pub use callees::{reach, returned};
pub use cells::draw_cells;
pub use draws::draw;
pub use initial::start;
pub use invariants::{arrive, assume, check};
pub use loops::{close, redraw};
pub use machine::{Ending, Halt, Machine};
pub use parameters::set_parameters;
pub use values::{
    bump, change, convert_to, element, element_in_row, look, operate, operate_one, store,
};
