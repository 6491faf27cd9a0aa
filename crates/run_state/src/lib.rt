//! The state of a run of a checked program, and what its smallest parts do to it: steps, events, draws, cells,
//! operators, calls.
#![tactic(auto, using(crate::proofs::Giving::is_here, crate::proofs::Giving::is_on_front, crate::proofs::Giving::is_on_back))]

mod arms;
mod callees;
mod cells;
mod choices;
mod draws;
mod initial;
mod machine;
mod parameters;
mod steps;
mod values;

pub use arms::{arm_for, select};
pub use callees::{input, is_needed, reach, returned};
pub use cells::{add_cells, add_started, draw_cells, ticks};
pub use choices::{all_left, count_unfixed, take_choice};
pub use draws::draw;
pub use initial::start;
pub use machine::{Around, CallSite, Element, Flow, Halt, Left, LeftAt, Machine, Typed};
pub use parameters::set_parameters;
pub use steps::{arrive, branch, one_more, room, tell, tick, violate};
pub use values::{
    bump, change, columns_of_object, convert_to, element, element_in_row, gave, look, operate,
    operate_one, store,
};
