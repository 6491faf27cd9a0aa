//! A machine that steps the code of a program: it can be stopped and goes on, and keeps the program's calls in a
//! vector.
#![tactic(auto)]

mod acting;
mod arithmetic;
mod beginning;
mod calling;
mod compiled;
mod control;
mod drawing;
mod elements;
mod machine;
mod native;
mod operands;
mod operating;
mod results;
mod running;
mod stepping;

pub use compiled::{Code, compile};
pub use machine::Machine;
pub use running::run_machine;
