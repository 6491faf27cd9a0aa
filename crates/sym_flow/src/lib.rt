//! Statements over a symbolic state: ways out and back together, cells that come and go, tests of invariants, draws of
//! many cells. Its one promise: each call takes every run that is here to where the definition of judged runs takes it,
//! and lets all others be.
#![tactic(auto)]

mod calling;
mod declaring;
mod drawing;
mod scopes;
mod testing;
mod ways;

pub use calling::{Caller, Given, come_back, enter, need};
pub use declaring::declare;
pub use drawing::{draw_cells, redraw};
pub use scopes::{cut, end_body, end_loop, start_body, start_loop};
pub use testing::{assume, assure};
pub use ways::{give, go_again, go_back, leave_loop};
