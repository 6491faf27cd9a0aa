//! Whether a constraint of a waypoint holds in a memory: comparisons of objects and constants joined by `&&` and `||`
//! are lists of steps, made once and taken at each event, or computed at once; what else there is as an expression's
//! value.
#![tactic(auto)]

mod answer;
mod compile;
mod number;
mod step;
mod truth;
mod value;

pub use answer::holds_by;
pub use compile::compiled;
pub use step::{Operand, Step};
pub use truth::holds;
