//! What an event of symbolic runs passes of a violation witness, and what it completes, as bits. Its one promise: under
//! every input the bits of completed segments become what the event of that run makes of them, and nothing else of the
//! state changes but its net, by no more and-nodes than the toll of the event's place pays for.
#![tactic(auto)]

mod event;
mod laws;
mod points;
mod returned;
mod segments;
mod spots;
mod telling;
mod violation;
mod ways;

pub use event::SymEvent;
pub use laws::tolls_pay;
pub use telling::tell;
pub use violation::{Violation, counts};
