//! What becomes of a witness's claims about a checked program: a violation sequence whose run is as it says or isn't, an
//! obligation of invariant sets that fails, that isn't decided or that holds.
#![tactic(auto)]

mod obligations;
mod seeking;
mod shell;
mod undecided;
mod verdict;
mod violation;
mod weeding;

pub use obligations::note_obligation;
pub use undecided::Size;
pub use verdict::{explain_verdict, show_obligations};
pub use violation::explain_sequence;
