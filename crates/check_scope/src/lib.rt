//! The names of C sources: what each word stands for where it is used, by indexes in place of walks.
#![tactic(auto)]

mod agreeing;
mod built_ins;
mod functions;
mod known;
mod line;
mod log;
mod meaning;
mod past;
mod table;

pub use built_ins::built_in;
pub use functions::Functions;
pub use known::{Known, Stated};
pub use meaning::Meaning;
pub use table::Table;
