//! What a witness says about its task: the property, the program's hash, the data model, identifiers and creation
//! times. `judge_task` gives the data model, or the first rule that an entry doesn't meet.
#![tactic(auto)]

mod fault;
mod judging;
mod property_text;
mod readings;

pub use fault::TaskFault;
pub use judging::judge_task;
pub use property_text::{NotProperty, property, specification};
pub use readings::{created, identifier};
