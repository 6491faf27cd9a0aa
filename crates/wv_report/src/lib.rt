//! What the validator answers, as a value, as a report and as a status: `text` writes exactly the lines that
//! `specs/Report.antt` defines, `json` exactly the object of `specs/Json.antt`, and `status` tells the exit status.
//! `found` writes the lines of values that a search found.
#![tactic(auto)]

mod lines;
mod reply;
mod report;
mod values;
mod written;

pub use reply::{Reply, status};
pub use report::{found, json, text};
