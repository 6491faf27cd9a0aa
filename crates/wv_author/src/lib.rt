//! Programs with witnesses, made from a number, and witnesses made from input values: `demo` gives the programs, and
//! the witnesses about them, that `specs/Demo.antt` defines for the number; `author` gives the segments of the run that
//! takes values in turn, as `specs/Authored.antt` defines them, `read_values` reads the values, and `authored` makes
//! the witness.
#![tactic(auto)]

mod authoring;
mod constants;
mod making;
mod programs;
mod recording;
mod segments;
mod sequence;
mod values;
mod witnesses;
mod writing;

pub use authoring::{AuthorFault, author};
pub use making::{Made, demo};
pub use values::{ValuesFault, one_list_of_values, read_values};
pub use writing::authored;
