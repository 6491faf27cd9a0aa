//! Elements of arrays over a symbolic state: where each run is in an array, what it reads there, and what it stores.
//! Its one promise: each call does to every run that is here what the definition of runs does, within the nodes that an
//! element may cost.
#![tactic(auto)]

mod finding;
mod marks;
mod placing;
mod reading;
mod writing;

pub use finding::{find, find_in_row};
pub use placing::{Places, columns_of_object, place_index, place_row};
pub use reading::{read_among, read_element};
pub use writing::{store_element, write_element};
