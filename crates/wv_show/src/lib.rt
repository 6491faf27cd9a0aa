//! What `witval show` prints of a witness: `summary` writes exactly the lines that `specs/Show.antt` defines.
#![tactic(auto)]

mod claims;
mod entries;
mod words;

pub use entries::summary;
