//! YAML 1.2.2 in a block and flow profile: `read` gives the tree that bytes spell, or the exact reason why they give
//! none, `write` the canonical text of a tree, `quote` that of a scalar. What bytes spell a tree is defined in
//! `specs/`.
#![tactic(auto)]

mod block;
mod flow;
mod inline;
mod quoting;
mod reading;
mod repeats;
mod tree;
mod writing;

pub use quoting::{quote, quoted_reads_back};
pub use reading::{one_tree, read, spelled_is_computed};
pub use tree::{Pair, Tree};
pub use writing::{canonical_is_read, canonical_is_spelled, write};
pub use yaml_scalars::YamlFault;
