//! Where operands without an order stand in a whole source (C11 6.5p2): the order rule of the parts of a source is that
//! of its typed trees, so the places that `check_sequencing` lists are those of the rule.
#![tactic(auto)]

mod bodies;
mod laws;
mod places;
mod walks;

pub use laws::{tests_find_unordered_parts, typed_trees_keep_order};
pub use places::unordered;
