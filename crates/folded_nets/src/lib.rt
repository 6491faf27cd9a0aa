//! A net copied node by node into a smaller one, folded by what is known to be never true. Its one promise: under all
//! inputs a copy has the value of the node that it is copied from.
#![tactic(auto)]

mod folded;
mod pairs;
#[cfg(test)]
mod tests;

pub use folded::FoldedNet;
