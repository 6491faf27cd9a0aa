//! What a machine that steps code takes at most: laws on the code of a program. Each function's code has a shape before
//! each of its operations, which is how many values and how many open scopes of its own there are then, and calls lead
//! from one function's code into another's; and a budget of steps pays no more than so many operations.
#![tactic(auto)]

mod laws;

pub use laws::{
    chains_are_bounded, code_is_paced, operations_are_paced, rooms_are_bounded, rooms_are_kept,
};
