//! Sets of invariants that are inductive together, and the greatest of them.
#![tactic(auto)]

mod laws;

pub use laws::{
    all_are_picked, as_many_are_picked, duties_name_invariants, failures_drop,
    parts_stay_invariants, unions_are_inductive,
};
