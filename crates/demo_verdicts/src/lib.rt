//! What follows from the laws on demos: no stage of the validator refuses them, and the reply to the faulty one
//! confirms its violation.
#![tactic(auto)]

mod laws;

pub use laws::{
    correct_demos_are_judged, demonstrations_are_confirmed, faulty_demos_are_confirmed,
};
