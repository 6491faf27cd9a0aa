//! What the parts of a program cost on a circuit, by the scale of a mode. Its one promise: by the scale of obligations
//! each function's body costs what it weighs.
#![tactic(auto)]

mod laws;

pub use laws::obligations_cost_their_weight;
