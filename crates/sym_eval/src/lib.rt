//! Programs are evaluated onto nets. Its one promise: the answer of `obligations` tells, under every input of its net,
//! at which obligation a havoc run ends and what it draws, and each havoc run is described by some inputs.
#![tactic(auto)]

mod assignments;
mod calls;
mod control;
mod declarations;
mod expressions;
mod loops;
mod parameters;
mod programs;
mod sites;
mod statements;
mod switches;
mod targets;

pub use programs::{obligations, whole};
