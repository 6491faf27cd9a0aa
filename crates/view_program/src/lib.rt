//! Why a program, a property and a witness were answered as they were, in places of their files. The stages of the
//! validator are called again, in its order, but for those that led to a program which its answer kept; what a stage
//! doesn't tell is looked for beside it, by its public calls. No answer comes from here: the reply is that of
//! `witval::run_keeping`, and this crate only says what a reader may look at.
#![tactic(auto)]

mod further;
mod items;
mod refusals;
mod sets;
mod stages;

pub use stages::{Question, explain};
