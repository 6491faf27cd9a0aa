//! The parts of a source gone through: the typed program of it, and its first refusal. Each name, type, size, label and
//! jump is judged where it stands; the walk never stops at a refusal, but keeps the first so far.
#![tactic(auto)]

mod arm_labels;
mod arms;
mod context;
mod declaring;
mod forms;
mod full;
mod functions;
mod globals;
mod items;
mod jumps;
mod label;
mod labels;
mod naming;
mod parameters;
mod scopes;
mod sizes;
mod source;
mod statements;
mod walk;

pub use source::{Walked, walk_source};
