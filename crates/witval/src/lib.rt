//! The validator: it judges a program, a property and a witness, and its one promise is that the
//! verdict it prints holds of the program's real runs.
#![tactic(auto)]

mod answer;
mod authoring;
mod binding;
mod canonical;
mod certificates;
mod demonstration;
mod input;
mod judging;
mod keeping;
mod output;
mod purpose;
mod refusal;
mod searching;
mod sequence;
mod sets;
mod shown;
mod tokens;
mod top;
mod weeding;
mod writing;

pub use top::{run, run_keeping};
