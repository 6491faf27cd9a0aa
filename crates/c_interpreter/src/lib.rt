//! Runs programs: with choices and a budget of steps, as the definition of runs says.
#![tactic(auto, using(run_state::proofs::Giving::is_here, run_state::proofs::Giving::is_on_front, run_state::proofs::Giving::is_on_back))]

mod calls;
mod declarations;
mod expressions;
mod full_expressions;
mod run;
mod statements;

pub use run::run_plain;
