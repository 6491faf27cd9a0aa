//! The nets of programs beside their havoc runs: under each input the failing bits and the live sites tell the end and
//! the draws of the run that draws the same. Circuits and their clauses: each operator beside the calls on numbers, the
//! clauses of a bit, logs of resolution that are wrong in one place. The crate has tests alone, above `sym_eval` and
//! `clauses`.
#![tactic(auto)]

#[cfg(test)]
mod arrays;
#[cfg(test)]
mod beside;
#[cfg(test)]
mod branches;
#[cfg(test)]
mod cases;
#[cfg(test)]
mod conjunction;
#[cfg(test)]
mod examples;
#[cfg(test)]
mod havoc;
#[cfg(test)]
mod inputs;
#[cfg(test)]
mod limits;
#[cfg(test)]
mod logs;
#[cfg(test)]
mod loops;
#[cfg(test)]
mod operators;
#[cfg(test)]
mod products;
#[cfg(test)]
mod sites;
#[cfg(test)]
mod table;
#[cfg(test)]
mod told;
