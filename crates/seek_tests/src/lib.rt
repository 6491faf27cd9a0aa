//! All runs within a bound beside runs that are made: under each input of a small program's net its bit is true exactly
//! where the run on the values of the live sites violates the property and is matched, by the machine and the matcher.
//! What is answered of a search: values, none, a spent budget, too big. The crate has tests alone, above `wv_seek`.
#![tactic(auto)]

#[cfg(test)]
mod answers;
#[cfg(test)]
mod beside;
#[cfg(test)]
mod branches;
#[cfg(test)]
mod calls;
#[cfg(test)]
mod cases;
#[cfg(test)]
mod few;
#[cfg(test)]
mod loops;
#[cfg(test)]
mod told;
#[cfg(test)]
mod witnesses;
