//! Values as bits: operators, conversions, tests, stores and input calls over a symbolic state. Its one promise: each
//! call does to every run that is here what the definition of runs does, and lets all others be.
#![tactic(auto)]

mod calls;
mod operators;
mod stores;
mod truths;

pub use calls::{end, input, reach};
pub use operators::{operate, operate_one};
pub use stores::store;
pub use truths::{choose, convert, test, truth};
