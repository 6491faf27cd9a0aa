//! What no command line can say: devices that never fail, and the texts and hashes of a demo. The crate has tests
//! alone.
#![tactic(auto)]

#[cfg(test)]
mod demos;
#[cfg(test)]
mod steady;
