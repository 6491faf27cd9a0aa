//! What runs within a bound weigh with the segments of a witness, by the call that counts it (`seek_weight::weigh`), on the
//! example programs of `seek_examples`, and bounds on both sides of the limit. The crate has tests alone.
#![tactic(auto)]

#[cfg(test)]
mod weights;
