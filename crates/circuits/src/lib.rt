//! Circuits: nets of and-nodes that compute the operators on integers. Its one promise: for all inputs each circuit
//! gives the operator's value, overflow and undefined bits, within a stated number of and-nodes.
#![tactic(auto)]

mod answers;
mod binary;
mod bits;
mod bounds;
mod chosen;
mod comparisons;
mod conversions;
mod facts;
mod gates;
mod given;
mod hints;
mod inequalities;
mod inputs;
mod lists;
mod logic;
mod net;
mod orders;
mod parts;
mod products;
mod quotients;
mod ranges;
mod shared;
mod shifts;
mod signs;
mod slots;
mod sums;
mod truths;
mod types;
mod unary;
mod words;
mod zeros;

pub use binary::apply_bits;
pub use bits::{Bits, Outcome, choose_bits, const_bits, convert_bits};
pub use gates::{or, pick};
pub use inputs::input_bits;
pub use net::{Bit, Net, NetNode, not, value_of_bit};
pub use unary::one_bits;
