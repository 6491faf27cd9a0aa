// Symbolic states.
use c_core::{IntType, Spot};
use c_meaning::DrawKind;
use circuits::{Bit, Bits, Net};

/// A cell of an object, as many bits as the object's type is wide.
#[derive(Drop)]
pub struct SymCell {
    pub object: u32,
    pub index: u32,
    pub bits: Bits,
}

/// A place where each run that is there draws.
#[derive(Drop)]
pub struct DrawSite {
    pub spot: Spot,
    pub ty: IntType,
    pub from: DrawKind,
    pub bits: Bits,
    pub live: Bit,
}

/// The net so far, where runs are under each input, and what they hold there. `given` is the value that the function
/// called last gave, in its result's type.
#[derive(Drop)]
pub struct Sym {
    pub net: Net,
    pub live: Bit,
    pub broken: Bit,
    pub again: Bit,
    pub gave: Bit,
    pub result: IntType,
    pub given: Bits,
    pub failing: Vec<Bit>,
    pub completed: Vec<Bit>,
    pub cells: Vec<SymCell>,
    pub sites: Vec<DrawSite>,
}

/// The statement and the full expression around a part, and the number of the full expression's obligation, from 0 on.
#[derive(Clone, Copy, Debug, PartialEq, Eq)]
pub struct Around {
    pub statement: Spot,
    pub full: Spot,
    pub duty: u32,
}
