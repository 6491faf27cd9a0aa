// What a run has left, holds and drew.
ghost use Rattle.std.specs.Prelude.{◌≡◌};
ghost use Rattle.run_state.specs.declared.machine.Halt.TheVariants.{NoMemory};

use c_core::{IntType, Spot};
use c_meaning::{Draw, End, Memory};
use std::alloc::Global;
use wv_base::{OutOfMemory, Seq};

/// The values left for the input call at a place, the next one last.
#[derive(Drop)]
pub struct LeftAt {
    pub spot: Spot,
    pub values: Vec<i128>,
}

/// The choices left, the next value of a list last.
#[derive(Drop)]
pub enum Left {
    Given(Vec<LeftAt>),
    InTurn(Vec<i128>),
}

/// The state of a run.
#[derive(Drop)]
pub struct Machine {
    pub alloc: Global,
    pub steps: u64,
    pub memory: Memory,
    pub active: u64,
    pub left: Left,
    pub draws: Seq<Draw>,
    pub unfixed: u64,
}

/// Why a part of a run gives no value: the run ends there, or memory runs out.
#[derive(Clone, Copy, Debug, PartialEq, Eq)]
pub enum Halt {
    Ends(End),
    NoMemory,
}

impl From<OutOfMemory> for Halt {
    ghost from_gives = { λ _ e. e ≡ NoMemory };

    fn from(_error: OutOfMemory) -> Halt {
        Halt::NoMemory
    }
}

/// The innermost statement and the full expression around a part.
#[derive(Clone, Copy, Debug, PartialEq, Eq)]
pub struct Around {
    pub statement: Spot,
    pub full: Spot,
}

/// A call: its start, its closing parenthesis, and is its value needed.
#[derive(Clone, Copy, Debug, PartialEq, Eq)]
pub struct CallSite {
    pub spot: Spot,
    pub close: Spot,
    pub needed: bool,
}

/// How a statement is left.
#[derive(Clone, Copy, Debug, PartialEq, Eq)]
pub enum Flow {
    Next,
    Broken,
    Again,
    Gave(Option<i128>),
}

/// A value and its type.
#[derive(Clone, Copy, Debug, PartialEq, Eq)]
pub struct Typed {
    pub value: i128,
    pub ty: IntType,
}

/// An element of an array, or the one cell of a scalar.
#[derive(Clone, Copy, Debug, PartialEq, Eq)]
pub struct Element {
    pub object: u32,
    pub index: u32,
}
