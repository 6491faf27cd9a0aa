// What a havoc run has left, holds and drew.
ghost use Rattle.std.specs.Prelude.{◌≡◌};
ghost use Rattle.havoc_state.specs.declared.machine.Halt.TheVariants.{NoMemory};

use c_meaning::{Draw, Duty, Memory};
use std::alloc::Global;
use wv_base::{OutOfMemory, Seq};

/// The state of a havoc run. Of the values that are left, the next one stands last.
#[derive(Drop)]
pub struct Machine {
    pub alloc: Global,
    pub memory: Memory,
    pub left: Vec<i128>,
    pub draws: Seq<Draw>,
}

/// How a part of a havoc run ends the run.
#[derive(Clone, Copy, Debug, PartialEq, Eq)]
pub enum Ending {
    Passes,
    Dismisses,
    Fails(Duty),
}

/// Why a part of a havoc run gives no value: the run ends there, or memory runs out.
#[derive(Clone, Copy, Debug, PartialEq, Eq)]
pub enum Halt {
    Ends(Ending),
    NoMemory,
}

impl From<OutOfMemory> for Halt {
    ghost from_gives = { λ _ e. e ≡ NoMemory };

    fn from(_error: OutOfMemory) -> Halt {
        Halt::NoMemory
    }
}
