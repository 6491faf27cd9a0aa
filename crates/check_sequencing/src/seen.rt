ghost use Rattle.std.specs.Prelude.{◌≡◌, List, [], ◌∷◌, ◌++◌, OnOk};
ghost use Rattle.check_sequencing.specs.Deciding.{IsSeen};

use crate::effect::Effect;
use std::alloc::Global;
use std::collections::BTreeSet;
use wv_base::OutOfMemory;

/// What operands do, as sets: the objects that they change or touch, and whether they call.
#[derive(Drop)]
pub struct Seen {
    pub changed: BTreeSet<u32>,
    pub touched: BTreeSet<u32>,
    pub is_calling: bool,
}

impl Seen {
    /// Nothing was seen.
    pub fn new(alloc: Global) -> Seen
        ensures { IsSeen result [] }
    {
        Seen {
            changed: BTreeSet::new(alloc),
            touched: BTreeSet::new(alloc),
            is_calling: false,
        }
    }

    fn add_one(&mut self, effect: Effect) -> Result<(), OutOfMemory>
        ensures { OnOk result ((before : List Effect) → IsSeen self.old before
            → IsSeen self.new (before ++ effect ∷ [])) }
    {
        match effect {
            Effect::Reads(object) => {
                self.touched.insert(object)?;
            }
            Effect::Changes(object) => {
                self.touched.insert(object)?;
                self.changed.insert(object)?;
            }
            Effect::Calls(_) => self.is_calling = true,
        }
        Ok(())
    }

    /// Adds what a further operand does.
    pub fn add(&mut self, effects: &[Effect]) -> Result<(), OutOfMemory>
        ensures { OnOk result ((before : List Effect) → IsSeen self.old before
            → IsSeen self.new (before ++ effects.now)) }
    {
        for effect in effects {
            self.add_one(*effect)?;
        }
        Ok(())
    }
}
