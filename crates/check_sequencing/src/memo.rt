ghost use Rattle.std.specs.Prelude.{◌≡◌, ℕ, IfOk};
ghost use Rattle.check_sequencing.specs.Effects.{Does, wanted};
ghost use Rattle.check_sequencing.specs.Deciding.{IsRight, Tells};

use crate::effect::Effect;
use crate::marks::{is_marked, marks_of};
use std::alloc::Global;
use std::collections::BTreeMap;
use wv_base::{OutOfMemory, Seq};

/// The marks of each object that was asked for, each made once, from the effects of the functions' bodies.
#[derive(Drop)]
pub struct Memo<'a> {
    pub bodies: &'a [Seq<Effect>],
    pub only_changes: bool,
    pub made: BTreeMap<u32, Vec<bool>>,
}

impl<'a> Memo<'a> {
    /// Nothing is known yet of what the bodies do.
    pub fn new(alloc: Global, bodies: &'a [Seq<Effect>], only_changes: bool) -> Memo<'a>
        ensures bodies { result.bodies.now ≡ bodies.now }
        ensures only_changes { result.only_changes ≡ only_changes }
        ensures right { IsRight result }
    {
        Memo {
            bodies,
            only_changes,
            made: BTreeMap::new(alloc),
        }
    }

    /// Whether a function does so to an object, itself or through its calls.
    pub fn does(&mut self, alloc: Global, object: u32, function: u32) -> Result<bool, OutOfMemory>
        requires { IsRight self.old }
        ensures right { IsRight self.new }
        ensures bodies { self.new.bodies.now ≡ self.old.bodies.now }
        ensures only_changes { self.new.only_changes ≡ self.old.only_changes }
        ensures told { IfOk result (λ b. Tells b
            (Does self.old.bodies.now (wanted self.old.only_changes object) function)) }
    {
        if let Some(marks) = self.made.get(&object) {
            return Ok(is_marked(marks.as_slice(), function));
        }
        let marks = marks_of(alloc, self.bodies, self.only_changes, object)?;
        let does = is_marked(marks.as_slice(), function);
        self.made.insert(object, marks)?;
        Ok(does)
    }
}
