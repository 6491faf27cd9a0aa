// The labels of the arms of a `switch`, of which none may stand twice (C11 6.8.4.2p3).
ghost use Rattle.std.specs.Prelude.{◌≡◌, ◌∷◌, ◌++◌, ◌||◌, ℤ, [], OnOk};
ghost use Rattle.std.specs.BTreeSet.{contains};
ghost use Rattle.std.specs.List.{list_any};
ghost use Rattle.std.specs.Ordering.{int_cmp, int_eq};
ghost use Rattle.c_core.specs.declared.tree.Label.TheVariants.{Case, Default};
ghost use Rattle.check_rules.specs.Codes as codes;
ghost use Rattle.check_elaborate.specs.ArmLabels.{AreFound};

use c_core::Label;
use std::alloc::Global;
use std::collections::BTreeSet;
use wv_base::{OutOfMemory, Seq};

/// The labels of the arms so far, with the constants among them as a set. What is no constant is none.
#[derive(Drop)]
pub struct ArmLabels {
    pub all: Seq<Option<Label>>,
    pub constants: BTreeSet<i128>,
    pub has_default: bool,
}

fn add_constant(constants: &mut BTreeSet<i128>, constant: i128) -> Result<(), OutOfMemory>
    ensures { OnOk result ((c : ℤ) → contains int_cmp constants.new c
        ≡ (contains int_cmp constants.old c || int_eq c constant)) }
{
    constants.insert(constant)?;
    Ok(())
}

impl ArmLabels {
    /// No labels yet.
    pub fn new(alloc: Global) -> ArmLabels
        ensures all { result.all ≡ [] }
        ensures found { AreFound result }
    {
        ArmLabels {
            all: Seq::new(alloc),
            constants: BTreeSet::new(alloc),
            has_default: false,
        }
    }

    fn has_constant(&self, constant: i128) -> bool
        requires { AreFound self.now }
        ensures { result ≡ list_any (codes.same_label (Case constant)) self.now.all }
    {
        self.constants.contains(&constant)
    }

    /// Is this label among them?
    pub fn has(&self, label: Option<Label>) -> bool
        requires { AreFound self.now }
        ensures { result ≡ codes.is_chosen self.now.all label }
    {
        match label {
            None => false,
            Some(Label::Case(constant)) => self.has_constant(constant),
            Some(Label::Default) => self.has_default,
        }
    }

    // The set and the mark with this label.
    fn mark(&mut self, label: Option<Label>) -> Result<(), OutOfMemory>
        ensures all { OnOk result (self.new.all ≡ self.old.all) }
        ensures constants { OnOk result ((c : ℤ) → contains int_cmp self.new.constants c
            ≡ (contains int_cmp self.old.constants c || codes.same_label (Case c) label)) }
        ensures default { OnOk result (self.new.has_default
            ≡ (self.old.has_default || codes.same_label Default label)) }
    {
        match label {
            None => Ok(()),
            Some(Label::Case(constant)) => {
                add_constant(&mut self.constants, constant)?;
                Ok(())
            }
            Some(Label::Default) => {
                self.has_default = true;
                Ok(())
            }
        }
    }

    /// Adds a label.
    pub fn push(&mut self, label: Option<Label>) -> Result<(), OutOfMemory>
        requires { AreFound self.old }
        ensures all { OnOk result (self.new.all ≡ self.old.all ++ label ∷ []) }
        ensures found { OnOk result (AreFound self.new) }
    {
        self.mark(label)?;
        self.all.push(label)?;
        Ok(())
    }
}
