// Events of symbolic runs.
use c_core::{Arm, IntType, Spot};
use circuits::{Bit, Bits};

/// An event of all runs that are here. Its place is the same in all of them; bits say what differs. A violation is no
/// such event: it ends its run.
#[derive(Clone, Copy)]
pub enum SymEvent<'a> {
    /// A statement is about to begin.
    At(Spot),
    /// A call begins, at its closing parenthesis.
    Enter(Spot),
    /// A call comes back. Where `gave` is true it gives the value of the bits, in their type; else it gives none.
    Return {
        close: Spot,
        ty: IntType,
        bits: &'a Bits,
        gave: Bit,
    },
    /// A controlling expression has this truth value.
    Branch(Spot, Bit),
    /// A `switch` has this value, in its promoted type. The cases say arm by arm whether it is the arm's constant, and
    /// `none` says whether it is none of the constants.
    Select {
        spot: Spot,
        ty: IntType,
        value: &'a Bits,
        arms: &'a [Arm],
        cases: &'a [Bit],
        none: Bit,
    },
}
