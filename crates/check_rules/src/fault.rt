use c_core::Spot;
use wv_base::OutOfMemory;

/// Why a source is no program, in the order in which refusals at one place are reported.
#[derive(Clone, Copy, Debug, PartialEq, Eq)]
pub enum CheckCode {
    /// A word names nothing that is in scope.
    Name,
    /// A name is declared twice in one scope, or a label stands twice in a function or a `switch`.
    Again,
    /// An expression or a statement breaks a rule on types.
    Typing,
    /// An array has no constant size from 1 to 1,024, more than 1,024 elements, or more initializers than elements.
    Size,
    /// Operands without an order between them touch the same object, or both call functions.
    Order,
    /// A function without a body is called.
    Body,
    /// There is no function `main`, or it has parameters or a result of another type.
    Main,
    /// All objects together have more than 100,000 cells.
    Cells,
}

/// A code with the place where it is reported.
#[derive(Clone, Copy, Debug, PartialEq, Eq)]
pub struct Refusal {
    pub code: CheckCode,
    pub spot: Spot,
}

/// Why there is no program.
#[derive(Clone, Copy, Debug, PartialEq, Eq)]
pub enum CheckFault {
    Refused { code: CheckCode, spot: Spot },
    OutOfMemory,
}

impl From<OutOfMemory> for CheckFault {
    ghost use Rattle.std.specs.Prelude.{◌≡◌};
    ghost use Rattle.check_rules.specs.declared.fault.CheckFault.TheVariants.{OutOfMemory as NoMemory};

    ghost from_gives = { λ _ fault. fault ≡ NoMemory };

    fn from(_: OutOfMemory) -> Self {
        CheckFault::OutOfMemory
    }
}
