// Why a program with invariants has no obligations as a net.
use wv_base::{OutOfMemory, Text};

/// Main reaches a cycle of calls: the name of the first function in the source that lies on one. Or it is too big: a
/// chain of calls from main has more than 32 calls, or the weight is over 2,000,000.
#[derive(Drop)]
pub enum SymFault {
    Recursion(Text),
    TooBig,
    OutOfMemory,
}

impl From<OutOfMemory> for SymFault {
    ghost use Rattle.std.specs.Prelude.{◌≡◌};
    ghost use Rattle.sym_duties.specs.declared.fault.SymFault.TheVariants.{OutOfMemory as NoMemory};

    ghost from_gives = { λ _ fault. fault ≡ NoMemory };

    fn from(_: OutOfMemory) -> Self {
        SymFault::OutOfMemory
    }
}
