use c_parser::ExprFault;
use wv_base::OutOfMemory;

/// Why a witness isn't bound to a program: the number of its least waypoint or invariant that isn't, from 1 in document
/// order, by the first test that this one fails.
#[derive(Clone, Copy, Debug, PartialEq, Eq)]
pub enum BindFault {
    /// Its place isn't there.
    NoPlace(u32),
    /// Its expression isn't in the grammar, or its typing fails.
    Expression(u32),
    /// One of its names isn't in scope, or its `\result` constraint is at a call of a void function.
    Scope(u32),
    OutOfMemory,
}

impl From<OutOfMemory> for BindFault {
    ghost use Rattle.std.specs.Prelude.{◌≡◌};
    ghost use Rattle.way_bind.specs.declared.fault.BindFault.TheVariants.{OutOfMemory as NoMemory};

    ghost from_gives = { λ _ fault. fault ≡ NoMemory };

    fn from(_: OutOfMemory) -> Self {
        BindFault::OutOfMemory
    }
}

/// The first test that a waypoint or an invariant fails.
#[derive(Clone, Copy, Debug, PartialEq, Eq)]
pub enum Unbound {
    NoPlace,
    Expression,
    Scope,
    OutOfMemory,
}

impl From<OutOfMemory> for Unbound {
    ghost use Rattle.std.specs.Prelude.{◌≡◌};
    ghost use Rattle.way_bind.specs.declared.fault.Unbound.TheVariants.{OutOfMemory as NoMemory};

    ghost from_gives = { λ _ lack. lack ≡ NoMemory };

    fn from(_: OutOfMemory) -> Self {
        Unbound::OutOfMemory
    }
}

impl From<ExprFault> for Unbound {
    ghost use Rattle.std.specs.Prelude.{◌≡◌};
    ghost use Rattle.way_bind.specs.Lacks.{lack_of};

    ghost from_gives = { λ fault lack. lack ≡ lack_of fault };

    fn from(fault: ExprFault) -> Self {
        match fault {
            ExprFault::Expression => Unbound::Expression,
            ExprFault::Scope => Unbound::Scope,
            ExprFault::OutOfMemory => Unbound::OutOfMemory,
        }
    }
}
