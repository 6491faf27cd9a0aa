use std::alloc::{AllocError, AllocFailed};
use wv_base::{OutOfMemory, Text};

/// Why a tree is no witness.
#[derive(Debug, Drop)]
pub enum SchemaFault {
    /// No key at this path.
    Missing(Text),
    /// Something else than a text, a list or a map, as the path asks for.
    WrongKind(Text),
    /// A text that isn't among those that the path allows.
    BadValue(Text),
    /// A format version other than 2.0.
    Version,
    /// A segment, from 1, that isn't of the form that segments have.
    Shape(u32),
    /// No entry, entries of both types, or two violation sequences.
    Entries,
    OutOfMemory,
}

impl From<AllocError> for SchemaFault {
    ghost use Rattle.std.specs.Prelude.{◌≡◌};
    ghost use Rattle.wv_schema.specs.declared.fault.SchemaFault.TheVariants.{OutOfMemory};

    ghost from_gives = { λ _ e. e ≡ OutOfMemory };

    fn from(_: AllocError) -> SchemaFault {
        SchemaFault::OutOfMemory
    }
}

impl<T: Drop> From<AllocFailed<T>> for SchemaFault {
    ghost use Rattle.std.specs.Prelude.{◌≡◌};
    ghost use Rattle.wv_schema.specs.declared.fault.SchemaFault.TheVariants.{OutOfMemory};

    ghost from_gives = { λ _ e. e ≡ OutOfMemory };

    fn from(_: AllocFailed<T>) -> SchemaFault {
        SchemaFault::OutOfMemory
    }
}

impl From<OutOfMemory> for SchemaFault {
    ghost use Rattle.std.specs.Prelude.{◌≡◌};
    ghost use Rattle.wv_schema.specs.declared.fault.SchemaFault.TheVariants.{OutOfMemory as NoMemory};

    ghost from_gives = { λ _ e. e ≡ NoMemory };

    fn from(_: OutOfMemory) -> SchemaFault {
        SchemaFault::OutOfMemory
    }
}
