use std::alloc::{AllocError, AllocFailed};
use thiserror::Error;
use wv_base::OutOfMemory;

/// Why bytes are refused.
#[derive(Clone, Copy, Debug, PartialEq, Eq, Drop, Error)]
pub enum YamlFault {
    #[error("Bytes")]
    Bytes,
    #[error("Grammar")]
    Grammar,
    #[error("Duplicate")]
    Duplicate,
    #[error("OutOfMemory")]
    OutOfMemory,
}

impl From<AllocError> for YamlFault {
    ghost use Rattle.std.specs.Prelude.{◌≡◌};
    ghost use Rattle.yaml_scalars.specs.declared.fault.YamlFault.TheVariants.{OutOfMemory};

    ghost from_gives = { λ _ e. e ≡ OutOfMemory };

    fn from(_: AllocError) -> YamlFault {
        YamlFault::OutOfMemory
    }
}

impl<T: Drop> From<AllocFailed<T>> for YamlFault {
    ghost use Rattle.std.specs.Prelude.{◌≡◌};
    ghost use Rattle.yaml_scalars.specs.declared.fault.YamlFault.TheVariants.{OutOfMemory};

    ghost from_gives = { λ _ e. e ≡ OutOfMemory };

    fn from(_: AllocFailed<T>) -> YamlFault {
        YamlFault::OutOfMemory
    }
}

impl From<OutOfMemory> for YamlFault {
    ghost use Rattle.std.specs.Prelude.{◌≡◌};
    ghost use Rattle.yaml_scalars.specs.declared.fault.YamlFault.TheVariants.{OutOfMemory as NoMemory};

    ghost from_gives = { λ _ e. e ≡ NoMemory };

    fn from(_: OutOfMemory) -> YamlFault {
        YamlFault::OutOfMemory
    }
}
