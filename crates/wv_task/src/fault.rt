use std::alloc::AllocError;
use wv_base::{OutOfMemory, Text};

/// Why a witness isn't about this task.
#[derive(Debug, Drop)]
pub enum TaskFault {
    /// Not one input file with one hash.
    Files,
    /// The hash that the witness states isn't that of the program, which was found.
    Hash { stated: Text, found: Text },
    /// Another property, or none.
    Specification,
    /// Another language than C.
    Language,
    /// No data model, or another than that of the first entry.
    Model,
    /// No identifier.
    Uuid,
    OutOfMemory,
}

impl From<AllocError> for TaskFault {
    ghost use Rattle.std.specs.Prelude.{◌≡◌};
    ghost use Rattle.wv_task.specs.declared.fault.TaskFault.TheVariants.{OutOfMemory};

    ghost from_gives = { λ _ e. e ≡ OutOfMemory };

    fn from(_: AllocError) -> TaskFault {
        TaskFault::OutOfMemory
    }
}

impl From<OutOfMemory> for TaskFault {
    ghost use Rattle.std.specs.Prelude.{◌≡◌};
    ghost use Rattle.wv_task.specs.declared.fault.TaskFault.TheVariants.{OutOfMemory as NoMemory};

    ghost from_gives = { λ _ e. e ≡ NoMemory };

    fn from(_: OutOfMemory) -> TaskFault {
        TaskFault::OutOfMemory
    }
}
