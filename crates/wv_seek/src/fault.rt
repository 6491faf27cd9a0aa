// The faults of a search.
use wv_base::OutOfMemory;

/// Why no values are sought.
#[derive(Drop)]
pub enum SeekFault {
    /// The runs within the bound weigh more than 2,000,000; no net was made.
    TooBig,
    OutOfMemory,
}

impl From<OutOfMemory> for SeekFault {
    ghost use Rattle.std.specs.Prelude.{◌≡◌};
    ghost use Rattle.wv_seek.specs.declared.fault.SeekFault.TheVariants.{OutOfMemory as NoMemory};

    ghost from_gives = { λ _ fault. fault ≡ NoMemory };

    fn from(_: OutOfMemory) -> Self {
        SeekFault::OutOfMemory
    }
}
