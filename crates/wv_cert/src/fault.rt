// Why bytes are no certificate.
use wv_base::OutOfMemory;

/// No logs have these bytes as their text; or memory ran out.
#[derive(Clone, Copy, Debug, PartialEq, Eq)]
pub enum CertFault {
    Form,
    OutOfMemory,
}

impl From<OutOfMemory> for CertFault {
    ghost use Rattle.std.specs.Prelude.{◌≡◌};
    ghost use Rattle.wv_cert.specs.declared.fault.CertFault.TheVariants.{OutOfMemory as NoMemory};

    ghost from_gives = { λ _ fault. fault ≡ NoMemory };

    fn from(_: OutOfMemory) -> Self {
        CertFault::OutOfMemory
    }
}
