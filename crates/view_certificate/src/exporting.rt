// An obligation of a certificate for other checkers.
use circuits::{Bit, Net};
use clauses::Refutation;
use std::alloc::Global;
use sym_duties::Obligations;
use wv_base::OutOfMemory;
use wv_cert::{CertFault, read_certificate};
use wv_export::{Exported, export};

/// Both texts of a failing bit and a log; none for a net or a log that is larger than any that is made.
fn texts_of(
    alloc: Global,
    net: &Net,
    bit: Bit,
    log: &Refutation,
) -> Result<Option<Exported>, OutOfMemory> {
    let nodes = net.nodes();
    if nodes >= 1 << 28 || u64::from(bit.node) >= nodes {
        return Ok(None);
    }
    if log.chains.len() >= 1 << 62 {
        return Ok(None);
    }
    let both = export(alloc, net, bit, log)?;
    Ok(Some(both))
}

/// The clauses of an obligation, by its number from 1, and its log in a certificate; none where there is none of this
/// number.
pub fn exported(
    alloc: Global,
    obligations: &Obligations,
    certificate: &[u8],
    number: u64,
) -> Result<Option<Exported>, OutOfMemory> {
    let logs = match read_certificate(alloc, certificate) {
        Ok(logs) => logs,
        Err(CertFault::OutOfMemory) => return Err(OutOfMemory),
        Err(CertFault::Form) => return Ok(None),
    };
    let at = number.saturating_sub(1) as usize;
    match (obligations.failing.get(at), logs.get(at)) {
        (Some(bit), Some(log)) => texts_of(alloc, &obligations.net, *bit, log),
        _ => Ok(None),
    }
}
