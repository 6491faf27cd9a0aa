// Laws of certificates.
ghost use Rattle.wv_cert.specs.Accepted.{AcceptedIsYes};
ghost use Rattle.wv_cert.specs.Reading.{OneList, ReadsBack};

use crate::fault::CertFault;
use crate::reading::read_certificate;
use crate::writing::certify;
use clauses::Refutation;
use std::alloc::Global;
use wv_base::Seq;

/// A text is the certificate of one list of logs at most.
pub fn one_list()
    ensures { OneList }
{}

/// A certificate written and read again: its logs.
pub fn read_back(alloc: Global, logs: &Seq<Refutation>) -> Result<Seq<Refutation>, CertFault>
    ensures { ReadsBack logs.now result }
{
    one_list();
    let bytes = certify(alloc, logs)?;
    let read = read_certificate(alloc, &bytes)?;
    Ok(read)
}

/// Logs that refute the clauses of each failing bit are answered with yes, as those of a judge that promises just this.
pub fn accepted_is_yes()
    ensures { AcceptedIsYes }
{}
