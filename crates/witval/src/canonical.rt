ghost use Rattle.std.specs.Prelude.{IfOk};
ghost use Rattle.witval.specs.Replies.{CanonicalIn};

use crate::output::Output;
use crate::refusal::refuse_yaml;
use std::alloc::Global;
use wv_base::{OutOfMemory, Seq};
use wv_yaml::{read, write};

/// The canonical form of a witness of allowed length, or the refusal of its bytes.
pub fn canonical(alloc: Global, witness: &[u8]) -> Result<Output, OutOfMemory>
    ensures { IfOk result (λ output. CanonicalIn output witness.now) }
{
    match read(alloc, witness) {
        Ok(tree) => Ok(Output::Canonical(Seq::from_vec(write(alloc, &tree)?))),
        Err(fault) => Ok(Output::Report(refuse_yaml(alloc, fault)?)),
    }
}
