// A witness that is made, in its canonical form.
ghost use Rattle.std.specs.Prelude.{IfOk};
ghost use Rattle.wv_schema.specs.Canonical.{tree_of};
ghost use Rattle.wv_yaml.specs.Canon.{Fits};
ghost use Rattle.wv_yaml.specs.Document.{max_depth};
ghost use Rattle.witval.specs.Writing.{IsWritten};

use crate::output::Output;
use crate::refusal::refuse_plainly;
use std::alloc::Global;
use wv_base::{OutOfMemory, Seq};
use wv_schema::{Witness, tree_of};
use wv_yaml::write;

/// The limit of a witness that is read, in bytes.
const LONG: usize = 1048576;

/// The canonical form of a witness, or the refusal of one that is too large.
pub fn write_witness(alloc: Global, witness: &Witness) -> Result<Output, OutOfMemory>
    requires { Fits max_depth (tree_of witness.now) }
    ensures { IfOk result (IsWritten witness.now) }
{
    let tree = tree_of(alloc, witness)?;
    let text = write(alloc, &tree)?;
    if text.len() > LONG {
        return Ok(Output::Report(refuse_plainly(alloc, "too-large")?));
    }
    Ok(Output::Canonical(Seq::from_vec(text)))
}
