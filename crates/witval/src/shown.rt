ghost use Rattle.std.specs.Prelude.{IfOk};
ghost use Rattle.witval.specs.Replies.{SummaryIn, SummaryOf};

use crate::output::Output;
use crate::refusal::{refuse_schema, refuse_yaml};
use std::alloc::Global;
use wv_base::{OutOfMemory, Seq};
use wv_schema::witness_of;
use wv_show::summary;
use wv_yaml::{Tree, read};

/// The summary of a witness of allowed length, or the refusal of its bytes.
pub fn shown(alloc: Global, witness: &[u8]) -> Result<Output, OutOfMemory>
    ensures { IfOk result (λ output. SummaryIn output witness.now) }
{
    match read(alloc, witness) {
        Ok(tree) => shown_tree(alloc, &tree),
        Err(fault) => Ok(Output::Report(refuse_yaml(alloc, fault)?)),
    }
}

/// The summary of the witness of a tree, or the refusal of the tree.
fn shown_tree(alloc: Global, tree: &Tree) -> Result<Output, OutOfMemory>
    ensures { IfOk result (λ output. SummaryOf output tree.now) }
{
    match witness_of(alloc, tree) {
        Ok(witness) => Ok(Output::Summary(Seq::from_vec(summary(alloc, &witness)?))),
        Err(fault) => Ok(Output::Report(refuse_schema(alloc, fault)?)),
    }
}
