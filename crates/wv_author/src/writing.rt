// The witness that is made of segments.
ghost use Rattle.std.specs.Prelude.{◌≡◌, ◌≤◌, IfOk, length};
ghost use Rattle.std.specs.Str.{chars};
ghost use Rattle.wv_schema.specs.Rules.{AreSegments};
ghost use Rattle.wv_author.specs.Demo.{CanBeWritten};
ghost use Rattle.wv_author.specs.Written.{HasText, authored, authored_details};

use crate::witnesses::{Details, witness_about};
use c_core::{DataModel, Property};
use std::alloc::Global;
use wv_base::{OutOfMemory, Seq, Text};
use wv_schema::{Content, Segment, Witness};

fn details(
    alloc: Global,
    file: &Text,
    property: Property,
    model: DataModel,
    uuid: &str,
    time: &str,
) -> Result<Details, OutOfMemory>
    ensures { IfOk result (λ details. details ≡ authored_details file.now property model uuid.now time.now) }
{
    Ok(Details {
        uuid: Text::of(alloc, uuid)?,
        creation_time: Text::of(alloc, time)?,
        producer: Text::of(alloc, "witval")?,
        file: Text::of(alloc, file.as_str())?,
        property,
        model,
    })
}

/// The violation witness with these segments about a program of one file, whose name is a key of the witness.
#[tactic(auto, using(crate::proofs::Written::authored_text, crate::proofs::Written::authored_writable))]
pub fn authored(
    alloc: Global,
    program: &[u8],
    file: &Text,
    segments: Seq<Segment>,
    property: Property,
    model: DataModel,
    uuid: &str,
    time: &str,
) -> Result<Witness, OutOfMemory>
    ensures made { IfOk result (λ witness. witness
        ≡ authored program.now file.now segments property model uuid.now time.now) }
    ensures text { length (chars file.now) ≤ 1024 → IfOk result HasText }
    ensures writable { length (chars file.now) ≤ 1024 → AreSegments segments → IfOk result CanBeWritten }
{
    let details = details(alloc, file, property, model, uuid, time)?;
    let content = Content::Violation(segments);
    let witness = witness_about(alloc, &details, program, content)?;
    Ok(witness)
}
