// What witnesses say of themselves, and the witnesses about the two programs of a demo.
ghost use Rattle.std.specs.Prelude.{◌≡◌, ◌≤◌, ◌<◌, ◌^◌, [], ◌∷◌, IfOk, codes, length};
ghost use Rattle.wv_schema.specs.declared.witness.Content.TheVariants.{Invariants, Violation};
ghost use Rattle.wv_author.specs.Authored.{following};
ghost use Rattle.wv_author.specs.Witnesses.{at, demo_details, drawn, file_hash, formula_of, hash_of, metadata_of, model_name, range, range_text, ranges, reached, result_text, witness, witness_about};

use c_core::{DataModel, Property};
use sha2::{Digest, Sha256};
use std::alloc::Global;
use wv_base::{OutOfMemory, Seq, Text};
use wv_schema::{
    Constraint, Content, Entry, FileHash, Invariant, InvariantKind, Location, Metadata, Segment,
    WayKind, Waypoint, Witness,
};

/// What a witness says of its task and of its making.
#[derive(Drop)]
pub struct Details {
    pub uuid: Text,
    pub creation_time: Text,
    pub producer: Text,
    /// The one file of the program.
    pub file: Text,
    pub property: Property,
    pub model: DataModel,
}

/// The SHA-256 of a program, in lower case.
fn hash_of(alloc: Global, program: &[u8]) -> Result<Text, OutOfMemory>
    ensures { IfOk result (λ hash. hash ≡ hash_of program.now) }
{
    let digest = Sha256::digest(program);
    let digits = hex::encode(alloc, digest.as_slice())?;
    Text::of(alloc, digits.as_str())
}

/// The one file of a task, with the hash of its bytes.
fn hashes(alloc: Global, file: &Text, program: &[u8]) -> Result<Seq<FileHash>, OutOfMemory>
    ensures { IfOk result (λ hashes. hashes ≡ file_hash file.now program.now ∷ []) }
{
    let mut hashes = Seq::new(alloc);
    hashes.push(FileHash {
        file: Text::of(alloc, file.as_str())?,
        hash: hash_of(alloc, program)?,
    })?;
    Ok(hashes)
}

fn files(alloc: Global, file: &Text) -> Result<Seq<Text>, OutOfMemory>
    ensures { IfOk result (λ files. files ≡ file.now ∷ []) }
{
    let mut files = Seq::new(alloc);
    files.push(Text::of(alloc, file.as_str())?)?;
    Ok(files)
}

fn formula_of(property: Property) -> &'static str
    ensures { result.now ≡ formula_of property }
{
    match property {
        Property::UnreachCall => "G ! call(reach_error())",
        Property::NoOverflow => "G ! overflow",
    }
}

fn model_name(model: DataModel) -> &'static str
    ensures { result.now ≡ model_name model }
{
    match model {
        DataModel::Ilp32 => "ILP32",
        DataModel::Lp64 => "LP64",
    }
}

/// What a witness about a program says of itself.
fn metadata(alloc: Global, details: &Details, program: &[u8]) -> Result<Metadata, OutOfMemory>
    ensures { IfOk result (λ all. all ≡ metadata_of details.now program.now) }
{
    Ok(Metadata {
        format_version: Text::of(alloc, "2.0")?,
        uuid: Text::of(alloc, details.uuid.as_str())?,
        creation_time: Text::of(alloc, details.creation_time.as_str())?,
        producer_name: Text::of(alloc, details.producer.as_str())?,
        producer_version: Text::of(alloc, "1")?,
        input_files: files(alloc, &details.file)?,
        input_hashes: hashes(alloc, &details.file, program)?,
        specification: Text::of(alloc, formula_of(details.property))?,
        data_model: Text::of(alloc, model_name(details.model))?,
        language: Text::of(alloc, "C")?,
    })
}

/// A witness of one claim about a program.
pub fn witness_about(
    alloc: Global,
    details: &Details,
    program: &[u8],
    content: Content,
) -> Result<Witness, OutOfMemory>
    ensures { IfOk result (λ all. all ≡ witness_about details.now program.now content) }
{
    let mut entries = Seq::new(alloc);
    entries.push(Entry {
        metadata: metadata(alloc, details, program)?,
        content,
    })?;
    Ok(Witness { entries })
}

fn demo_details(alloc: Global) -> Result<Details, OutOfMemory>
    ensures { IfOk result (λ details. details ≡ demo_details) }
{
    Ok(Details {
        uuid: Text::of(alloc, "01234567-89ab-4cde-8f01-23456789abcd")?,
        creation_time: Text::of(alloc, "2024-04-10T12:00:00Z")?,
        producer: Text::of(alloc, "hand")?,
        file: Text::of(alloc, "p.c")?,
        property: Property::UnreachCall,
        model: DataModel::Ilp32,
    })
}

/// A demo's witness of one claim.
fn witness(alloc: Global, program: &Text, content: Content) -> Result<Witness, OutOfMemory>
    ensures { IfOk result (λ all. all ≡ witness program.now content) }
{
    let details = demo_details(alloc)?;
    witness_about(alloc, &details, program.as_str().as_bytes(), content)
}

fn at(line: u32, column: u32) -> Location
    ensures { result ≡ at line column }
{
    Location {
        file_name: None,
        line,
        column: Some(column),
        function: None,
    }
}

#[tactic(auto, unfolding(crate::specs::Witnesses::range_text))]
fn range_text(alloc: Global, k: u32, bound: u32) -> Result<Text, OutOfMemory>
    ensures { IfOk result (λ text. text ≡ range_text k bound) }
{
    let mut text = String::new(alloc);
    write!(text, "0 <= x{k} && x{k} <= {bound}")?;
    let copy = Text::of(alloc, text.as_str())?;
    Ok(copy)
}

/// The format of expressions.
pub fn c_expression(alloc: Global) -> Result<Option<Text>, OutOfMemory>
    ensures { IfOk result (λ format. format ≡ Some (codes "c_expression")) }
{
    Ok(Some(Text::of(alloc, "c_expression")?))
}

/// The variable of a loop stays between 0 and the loop's bound.
fn range(alloc: Global, k: u32, bound: u32) -> Result<Invariant, OutOfMemory>
    requires first { 1 ≤ k }
    requires last { k < 2 ^ 16 }
    ensures { IfOk result (λ invariant. invariant ≡ range k bound) }
{
    Ok(Invariant {
        kind: InvariantKind::Loop,
        location: at(7 * k - 2, 3),
        value: range_text(alloc, k, bound)?,
        format: c_expression(alloc)?,
    })
}

fn ranges(alloc: Global, bounds: &[u32]) -> Result<Seq<Invariant>, OutOfMemory>
    requires { length bounds.now < 2 ^ 15 }
    ensures { IfOk result (λ all. all ≡ ranges 1 bounds.now) }
{
    let mut all = Seq::new(alloc);
    let mut k = 1;
    for bound in bounds {
        let invariant = range(alloc, k, *bound)?;
        all.push(invariant)?;
        k += 1;
    }
    Ok(all)
}

/// The witness about the program of loops with these bounds: an invariant for each.
pub fn invariants(alloc: Global, program: &Text, bounds: &[u32]) -> Result<Witness, OutOfMemory>
    requires { length bounds.now < 2 ^ 15 }
    ensures { IfOk result (λ all. all ≡ witness program.now (Invariants (ranges 1 bounds.now))) }
{
    let content = Content::Invariants(ranges(alloc, bounds)?);
    witness(alloc, program, content)
}

/// A segment without avoids.
pub fn follow(
    alloc: Global,
    kind: WayKind,
    location: Location,
    constraint: Option<Constraint>,
) -> Segment
    ensures { result ≡ following kind location constraint }
{
    Segment {
        avoids: Seq::new(alloc),
        follow: Waypoint {
            kind,
            location,
            constraint,
        },
    }
}

fn result_text(alloc: Global, number: u32) -> Result<Text, OutOfMemory>
    ensures { IfOk result (λ text. text ≡ result_text number) }
{
    let text = format!(in alloc; "\\result == {number}")?;
    Text::of(alloc, text.as_str())
}

/// The input gives the number.
fn drawn(alloc: Global, number: u32) -> Result<Segment, OutOfMemory>
    ensures { IfOk result (λ segment. segment ≡ drawn number) }
{
    let constraint = Constraint {
        value: result_text(alloc, number)?,
        format: c_expression(alloc)?,
    };
    Ok(follow(
        alloc,
        WayKind::FunctionReturn,
        at(284, 33),
        Some(constraint),
    ))
}

/// The error is reached.
fn reached(alloc: Global) -> Segment
    ensures { result ≡ reached }
{
    follow(alloc, WayKind::Target, at(286, 5), None)
}

/// The witness about the program that reaches the error where its input is the number.
pub fn violation(alloc: Global, program: &Text, number: u32) -> Result<Witness, OutOfMemory>
    ensures { IfOk result (λ all. all ≡ witness program.now (Violation (drawn number ∷ reached ∷ []))) }
{
    let mut segments = Seq::new(alloc);
    let drawn = drawn(alloc, number)?;
    segments.push(drawn)?;
    segments.push(reached(alloc))?;
    witness(alloc, program, Content::Violation(segments))
}
