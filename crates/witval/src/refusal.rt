// The replies other than verdicts.
ghost use Rattle.std.specs.Prelude.{◌≡◌, ◌++◌, ◌∷◌, [], IfOk, codes, decimal};
ghost use Rattle.wv_report.specs.declared.reply.Reply.TheVariants as replies;
ghost use Rattle.witval.specs.Authoring.{IsValuesRefusal};
ghost use Rattle.witval.specs.Inputs.{certificate_word, source_word, word_of};
ghost use Rattle.witval.specs.Refusals.{IsBindRefusal, IsCertificateRefusal, IsCheckRefusal, IsObligationRefusal, IsRefusal, IsSchemaRefusal, IsSearchRefusal, IsSyntaxRefusal, IsTaskRefusal, IsTokenRefusal, both_hashes, check_code, place_text, plain};
ghost use Rattle.witval.specs.Replies.{too_long};

use crate::input::File;
use c_core::Spot;
use c_parser::ParseFault;
use c_tokens::TokenFault;
use check_rules::{CheckCode, CheckFault};
use std::alloc::Global;
use sym_duties::SymFault;
use way_bind::BindFault;
use wv_author::ValuesFault;
use wv_base::{OutOfMemory, Text};
use wv_cert::CertFault;
use wv_report::Reply;
use wv_schema::SchemaFault;
use wv_seek::SeekFault;
use wv_task::TaskFault;
use wv_yaml::{YamlFault, quote};

fn name(file: File) -> &'static str
    ensures { result.now ≡ word_of file }
{
    match file {
        File::Program => "program",
        File::Property => "property",
        File::Witness => "witness",
    }
}

/// The same where values stand in place of a witness.
fn source_name(file: File) -> &'static str
    ensures { result.now ≡ source_word file }
{
    match file {
        File::Program => "program",
        File::Property => "property",
        File::Witness => "values",
    }
}

fn refuse(alloc: Global, code: &str, detail: Text) -> Result<Reply, OutOfMemory>
    ensures { IfOk result (λ reply. reply ≡ replies.Refused code.now detail) }
{
    Ok(Reply::Refused {
        code: Text::of(alloc, code)?,
        detail,
    })
}

/// A refusal by its code alone.
pub fn refuse_plainly(alloc: Global, code: &str) -> Result<Reply, OutOfMemory>
    ensures { IfOk result (λ reply. reply ≡ plain code.now) }
{
    let detail = Text::of(alloc, "")?;
    refuse(alloc, code, detail)
}

/// A witness whose bytes are no tree.
pub fn refuse_yaml(alloc: Global, fault: YamlFault) -> Result<Reply, OutOfMemory>
    ensures { IfOk result (IsRefusal fault) }
{
    match fault {
        YamlFault::Bytes => refuse_plainly(alloc, "yaml-bytes"),
        YamlFault::Grammar => refuse_plainly(alloc, "yaml-grammar"),
        YamlFault::Duplicate => refuse_plainly(alloc, "yaml-duplicate"),
        YamlFault::OutOfMemory => Err(OutOfMemory),
    }
}

/// A tree that is no witness.
pub fn refuse_schema(alloc: Global, fault: SchemaFault) -> Result<Reply, OutOfMemory>
    ensures { IfOk result (IsSchemaRefusal fault) }
{
    match fault {
        SchemaFault::Missing(path) => refuse(alloc, "schema-missing", path),
        SchemaFault::WrongKind(path) => refuse(alloc, "schema-kind", path),
        SchemaFault::BadValue(path) => refuse(alloc, "schema-value", path),
        SchemaFault::Version => refuse_plainly(alloc, "schema-version"),
        SchemaFault::Shape(segment) => {
            let detail = number_text(alloc, segment)?;
            refuse(alloc, "schema-shape", detail)
        }
        SchemaFault::Entries => refuse_plainly(alloc, "schema-entries"),
        SchemaFault::OutOfMemory => Err(OutOfMemory),
    }
}

/// The hash that was stated, quoted, and the one that was found.
fn both_hashes(alloc: Global, stated: &Text, found: &Text) -> Result<Text, OutOfMemory>
    ensures { IfOk result (λ text. text ≡ both_hashes stated.now found.now) }
{
    let quoted = quote(alloc, stated)?;
    let mut both = String::from_str(alloc, quoted.as_str())?;
    both.push_str(" ")?;
    both.push_str(found.as_str())?;
    let text = Text::of(alloc, both.as_str())?;
    Ok(text)
}

/// A witness that isn't about this task.
pub fn refuse_task(alloc: Global, fault: TaskFault) -> Result<Reply, OutOfMemory>
    ensures { IfOk result (IsTaskRefusal fault) }
{
    match fault {
        TaskFault::Files => refuse_plainly(alloc, "files"),
        TaskFault::Hash { stated, found } => {
            let detail = both_hashes(alloc, &stated, &found)?;
            refuse(alloc, "hash", detail)
        }
        TaskFault::Specification => refuse_plainly(alloc, "specification"),
        TaskFault::Language => refuse_plainly(alloc, "language"),
        TaskFault::Model => refuse_plainly(alloc, "model"),
        TaskFault::Uuid => refuse_plainly(alloc, "uuid"),
        TaskFault::OutOfMemory => Err(OutOfMemory),
    }
}

/// Bytes that are no certificate.
pub fn refuse_certificate(alloc: Global, fault: CertFault) -> Result<Reply, OutOfMemory>
    ensures { IfOk result (IsCertificateRefusal fault) }
{
    match fault {
        CertFault::Form => refuse_plainly(alloc, "certificate"),
        CertFault::OutOfMemory => Err(OutOfMemory),
    }
}

/// A place of the program: its line, a colon, its column.
fn place_text(alloc: Global, line: u32, column: u32) -> Result<Text, OutOfMemory>
    ensures { IfOk result (λ text. text ≡ place_text line column) }
{
    let digits = format!(in alloc; "{line}:{column}")?;
    let text = Text::of(alloc, digits.as_str())?;
    Ok(text)
}

/// A line of the program, or the number of a segment, a waypoint or an invariant.
fn number_text(alloc: Global, number: u32) -> Result<Text, OutOfMemory>
    ensures { IfOk result (λ text. text ≡ decimal number) }
{
    let digits = format!(in alloc; "{number}")?;
    let text = Text::of(alloc, digits.as_str())?;
    Ok(text)
}

/// A program that is no list of tokens.
pub fn refuse_tokens(alloc: Global, fault: TokenFault) -> Result<Reply, OutOfMemory>
    ensures { IfOk result (IsTokenRefusal fault) }
{
    match fault {
        TokenFault::Token { line, column } => {
            let detail = place_text(alloc, line, column)?;
            refuse(alloc, "token", detail)
        }
        TokenFault::Directive { line } => {
            let detail = number_text(alloc, line)?;
            refuse(alloc, "directive", detail)
        }
        TokenFault::OutOfMemory => Err(OutOfMemory),
    }
}

/// Tokens that are no source.
pub fn refuse_syntax(alloc: Global, fault: ParseFault) -> Result<Reply, OutOfMemory>
    ensures { IfOk result (IsSyntaxRefusal fault) }
{
    match fault {
        ParseFault::Syntax { line, column } => {
            let detail = place_text(alloc, line, column)?;
            refuse(alloc, "syntax", detail)
        }
        ParseFault::OutOfMemory => Err(OutOfMemory),
    }
}

/// The word for what a source breaks.
fn check_code(code: CheckCode) -> &'static str
    ensures { result.now ≡ check_code code }
{
    match code {
        CheckCode::Name => "check-name",
        CheckCode::Again => "check-again",
        CheckCode::Typing => "check-typing",
        CheckCode::Size => "check-size",
        CheckCode::Order => "check-order",
        CheckCode::Body => "check-body",
        CheckCode::Main => "check-main",
        CheckCode::Cells => "check-cells",
    }
}

/// A source that is no program.
pub fn refuse_check(alloc: Global, fault: CheckFault) -> Result<Reply, OutOfMemory>
    ensures { IfOk result (IsCheckRefusal fault) }
{
    match fault {
        CheckFault::Refused { code, spot } => {
            let detail = place_text(alloc, spot.line, spot.column)?;
            refuse(alloc, check_code(code), detail)
        }
        CheckFault::OutOfMemory => Err(OutOfMemory),
    }
}

/// A witness of which a waypoint or an invariant isn't bound to the program.
pub fn refuse_bind(alloc: Global, fault: BindFault) -> Result<Reply, OutOfMemory>
    ensures { IfOk result (IsBindRefusal fault) }
{
    match fault {
        BindFault::NoPlace(number) => {
            let detail = number_text(alloc, number)?;
            refuse(alloc, "place", detail)
        }
        BindFault::Expression(number) => {
            let detail = number_text(alloc, number)?;
            refuse(alloc, "expression", detail)
        }
        BindFault::Scope(number) => {
            let detail = number_text(alloc, number)?;
            refuse(alloc, "scope", detail)
        }
        BindFault::OutOfMemory => Err(OutOfMemory),
    }
}

/// A program whose obligations can't be judged.
pub fn refuse_obligations(alloc: Global, fault: SymFault) -> Result<Reply, OutOfMemory>
    ensures { IfOk result (IsObligationRefusal fault) }
{
    match fault {
        SymFault::Recursion(name) => refuse(alloc, "recursion", name),
        SymFault::TooBig => refuse_plainly(alloc, "weight"),
        SymFault::OutOfMemory => Err(OutOfMemory),
    }
}

/// A program whose runs within a bound are too heavy.
pub fn refuse_search(alloc: Global, fault: SeekFault) -> Result<Reply, OutOfMemory>
    ensures { IfOk result (IsSearchRefusal fault) }
{
    match fault {
        SeekFault::TooBig => refuse_plainly(alloc, "weight"),
        SeekFault::OutOfMemory => Err(OutOfMemory),
    }
}

/// A file longer than its limit.
pub fn refuse_too_long(alloc: Global, file: File) -> Result<Reply, OutOfMemory>
    ensures { IfOk result (λ reply. reply ≡ replies.Refused too_long (word_of file)) }
{
    let detail = Text::of(alloc, name(file))?;
    refuse(alloc, "too-long", detail)
}

/// A file that couldn't be read.
pub fn read_fault(alloc: Global, file: File) -> Result<Reply, OutOfMemory>
    ensures { IfOk result (λ reply. reply ≡ replies.ReadFault (word_of file)) }
{
    Ok(Reply::ReadFault(Text::of(alloc, name(file))?))
}

/// Bytes that are no list of values.
pub fn refuse_values(alloc: Global, fault: ValuesFault) -> Result<Reply, OutOfMemory>
    ensures { IfOk result (IsValuesRefusal fault) }
{
    match fault {
        ValuesFault::Form => refuse_plainly(alloc, "values"),
        ValuesFault::OutOfMemory => Err(OutOfMemory),
    }
}

/// A run in which a cell without initializer draws something else than 0.
pub fn refuse_cell(alloc: Global, spot: Spot) -> Result<Reply, OutOfMemory>
    ensures { IfOk result (λ reply. reply ≡ replies.Refused (codes "cell") (place_text spot.line spot.column)) }
{
    let detail = place_text(alloc, spot.line, spot.column)?;
    refuse(alloc, "cell", detail)
}

/// A file longer than its limit, where values stand in place of a witness.
pub fn refuse_long_source(alloc: Global, file: File) -> Result<Reply, OutOfMemory>
    ensures { IfOk result (λ reply. reply ≡ replies.Refused too_long (source_word file)) }
{
    let detail = Text::of(alloc, source_name(file))?;
    refuse(alloc, "too-long", detail)
}

/// A file that couldn't be read, where values stand in place of a witness.
pub fn source_fault(alloc: Global, file: File) -> Result<Reply, OutOfMemory>
    ensures { IfOk result (λ reply. reply ≡ replies.ReadFault (source_word file)) }
{
    Ok(Reply::ReadFault(Text::of(alloc, source_name(file))?))
}

/// A certificate longer than its limit.
pub fn refuse_long_certificate(alloc: Global) -> Result<Reply, OutOfMemory>
    ensures { IfOk result (λ reply. reply ≡ replies.Refused too_long certificate_word) }
{
    let detail = Text::of(alloc, "certificate")?;
    refuse(alloc, "too-long", detail)
}

/// A certificate that couldn't be read.
pub fn certificate_fault(alloc: Global) -> Result<Reply, OutOfMemory>
    ensures { IfOk result (λ reply. reply ≡ replies.ReadFault certificate_word) }
{
    Ok(Reply::ReadFault(Text::of(alloc, "certificate")?))
}
