// The lines that several reports have in common.
ghost use Rattle.std.specs.Prelude.{◌≡◌, ◌++◌, OnOk, codes, string_bytes};
ghost use Rattle.wv_report.specs.Report.{cause_text, kind_name, line, obligation_line, placed_kind, reason_line, reason_text, refusal_line, segment_line, segment_lines, type_name, value_line, value_lines};

use c_core::IntType;
use c_meaning::{Cause, Draw, Duty, DutyKind, Reason};
use wv_base::OutOfMemory;

/// The type in one spelling.
pub fn name_of_type(ty: IntType) -> &'static str
    ensures { result.now ≡ type_name ty }
{
    match ty {
        IntType::Bool => "_Bool",
        IntType::Char => "char",
        IntType::SChar => "signed char",
        IntType::UChar => "unsigned char",
        IntType::Short => "short",
        IntType::UShort => "unsigned short",
        IntType::Int => "int",
        IntType::UInt => "unsigned int",
        IntType::Long => "long",
        IntType::ULong => "unsigned long",
        IntType::LongLong => "long long",
        IntType::ULongLong => "unsigned long long",
    }
}

/// What an obligation is about.
pub fn name_of_kind(kind: DutyKind) -> &'static str
    ensures { result.now ≡ kind_name kind }
{
    match kind {
        DutyKind::Location => "location",
        DutyKind::Entry => "entry",
        DutyKind::Kept => "kept",
        DutyKind::Property => "property",
    }
}

fn add_value(out: &mut String, draw: &Draw) -> Result<(), OutOfMemory>
    ensures { OnOk result (string_bytes out.new ≡ string_bytes out.old ++ value_line draw.now) }
{
    let line = draw.spot.line;
    let column = draw.spot.column;
    let name = name_of_type(draw.ty);
    let value = draw.value;
    write!(out, "value {line}:{column} {name} {value}\n")?;
    Ok(())
}

/// A line for each drawn value.
pub fn add_values(out: &mut String, draws: &[Draw]) -> Result<(), OutOfMemory>
    ensures { OnOk result (string_bytes out.new ≡ string_bytes out.old ++ value_lines draws.now) }
{
    for draw in draws {
        add_value(out, draw)?;
    }
    Ok(())
}

fn add_segment(out: &mut String, segment: usize, event: u64) -> Result<(), OutOfMemory>
    ensures { OnOk result (string_bytes out.new ≡ string_bytes out.old ++ segment_line segment event) }
{
    write!(out, "segment {segment} event {event}\n")?;
    Ok(())
}

/// A line for each segment, numbered from 1.
pub fn add_segments(out: &mut String, events: &[u64]) -> Result<(), OutOfMemory>
    ensures { OnOk result (string_bytes out.new ≡ string_bytes out.old ++ segment_lines 1 events.now) }
{
    for (index, event) in events.iter().enumerate() {
        add_segment(out, index + 1, *event)?;
    }
    Ok(())
}

/// Why a violation wasn't confirmed.
pub fn add_reason(out: &mut String, reason: Reason) -> Result<(), OutOfMemory>
    ensures { OnOk result (string_bytes out.new ≡ string_bytes out.old ++ reason_text reason) }
{
    match reason {
        Reason::Ended => out.push_str("ended")?,
        Reason::Undefined(spot) => {
            let line = spot.line;
            let column = spot.column;
            write!(out, "undefined {line}:{column}")?;
        }
        Reason::Unmatched => out.push_str("unmatched")?,
    }
    Ok(())
}

/// The line that says why a violation wasn't confirmed.
pub fn add_reason_line(out: &mut String, reason: Reason) -> Result<(), OutOfMemory>
    ensures { OnOk result (string_bytes out.new ≡ string_bytes out.old ++ reason_line reason) }
{
    out.push_str("reason ")?;
    add_reason(out, reason)?;
    out.push_str("\n")?;
    Ok(())
}

fn add_placed_kind(out: &mut String, duty: Duty) -> Result<(), OutOfMemory>
    ensures { OnOk result (string_bytes out.new ≡ string_bytes out.old ++ placed_kind duty) }
{
    let kind = name_of_kind(duty.kind);
    let line = duty.spot.line;
    let column = duty.spot.column;
    write!(out, "{kind} {line}:{column}\n")?;
    Ok(())
}

/// An obligation, with its number, its kind and its place.
pub fn add_obligation(out: &mut String, index: u32, duty: Duty) -> Result<(), OutOfMemory>
    ensures { OnOk result (string_bytes out.new ≡ string_bytes out.old ++ obligation_line index duty) }
{
    write!(out, "obligation {index} ")?;
    add_placed_kind(out, duty)?;
    Ok(())
}

/// Why a verdict is undecided.
pub fn add_cause(out: &mut String, cause: Cause) -> Result<(), OutOfMemory>
    ensures { OnOk result (string_bytes out.new ≡ string_bytes out.old ++ cause_text cause) }
{
    match cause {
        Cause::Steps(count) => write!(out, "steps {count}")?,
        Cause::Cells => out.push_str("cells")?,
        Cause::Conflicts { index, count } => write!(out, "conflicts {count} obligation {index}")?,
    }
    Ok(())
}

/// The line of an undecided verdict.
pub fn add_undecided(out: &mut String, cause: Cause) -> Result<(), OutOfMemory>
    ensures { OnOk result (string_bytes out.new
        ≡ string_bytes out.old ++ line (codes "undecided " ++ cause_text cause)) }
{
    out.push_str("undecided ")?;
    add_cause(out, cause)?;
    out.push_str("\n")?;
    Ok(())
}

/// A refusal, with its detail where there is one.
pub fn add_refusal(out: &mut String, code: &str, detail: &str) -> Result<(), OutOfMemory>
    ensures { OnOk result (string_bytes out.new ≡ string_bytes out.old ++ refusal_line code.now detail.now) }
{
    if detail.is_empty() {
        write!(out, "refused {code}\n")?;
    } else {
        write!(out, "refused {code} {detail}\n")?;
    }
    Ok(())
}
