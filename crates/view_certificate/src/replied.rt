// What there is to say of the reply to a certificate.
use crate::form::explain_form;
use crate::logs::explain_log;
use crate::obliged::obliged_by;
use crate::walk::log_in;
use c_core::Spot;
use std::alloc::Global;
use view_claims::show_obligations;
use view_program::{Question, explain};
use view_text::{File, Files, Messages, advice};
use wv_arguments::Budgets;
use wv_base::OutOfMemory;

/// What is judged where a stage before the obligations refuses: none of it is spent.
const LEAST: Budgets = Budgets {
    steps: 1,
    conflicts: 1,
};

/// The stages alone.
fn stages() -> Question<'static> {
    Question {
        budgets: LEAST,
        values: None,
        program: None,
    }
}

/// How many chains each log of a certificate has.
fn chain_counts(alloc: Global, certificate: &[u8]) -> Result<Vec<u64>, OutOfMemory> {
    let mut counts = Vec::new(alloc);
    for line in certificate.split(|byte| *byte == b'\n') {
        if let Some((_, count)) = log_in(line) {
            counts.push(count)?;
        }
    }
    Ok(counts)
}

/// The obligations of a certificate that is accepted.
fn show_accepted(alloc: Global, files: &Files<'_>, out: &mut Messages) -> Result<(), OutOfMemory> {
    match obliged_by(alloc, files)? {
        Some(found) => {
            let list = found.obligations.list.as_slice();
            let chains = chain_counts(alloc, files.text(File::Certificate))?;
            show_obligations(alloc, &found.witness, list, chains.as_slice(), out)
        }
        None => Ok(()),
    }
}

/// A certificate with more or fewer logs than there are obligations, by the line of the reply.
fn explain_count(alloc: Global, line: &str, out: &mut Messages) -> Result<(), OutOfMemory> {
    let told = format!(in alloc;
        "{line}: the certificate was made for other invariants, another property or another program"
    )?;
    let spot = Spot { line: 2, column: 1 };
    out.warning("obligation", File::Certificate, Some(spot), told)
}

/// A certificate that is refused, by the second line of the reply.
fn explain_refused(
    alloc: Global,
    files: &Files<'_>,
    line: &str,
    out: &mut Messages,
) -> Result<(), OutOfMemory> {
    let Some(digits) = line.strip_prefix("obligation ") else {
        return explain_count(alloc, line, out);
    };
    let number = digits.parse::<u32>().unwrap_or(0);
    match obliged_by(alloc, files)? {
        Some(found) => explain_log(alloc, files, &found, number, out),
        None => Ok(()),
    }
}

/// A violation sequence, of which there is no certificate.
fn explain_kind(alloc: Global, out: &mut Messages) -> Result<(), OutOfMemory> {
    let spot = Spot { line: 1, column: 1 };
    let told = String::from_str(alloc, advice("kind"))?;
    out.error("kind", File::Witness, Some(spot), told)
}

/// What there is to say of a reply of `recheck` to files that were read whole.
pub fn explain_certificate(
    alloc: Global,
    files: &Files<'_>,
    reply: &str,
    out: &mut Messages,
) -> Result<(), OutOfMemory> {
    let mut lines = reply.lines();
    let first = lines.next().unwrap_or("");
    let second = lines.next().unwrap_or("");
    if first == "certificate accepted" {
        show_accepted(alloc, files, out)
    } else if first == "certificate refused" {
        explain_refused(alloc, files, second, out)
    } else if first.starts_with("refused certificate") {
        explain_form(alloc, files, out)
    } else if first == "refused kind" {
        explain_kind(alloc, out)
    } else {
        explain(alloc, files, stages(), out)
    }
}
