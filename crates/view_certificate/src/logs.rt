// A log that doesn't refute the clauses of its obligation: the chain at which that shows.
use crate::obliged::Obliged;
use c_core::Spot;
use circuits::{Bit, Net};
use clauses::{Cnf, accepts_log, cnf_of};
use std::alloc::Global;
use view_claims::note_obligation;
use view_text::{File, Files, Growing, Messages, last_holding};
use wv_base::OutOfMemory;
use wv_cert::{CertFault, read_certificate};

/// The lines of a log in a certificate.
#[derive(Drop)]
struct LogLines<'a> {
    /// The number of its first line, which names the obligation.
    line: u32,
    /// The text behind that line.
    text: &'a [u8],
    /// Where so many of its chains end in the text.
    ends: Vec<usize>,
}

/// The number of the line at which the log of an obligation begins, and the text behind it.
fn log_at<'a>(
    alloc: Global,
    text: &'a [u8],
    obligation: u32,
) -> Result<Option<(u32, &'a [u8])>, OutOfMemory> {
    let head = format!(in alloc; "obligation {obligation} ")?;
    let mut line = 0u32;
    let mut end = 0usize;
    for piece in text.split(|byte| *byte == b'\n') {
        line = line.saturating_add(1);
        end = end.saturating_add(piece.len()).saturating_add(1);
        if piece.starts_with(head.as_bytes()) {
            return Ok(Some((line, text.get(end..).unwrap_or(&[]))));
        }
    }
    Ok(None)
}

/// Where so many chains end in the text of a log, up to the next log or the end.
fn chain_ends(alloc: Global, text: &[u8]) -> Result<Vec<usize>, OutOfMemory> {
    let mut ends = Vec::new(alloc);
    let mut end = 0usize;
    for piece in text.split(|byte| *byte == b'\n') {
        ends.push(end)?;
        if piece.is_empty() || piece.starts_with(b"obligation ".as_slice()) {
            break;
        }
        end = end.saturating_add(piece.len()).saturating_add(1);
    }
    Ok(ends)
}

/// The log of an obligation.
fn log_lines<'a>(
    alloc: Global,
    text: &'a [u8],
    obligation: u32,
) -> Result<Option<LogLines<'a>>, OutOfMemory> {
    match log_at(alloc, text, obligation)? {
        Some((line, behind)) => Ok(Some(LogLines {
            line,
            text: behind,
            ends: chain_ends(alloc, behind)?,
        })),
        None => Ok(None),
    }
}

/// Fronts of a log, counted by their chains, each of which is right.
#[derive(Drop)]
struct RightChains<'a> {
    cnf: &'a Cnf,
    text: &'a [u8],
    ends: &'a [usize],
}

impl Growing for RightChains<'_> {
    fn holds(&self, alloc: Global, length: usize) -> Result<bool, OutOfMemory> {
        let end = self.ends.get(length).copied().unwrap_or(0);
        let mut text = format!(in alloc;
            "witval certificate 1\nobligations 1\nobligation 1 chains {length}\n"
        )?.into_bytes();
        text.extend_from_slice(self.text.get(..end).unwrap_or(&[]))?;
        let logs = match read_certificate(alloc, text.as_slice()) {
            Ok(logs) => logs,
            Err(CertFault::OutOfMemory) => return Err(OutOfMemory),
            Err(CertFault::Form) => return Ok(false),
        };
        match logs.get(0) {
            Some(log) => accepts_log(alloc, self.cnf, log),
            None => Ok(false),
        }
    }
}

/// The clauses of a failing bit; none for a net that is larger than any that is made.
fn clauses_of(alloc: Global, net: &Net, bit: Bit) -> Result<Option<Cnf>, OutOfMemory> {
    let nodes = net.nodes();
    if nodes >= 1 << 28 || u64::from(bit.node) >= nodes {
        return Ok(None);
    }
    let clauses = cnf_of(alloc, net, bit)?;
    Ok(Some(clauses))
}

/// What is said of a log of which so many chains are right.
fn told_of(
    alloc: Global,
    obligation: u32,
    right: usize,
    chains: usize,
) -> Result<String, OutOfMemory> {
    if right < chains {
        let chain = right.saturating_add(1);
        return Ok(format!(in alloc;
            "chain {chain} of {chains} of obligation {obligation}: its clauses, resolved in turn on these variables, don't give the clause that it states"
        )?);
    }
    Ok(format!(in alloc;
        "the log of obligation {obligation} ends here, without a last chain that gives the empty clause"
    )?)
}

/// The first chain of a log that isn't right, or its end.
fn explain_chain(
    alloc: Global,
    log: &LogLines<'_>,
    cnf: &Cnf,
    obligation: u32,
    out: &mut Messages,
) -> Result<(), OutOfMemory> {
    let ends = log.ends.as_slice();
    let fronts = RightChains {
        cnf,
        text: log.text,
        ends,
    };
    let right = last_holding(alloc, &fronts, 0, ends.len())?;
    let chains = ends.len().saturating_sub(1);
    let told = told_of(alloc, obligation, right, chains)?;
    let behind = u32::try_from(right.saturating_add(1).min(chains)).unwrap_or(u32::MAX);
    let spot = Spot {
        line: log.line.saturating_add(behind),
        column: 1,
    };
    out.warning("obligation", File::Certificate, Some(spot), told)
}

/// The log of an obligation that isn't accepted.
pub fn explain_log(
    alloc: Global,
    files: &Files<'_>,
    obliged: &Obliged,
    obligation: u32,
    out: &mut Messages,
) -> Result<(), OutOfMemory> {
    let at = obligation.saturating_sub(1) as usize;
    let found = &obliged.obligations;
    let Some(bit) = found.failing.get(at) else {
        return Ok(());
    };
    let Some(duty) = found.list.get(at) else {
        return Ok(());
    };
    let Some(log) = log_lines(alloc, files.text(File::Certificate), obligation)? else {
        return Ok(());
    };
    let Some(cnf) = clauses_of(alloc, &found.net, *bit)? else {
        return Ok(());
    };
    explain_chain(alloc, &log, &cnf, obligation, out)?;
    let why = "its log is refused, so nothing is said of it";
    note_obligation(alloc, files, &obliged.witness, obligation, *duty, why, out)
}
