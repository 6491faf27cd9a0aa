// Bytes that are no certificate: the line at which that shows.
use crate::walk::{Walk, Wanted};
use c_core::Spot;
use std::alloc::Global;
use view_text::{File, Files, Messages};
use wv_base::OutOfMemory;

/// Where bytes stop to be a certificate.
#[derive(Clone, Copy)]
struct Stopped {
    line: u32,
    walk: Walk,
    /// Whether every line was passed, and the last of them has no end.
    is_cut: bool,
}

fn stopped_in(alloc: Global, text: &[u8]) -> Result<Stopped, OutOfMemory> {
    let mut walk = Walk::new();
    let mut line = 0u32;
    for piece in text.split(|byte| *byte == b'\n') {
        line = line.saturating_add(1);
        if !walk.takes(alloc, piece)? {
            return Ok(Stopped {
                line,
                walk,
                is_cut: false,
            });
        }
    }
    Ok(Stopped {
        line,
        walk,
        is_cut: true,
    })
}

/// What has to stand where a walk stands.
fn wanted_text(alloc: Global, walk: &Walk) -> Result<String, OutOfMemory> {
    let count = walk.count;
    let chains = walk.chains;
    let obligation = walk.obligation;
    let chain = walk.passed.saturating_add(1);
    let next = obligation.saturating_add(1);
    match walk.wanted {
        Wanted::First => Ok(String::from_str(
            alloc,
            "the first line of a certificate has to be `witval certificate 1`",
        )?),
        Wanted::Count => Ok(String::from_str(
            alloc,
            "the second line has to be `obligations N`, with how many there are",
        )?),
        Wanted::Log => Ok(format!(in alloc;
            "the log of obligation {next} of {count} has to begin here: `obligation {next} chains K`, with how many chains it has"
        )?),
        Wanted::Chain => Ok(format!(in alloc;
            "chain {chain} of {chains} of obligation {obligation} has to stand here: `START WITH:ON .. = NUMBER ..`, numbers without zeros before them, the last ones rising"
        )?),
        Wanted::Nothing => Ok(format!(in alloc;
            "nothing may follow the last of the {count} obligations that the second line names"
        )?),
    }
}

fn text_of(alloc: Global, stopped: &Stopped) -> Result<String, OutOfMemory> {
    if stopped.is_cut {
        return Ok(String::from_str(
            alloc,
            "this line has no end: each line of a certificate ends with a line feed, the last one too",
        )?);
    }
    wanted_text(alloc, &stopped.walk)
}

/// A certificate that is none: its first line that isn't what has to stand there.
pub fn explain_form(
    alloc: Global,
    files: &Files<'_>,
    out: &mut Messages,
) -> Result<(), OutOfMemory> {
    let stopped = stopped_in(alloc, files.text(File::Certificate))?;
    let told = text_of(alloc, &stopped)?;
    let spot = Spot {
        line: stopped.line,
        column: 1,
    };
    out.error("certificate", File::Certificate, Some(spot), told)
}
