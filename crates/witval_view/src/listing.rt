// A list that is named, read, and judged line by line.
use std::alloc::Global;
use std::io::{ErrorKind, IsTerminal};
use std::time::Instant;
use std::{fs, io};
use view_judging::{Judging, Progress, Stop, judge_lines};
use wv_process::{FileShelf, OutSink};

/// A line on standard error that says how far a list is that takes over a second, where that is a terminal.
#[derive(Drop)]
struct ProgressLine<'a> {
    rt: &'a HostRuntime,
    /// When the list was begun; none where no terminal is written on.
    begun: Option<Instant>,
    is_shown: bool,
}

/// When a list is begun whose progress a terminal shows.
fn watched_from(rt: &HostRuntime) -> Option<Instant> {
    if rt.stderr().is_terminal() {
        Instant::now(rt).ok()
    } else {
        None
    }
}

impl ProgressLine<'_> {
    fn is_due(&self) -> bool {
        match self.begun {
            Some(begun) => match begun.elapsed(self.rt) {
                Ok(passed) => passed.as_secs() > 0,
                Err(_) => false,
            },
            None => false,
        }
    }

    /// Wipes the line (ECMA-48 8.3.41, EL).
    fn wipe(&self) {
        if self.is_shown {
            let _ = self.rt.eprint("\r\x1b[K");
        }
    }
}

impl Progress for ProgressLine<'_> {
    fn begins(&mut self, number: usize, total: usize) {
        if self.is_due() {
            self.is_shown = true;
            let _ = eprint!(self.rt; "\rwitval-view: line {number} of {total} ");
        }
    }
}

/// The text of a list, which is standard input where it is named `-`; or 4 where it can't be read, 6 where
/// memory runs out.
fn list_text(rt: &HostRuntime, alloc: Global, name: &str) -> Result<String, u8> {
    let read = if name == "-" {
        io::read_to_string(alloc, rt.reader())
    } else {
        fs::read_to_string(rt, name)
    };
    match read {
        Ok(text) => Ok(text),
        Err(e) if e.kind() == ErrorKind::OutOfMemory => Err(6),
        Err(_) => {
            let _ = rt.eprint("witval-view: the list can't be read, or isn't UTF-8\n");
            Err(4)
        }
    }
}

/// The status of a list that isn't judged to its end, which standard error says.
fn stopped(rt: &HostRuntime, stop: Stop) -> u8 {
    let _ = match stop {
        Stop::NoTask(number) => eprintln!(rt;
            "witval-view: line {number} of the list doesn't name a program, a property and a witness"
        ),
        Stop::Unwritten => eprintln!(rt; "witval-view: a line couldn't be written"),
        Stop::OutOfMemory => eprintln!(rt; "witval-view: out of memory"),
    };
    stop.status()
}

/// Judges all lines of a list; the status that the program ends with.
pub fn judge_list(rt: &HostRuntime, alloc: Global, name: &str, judging: Judging) -> u8 {
    let text = match list_text(rt, alloc, name) {
        Ok(text) => text,
        Err(status) => return status,
    };
    let mut progress = ProgressLine {
        rt,
        begun: watched_from(rt),
        is_shown: false,
    };
    let mut out = OutSink::new(rt);
    let judged = judge_lines(
        alloc,
        text.as_str(),
        judging,
        FileShelf::new(rt, alloc),
        &mut out,
        &mut progress,
    );
    progress.wipe();
    match judged {
        Ok(worst) => worst,
        Err(stop) => stopped(rt, stop),
    }
}
