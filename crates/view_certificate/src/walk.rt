// A walk over the lines of a certificate. What stands in the line of a chain is told by the reader of certificates.
use std::alloc::Global;
use std::str;
use wv_base::OutOfMemory;
use wv_cert::{CertFault, read_certificate};

/// What the next line has to be.
#[derive(Clone, Copy)]
pub enum Wanted {
    First,
    Count,
    Log,
    Chain,
    Nothing,
}

/// Where a walk stands.
#[derive(Clone, Copy)]
pub struct Walk {
    pub wanted: Wanted,
    /// How many obligations the certificate says that it has.
    pub count: u64,
    /// The obligation of the last log that was begun, from 1.
    pub obligation: u64,
    /// How many chains that log says that it has, and how many of them were passed.
    pub chains: u64,
    pub passed: u64,
}

/// The number that a text is, as certificates write numbers.
fn number(digits: &str) -> Option<u64> {
    if digits.starts_with("+") {
        return None;
    }
    if digits.len() > 1 && digits.starts_with("0") {
        return None;
    }
    digits.parse::<u64>().ok()
}

/// How many obligations a line says that there are.
fn count_in(line: &[u8]) -> Option<u64> {
    let text = str::from_utf8(line).ok()?;
    number(text.strip_prefix("obligations ")?)
}

/// The obligation of a log and how many chains it has, by its first line.
pub fn log_in(line: &[u8]) -> Option<(u64, u64)> {
    let text = str::from_utf8(line).ok()?;
    let behind = text.strip_prefix("obligation ")?;
    let (obligation, chains) = behind.split_once(" chains ")?;
    Some((number(obligation)?, number(chains)?))
}

/// Whether a line is that of a chain.
fn is_chain(alloc: Global, line: &[u8]) -> Result<bool, OutOfMemory> {
    let head = "witval certificate 1\nobligations 1\nobligation 1 chains 1\n";
    let mut text = Vec::from_slice(alloc, head.as_bytes())?;
    text.extend_from_slice(line)?;
    text.extend_from_slice(b"\n")?;
    match read_certificate(alloc, text.as_slice()) {
        Ok(_) => Ok(true),
        Err(CertFault::OutOfMemory) => Err(OutOfMemory),
        Err(CertFault::Form) => Ok(false),
    }
}

impl Walk {
    /// Before the first line.
    pub fn new() -> Walk {
        Walk {
            wanted: Wanted::First,
            count: 0,
            obligation: 0,
            chains: 0,
            passed: 0,
        }
    }

    fn wants_log(&mut self) {
        self.wanted = if self.obligation < self.count {
            Wanted::Log
        } else {
            Wanted::Nothing
        };
    }

    fn wants_chain(&mut self) {
        if self.passed < self.chains {
            self.wanted = Wanted::Chain;
        } else {
            self.wants_log();
        }
    }

    fn takes_first(&mut self, line: &[u8]) -> bool {
        if line != b"witval certificate 1".as_slice() {
            return false;
        }
        self.wanted = Wanted::Count;
        true
    }

    fn takes_count(&mut self, line: &[u8]) -> bool {
        let Some(count) = count_in(line) else {
            return false;
        };
        self.count = count;
        self.wants_log();
        true
    }

    fn takes_log(&mut self, line: &[u8]) -> bool {
        let Some((obligation, chains)) = log_in(line) else {
            return false;
        };
        if obligation != self.obligation.saturating_add(1) {
            return false;
        }
        self.obligation = obligation;
        self.chains = chains;
        self.passed = 0;
        self.wants_chain();
        true
    }

    fn takes_chain(&mut self, alloc: Global, line: &[u8]) -> Result<bool, OutOfMemory> {
        if !is_chain(alloc, line)? {
            return Ok(false);
        }
        self.passed = self.passed.saturating_add(1);
        self.wants_chain();
        Ok(true)
    }

    /// Passes a line, where it is what is wanted; whether it is. What is wanted stays as it is where it isn't.
    pub fn takes(&mut self, alloc: Global, line: &[u8]) -> Result<bool, OutOfMemory> {
        match self.wanted {
            Wanted::First => Ok(self.takes_first(line)),
            Wanted::Count => Ok(self.takes_count(line)),
            Wanted::Log => Ok(self.takes_log(line)),
            Wanted::Chain => self.takes_chain(alloc, line),
            Wanted::Nothing => Ok(false),
        }
    }
}
