// DIMACS CNF: comment lines `c ..`, a header `p cnf VARIABLES CLAUSES`, then numbers, of which 0 ends a clause. A line
// that begins with `%` ends the input.
use clauses::{Clause, Cnf};
use std::alloc::{AllocError, Global};
use std::io;
use std::io::BufRead;
use wv_base::{OutOfMemory, Seq};

/// Why there are no clauses: a line that isn't DIMACS, want of memory, or input that can't be read.
#[derive(Drop)]
pub enum Fault {
    Line(u64),
    Memory,
    Input(io::Error),
}

impl From<OutOfMemory> for Fault {
    fn from(_: OutOfMemory) -> Fault {
        Fault::Memory
    }
}

impl From<AllocError> for Fault {
    fn from(_: AllocError) -> Fault {
        Fault::Memory
    }
}

/// What is read so far.
#[derive(Drop)]
struct Reader {
    alloc: Global,
    variables: Option<u32>,
    wanted: u64,
    given: u64,
    /// the numbers of a clause that has no end yet
    numbers: Vec<i32>,
    clauses: Seq<Clause>,
}

/// Whether a line may stand where it does, or ends the input.
#[derive(Clone, Copy, PartialEq, Eq)]
enum Line {
    Good,
    Bad,
    End,
}

/// No clause has a variable above this one.
const MOST: u32 = 0x7fff_fff0;

// the numbers in rising order, each once
fn tidy(alloc: Global, mut numbers: Vec<i32>) -> Result<Seq<i32>, OutOfMemory> {
    numbers.sort_unstable();
    let mut tidied = Seq::new(alloc);
    let mut last = 0;
    for number in &numbers {
        if *number != last {
            tidied.push(*number)?;
            last = *number;
        }
    }
    Ok(tidied)
}

impl Reader {
    fn header(&mut self, line: &str) -> Line {
        let mut words = line.split_whitespace().skip(1);
        let (Some(form), Some(variables), Some(clauses), None) = (
            words.next(),
            words.next(),
            words.next(),
            words.next(),
        ) else {
            return Line::Bad;
        };
        let (Ok(variables), Ok(clauses)) = (variables.parse::<u32>(), clauses.parse::<u64>()) else {
            return Line::Bad;
        };
        if form != "cnf" || self.variables.is_some() || variables > MOST {
            return Line::Bad;
        }
        self.variables = Some(variables);
        self.wanted = clauses;
        Line::Good
    }

    // a clause that holds a number and its opposite says nothing, and is left out
    fn end_clause(&mut self) -> Result<(), OutOfMemory> {
        let numbers = std::mem::replace(&mut self.numbers, Vec::new(self.alloc));
        if let Some(clause) = Clause::new(tidy(self.alloc, numbers)?) {
            self.clauses.push(clause)?;
        }
        self.given = self.given.saturating_add(1);
        Ok(())
    }

    fn number(&mut self, word: &str) -> Result<Line, OutOfMemory> {
        let Some(variables) = self.variables else {
            return Ok(Line::Bad);
        };
        match word.parse::<i32>() {
            Ok(0) => self.end_clause()?,
            Ok(number) if number.unsigned_abs() <= variables => self.numbers.push(number)?,
            _ => return Ok(Line::Bad),
        }
        Ok(Line::Good)
    }

    fn line(&mut self, line: &str) -> Result<Line, OutOfMemory> {
        if line.starts_with("c") {
            return Ok(Line::Good);
        }
        if line.starts_with("p") {
            return Ok(self.header(line));
        }
        if line.starts_with("%") {
            return Ok(Line::End);
        }
        for word in line.split_whitespace() {
            if self.number(word)? == Line::Bad {
                return Ok(Line::Bad);
            }
        }
        Ok(Line::Good)
    }

    // the clauses, where the last one has an end and there are as many as the header says
    fn finish(self, line: u64) -> Result<Cnf, Fault> {
        let Reader {
            alloc: _,
            variables,
            wanted,
            given,
            numbers,
            clauses,
        } = self;
        if !numbers.is_empty() || given != wanted {
            return Err(Fault::Line(line));
        }
        match Cnf::new(variables.unwrap_or(0), clauses) {
            Some(cnf) if variables.is_some() => Ok(cnf),
            _ => Err(Fault::Line(line)),
        }
    }
}

/// The clauses that a reader gives.
pub fn read<R: BufRead + Drop>(alloc: Global, input: R) -> Result<Cnf, Fault> {
    let mut reader = Reader {
        alloc,
        variables: None,
        wanted: 0,
        given: 0,
        numbers: Vec::new(alloc),
        clauses: Seq::new(alloc),
    };
    let mut at = 0u64;
    for line in input.lines(alloc) {
        at = at.saturating_add(1);
        let text = match line {
            Ok(text) => text,
            Err(fault) => return Err(Fault::Input(fault)),
        };
        match reader.line(text.as_str())? {
            Line::Good => {}
            Line::Bad => return Err(Fault::Line(at)),
            Line::End => break,
        }
    }
    reader.finish(at)
}
