// How often a run comes to each line, as gcov counts it: from another line of the same call of a function, or by a turn
// of a loop that stays on the line.
use crate::code_lines::{CodeLines, NO_LINE, Tested};
use c_core::{Callee, Node, Program, Spot};
use c_meaning::Event;
use std::alloc::Global;
use way_places::Index;
use wv_base::OutOfMemory;

/// A call of a function: the line of its code that it came to last, and the place of a loop that is to be tested first.
#[derive(Clone, Copy)]
struct Frame {
    line: u32,
    fresh: (u32, u32),
}

const NEW: Frame = Frame {
    line: NO_LINE,
    fresh: (0, 0),
};

/// The counts of a run.
#[derive(Drop)]
pub struct Counts {
    code: CodeLines,
    counts: Vec<u64>,
    /// The calls that aren't over, without the last.
    below: Vec<Frame>,
    top: Frame,
}

fn count(counts: &mut Vec<u64>, line: u32) {
    let at = (line as usize).saturating_sub(1);
    if let Some(count) = counts.get_mut(at) {
        *count = count.saturating_add(1);
    }
}

/// The run comes to a line.
fn come(counts: &mut Vec<u64>, top: &mut Frame, line: u32) {
    if line != NO_LINE && line != top.line {
        count(counts, line);
        top.line = line;
    }
}

/// No line was come to yet.
fn no_counts(alloc: Global, lines: u32) -> Result<Vec<u64>, OutOfMemory> {
    let mut counts = Vec::new(alloc);
    for _ in 0..lines {
        counts.push(0)?;
    }
    Ok(counts)
}

/// The function with a body that the call with this closing parenthesis calls.
fn function_at(index: &Index, close: Spot) -> Option<u32> {
    let Some(call) = index.call_at(close) else {
        return None;
    };
    match &call.node {
        Node::Call {
            callee: Callee::Defined(function),
            ..
        } => Some(*function),
        _ => None,
    }
}

impl Counts {
    /// Before all events of a run of a program of so many lines.
    pub fn new(alloc: Global, program: &Program, lines: u32) -> Result<Counts, OutOfMemory> {
        let code = CodeLines::new(alloc, program)?;
        let head = code.head(program.main);
        let mut counts = no_counts(alloc, lines)?;
        let mut top = NEW;
        come(&mut counts, &mut top, head);
        Ok(Counts {
            code,
            counts,
            below: Vec::new(alloc),
            top,
        })
    }

    /// How often each line was come to, from line 1.
    pub fn as_slice(&self) -> &[u64] {
        self.counts.as_slice()
    }

    /// The lines that have code, some more than once.
    pub fn coded(&self) -> &[u32] {
        self.code.as_slice()
    }

    fn begin(&mut self, spot: Spot) {
        for line in self.code.begun_at(spot) {
            come(&mut self.counts, &mut self.top, *line);
        }
        if self.code.tested_at(spot).is_some() {
            self.top.fresh = (spot.line, spot.column);
        }
    }

    /// A test of a loop behind a turn: one that stays on its line is counted there.
    fn turn(&mut self, tested: Tested) {
        let before = self.top.line;
        come(&mut self.counts, &mut self.top, tested.step);
        come(&mut self.counts, &mut self.top, tested.test);
        if tested.step == NO_LINE && tested.test == NO_LINE {
            self.top.line = NO_LINE;
        } else if (tested.step == NO_LINE || tested.step == before)
            && (tested.test == NO_LINE || tested.test == before)
        {
            count(&mut self.counts, before);
        }
    }

    fn test(&mut self, spot: Spot) {
        let Some(tested) = self.code.tested_at(spot) else {
            return;
        };
        if self.top.fresh == (spot.line, spot.column) {
            self.top.fresh = (0, 0);
            come(&mut self.counts, &mut self.top, tested.test);
        } else {
            self.turn(tested);
        }
    }

    fn enter(&mut self, function: u32) -> Result<(), OutOfMemory> {
        self.below.push(self.top)?;
        self.top = NEW;
        let head = self.code.head(function);
        come(&mut self.counts, &mut self.top, head);
        Ok(())
    }

    /// Takes the counts past an event.
    pub fn pass(&mut self, index: &Index, event: Event) -> Result<(), OutOfMemory> {
        match event {
            Event::At(spot) => self.begin(spot),
            Event::Branch(spot, _) => self.test(spot),
            Event::Enter(close) => {
                if let Some(function) = function_at(index, close) {
                    self.enter(function)?;
                }
            }
            Event::Return(close, _) => {
                if function_at(index, close).is_some() {
                    self.top = self.below.pop().unwrap_or(NEW);
                }
            }
            Event::Fail { .. } => {}
        }
        Ok(())
    }
}
