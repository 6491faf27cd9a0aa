// The lines on which a compiler makes code of a program, by what gcov shows of gcc's: which of them a statement is on,
// and the tests of loops.
use crate::parts::open_parts;
use c_core::{Arm, Declared, Expr, First, Form, Init, Node, Program, Spot, Stmt};
use std::alloc::Global;
use std::collections::BTreeMap;
use wv_base::OutOfMemory;

/// So many parts of an expression are looked at for an effect.
const MOST_PARTS: usize = 1_000;

/// A line that isn't there.
pub const NO_LINE: u32 = 0;

/// The lines of a loop's test and of the step before each test but the first; `NO_LINE` where there is no code.
#[derive(Clone, Copy)]
pub struct Tested {
    pub test: u32,
    pub step: u32,
}

/// The lines of a program's code.
#[derive(Drop)]
pub struct CodeLines {
    /// All of them; those of a statement stand next to each other, in the order of a run.
    lines: Vec<u32>,
    /// Where those of a statement stand among them, by its place.
    begun: BTreeMap<(u32, u32), (usize, usize)>,
    tested: BTreeMap<(u32, u32), Tested>,
    /// The line of each function's head.
    heads: Vec<u32>,
}

/// A statement that is still to be looked at, and the line of the label before it.
type Open<'a> = (&'a Stmt, u32);

fn open_one<'a>(open: &mut Vec<Open<'a>>, stmt: &'a Stmt, label: u32) -> Result<(), OutOfMemory> {
    open.push((stmt, label))?;
    Ok(())
}

fn open_each<'a>(
    open: &mut Vec<Open<'a>>,
    list: &'a [Stmt],
    label: u32,
) -> Result<(), OutOfMemory> {
    let mut before = label;
    for stmt in list {
        open_one(open, stmt, before)?;
        before = NO_LINE;
    }
    Ok(())
}

/// Opens the arms of a `switch`. Of labels that nothing parts the first alone has code.
fn open_arms<'a>(open: &mut Vec<Open<'a>>, arms: &'a [Arm]) -> Result<(), OutOfMemory> {
    let mut label = NO_LINE;
    for arm in arms {
        if label == NO_LINE {
            label = arm.spot.line;
        }
        let body = arm.body.as_slice();
        open_each(open, body, label)?;
        if !body.is_empty() {
            label = NO_LINE;
        }
    }
    Ok(())
}

/// Opens the statements that a statement has.
fn open_stmts<'a>(open: &mut Vec<Open<'a>>, stmt: &'a Stmt) -> Result<(), OutOfMemory> {
    match &stmt.form {
        Form::Block(list) => open_each(open, list.as_slice(), NO_LINE),
        Form::If { yes, no, .. } => {
            open_one(open, yes, NO_LINE)?;
            match no {
                Some(no) => open_one(open, no, NO_LINE),
                None => Ok(()),
            }
        }
        Form::While { body, .. } => open_one(open, body, NO_LINE),
        Form::Do { body, .. } => open_one(open, body, NO_LINE),
        Form::For { body, .. } => open_one(open, body, NO_LINE),
        Form::Label(body) => open_one(open, body, NO_LINE),
        Form::Switch { arms, .. } => open_arms(open, arms.as_slice()),
        _ => Ok(()),
    }
}

/// Whether an expression changes something or calls something: gcc makes no code of other statements.
fn has_effect(alloc: Global, e: &Expr) -> Result<bool, OutOfMemory> {
    let mut open: Vec<&Expr> = Vec::new(alloc);
    open.push(e)?;
    for _ in 0..MOST_PARTS {
        let Some(part) = open.pop() else {
            return Ok(false);
        };
        match &part.node {
            Node::Assign { .. } | Node::Step { .. } | Node::Call { .. } => return Ok(true),
            _ => open_parts(&mut open, part)?,
        }
    }
    Ok(true)
}

/// The line of a test; a constant one has no code.
fn line_of_test(test: &Expr) -> u32 {
    match &test.node {
        Node::Const(_) => NO_LINE,
        _ => test.spot.line,
    }
}

fn line_of_test_if(test: &Option<Expr>) -> u32 {
    match test {
        Some(test) => line_of_test(test),
        None => NO_LINE,
    }
}

fn line_of_step(step: &Option<Expr>) -> u32 {
    match step {
        Some(step) => step.spot.line,
        None => NO_LINE,
    }
}

/// What the test of a loop comes to; none of another statement.
fn tested_of(stmt: &Stmt) -> Option<Tested> {
    match &stmt.form {
        Form::While { test, .. } => Some(Tested {
            test: line_of_test(test),
            step: NO_LINE,
        }),
        Form::Do { test, .. } => Some(Tested {
            test: line_of_test(test),
            step: NO_LINE,
        }),
        Form::For { test, step, .. } => Some(Tested {
            test: line_of_test_if(test),
            step: line_of_step(step),
        }),
        _ => None,
    }
}

impl CodeLines {
    /// The lines of a program's code.
    pub fn new(alloc: Global, program: &Program) -> Result<CodeLines, OutOfMemory> {
        let mut code = CodeLines {
            lines: Vec::new(alloc),
            begun: BTreeMap::new(alloc),
            tested: BTreeMap::new(alloc),
            heads: Vec::new(alloc),
        };
        let mut open = Vec::new(alloc);
        for function in program.functions.as_slice() {
            code.heads.push(function.body.spot.line)?;
            code.lines.push(function.body.spot.line)?;
            open_one(&mut open, &function.body, NO_LINE)?;
        }
        code.add_all(alloc, &mut open)?;
        Ok(code)
    }

    /// Adds the open statements and all that they have.
    fn add_all(&mut self, alloc: Global, open: &mut Vec<Open<'_>>) -> Result<(), OutOfMemory> {
        for _ in 0..u64::MAX {
            let Some((stmt, label)) = open.pop() else {
                break;
            };
            self.add(alloc, stmt, label)?;
            open_stmts(open, stmt)?;
        }
        Ok(())
    }

    fn push(&mut self, line: u32) -> Result<(), OutOfMemory> {
        if line != NO_LINE {
            self.lines.push(line)?;
        }
        Ok(())
    }

    /// Adds a statement behind a label.
    fn add(&mut self, alloc: Global, stmt: &Stmt, label: u32) -> Result<(), OutOfMemory> {
        let from = self.lines.len();
        self.push(label)?;
        self.push_begun(alloc, stmt)?;
        let place = (stmt.spot.line, stmt.spot.column);
        self.begun.insert(place, (from, self.lines.len()))?;
        if let Some(tested) = tested_of(stmt) {
            self.push(tested.test)?;
            self.push(tested.step)?;
            self.tested.insert(place, tested)?;
        }
        Ok(())
    }

    /// The lines that a statement comes to when it is begun.
    fn push_begun(&mut self, alloc: Global, stmt: &Stmt) -> Result<(), OutOfMemory> {
        let line = stmt.spot.line;
        match &stmt.form {
            Form::Empty | Form::Block(_) | Form::Do { .. } => Ok(()),
            Form::Expr(e) => {
                if has_effect(alloc, e)? {
                    self.push(line)?;
                }
                Ok(())
            }
            Form::Declare(list) => self.push_declared(list.as_slice()),
            Form::While { test, .. } => self.push(line_of_test(test)),
            Form::For { first, test, .. } => self.push_first(first, test),
            _ => self.push(line),
        }
    }

    fn push_first(&mut self, first: &First, test: &Option<Expr>) -> Result<(), OutOfMemory> {
        match first {
            First::Absent => self.push(line_of_test_if(test)),
            First::Expr(e) => self.push(e.spot.line),
            First::Declare(list) => self.push_declared(list.as_slice()),
        }
    }

    /// The lines of objects that get a value.
    fn push_declared(&mut self, list: &[Declared]) -> Result<(), OutOfMemory> {
        for declared in list {
            if !matches!(&declared.init, Init::Absent) {
                self.push(declared.spot.line)?;
            }
        }
        Ok(())
    }

    /// All lines that have code, some more than once.
    pub fn as_slice(&self) -> &[u32] {
        self.lines.as_slice()
    }

    /// The lines that a statement comes to when it is begun.
    pub fn begun_at(&self, spot: Spot) -> &[u32] {
        match self.begun.get(&(spot.line, spot.column)) {
            Some((from, to)) => self.lines.get(*from..*to).unwrap_or(&[]),
            None => &[],
        }
    }

    /// The test of the loop at a place.
    pub fn tested_at(&self, spot: Spot) -> Option<Tested> {
        self.tested.get(&(spot.line, spot.column)).copied()
    }

    /// The line of a function's head, by its number.
    pub fn head(&self, function: u32) -> u32 {
        self.heads
            .get(function as usize)
            .copied()
            .unwrap_or(NO_LINE)
    }
}
