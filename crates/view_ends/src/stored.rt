// The objects in which the values of input calls are stored.
use c_core::{Arm, Declared, Expr, First, Form, Function, Init, Node, Program, Stmt};
use std::alloc::Global;
use std::collections::BTreeMap;
use way_places::{InputCall, input_of};
use wv_base::OutOfMemory;

/// So many statements are looked at: a program has fewer, as each takes a byte of its text.
const MOST: usize = 1_048_576;

/// An object and the input call whose value it takes.
#[derive(Clone, Copy)]
pub struct Stored {
    pub object: u32,
    pub call: InputCall,
}

fn stored_from(object: u32, from: &Expr) -> Option<Stored> {
    match input_of(from) {
        Some(call) => Some(Stored { object, call }),
        None => None,
    }
}

/// What `x = input()` stores.
fn stored_by_expr(e: &Expr) -> Option<Stored> {
    let Node::Assign {
        op: None,
        target,
        from,
    } = &e.node
    else {
        return None;
    };
    match &target.node {
        Node::Var(object) => stored_from(*object, from),
        _ => None,
    }
}

/// What `x = input()` stores in a declaration.
fn stored_by_name(declared: &Declared) -> Option<Stored> {
    match &declared.init {
        Init::One(from) => stored_from(declared.object, from),
        _ => None,
    }
}

/// What `x = input();` or `T x = input();` stores.
pub fn stored_by(s: &Stmt) -> Option<Stored> {
    match &s.form {
        Form::Expr(e) => stored_by_expr(e),
        Form::Declare(names) => match names.as_slice() {
            [name] => stored_by_name(name),
            _ => None,
        },
        _ => None,
    }
}

/// The objects by the starts of the calls whose values they take, and the statements that are still to be looked at.
#[derive(Drop)]
struct Seeker<'a> {
    objects: BTreeMap<(u32, u32), u32>,
    open: Vec<&'a Stmt>,
}

impl<'a> Seeker<'a> {
    fn keep(&mut self, found: Option<Stored>) -> Result<(), OutOfMemory> {
        if let Some(stored) = found {
            let spot = stored.call.spot;
            self.objects
                .insert((spot.line, spot.column), stored.object)?;
        }
        Ok(())
    }

    fn keep_each(&mut self, names: &[Declared]) -> Result<(), OutOfMemory> {
        for name in names {
            self.keep(stored_by_name(name))?;
        }
        Ok(())
    }

    fn keep_first(&mut self, first: &First) -> Result<(), OutOfMemory> {
        match first {
            First::Absent => Ok(()),
            First::Expr(e) => self.keep(stored_by_expr(e)),
            First::Declare(names) => self.keep_each(names.as_slice()),
        }
    }

    fn open_one(&mut self, s: &'a Stmt) -> Result<(), OutOfMemory> {
        self.open.push(s)?;
        Ok(())
    }

    fn open_each(&mut self, list: &'a [Stmt]) -> Result<(), OutOfMemory> {
        for s in list {
            self.open_one(s)?;
        }
        Ok(())
    }

    fn open_arms(&mut self, arms: &'a [Arm]) -> Result<(), OutOfMemory> {
        for arm in arms {
            self.open_each(arm.body.as_slice())?;
        }
        Ok(())
    }

    fn look(&mut self, s: &'a Stmt) -> Result<(), OutOfMemory> {
        match &s.form {
            Form::Expr(e) => self.keep(stored_by_expr(e)),
            Form::Declare(names) => self.keep_each(names.as_slice()),
            Form::Block(list) => self.open_each(list.as_slice()),
            Form::If { yes, no, .. } => {
                if let Some(no) = no {
                    self.open_one(no)?;
                }
                self.open_one(yes)
            }
            Form::While { body, .. } => self.open_one(body),
            Form::Do { body, .. } => self.open_one(body),
            Form::For { first, body, .. } => {
                self.keep_first(first)?;
                self.open_one(body)
            }
            Form::Label(of) => self.open_one(of),
            Form::Switch { arms, .. } => self.open_arms(arms.as_slice()),
            _ => Ok(()),
        }
    }

    fn open_bodies(&mut self, functions: &'a [Function]) -> Result<(), OutOfMemory> {
        for function in functions {
            self.open_one(&function.body)?;
        }
        Ok(())
    }
}

/// The objects in which input calls are stored, by the lines and columns of the calls' starts.
pub fn stored_inputs(
    alloc: Global,
    program: &Program,
) -> Result<BTreeMap<(u32, u32), u32>, OutOfMemory> {
    let mut seeker = Seeker {
        objects: BTreeMap::new(alloc),
        open: Vec::new(alloc),
    };
    seeker.open_bodies(program.functions.as_slice())?;
    for _ in 0..MOST {
        let Some(s) = seeker.open.pop() else {
            break;
        };
        seeker.look(s)?;
    }
    Ok(seeker.objects)
}
