// The values of literals, the order in which they came, and why.
use crate::arena::NO_CLAUSE;
use crate::cells::{at, filled, put};
use crate::lit::Lit;
use std::alloc::Global;
use wv_base::OutOfMemory;

/// What a literal is under the trail.
#[derive(Clone, Copy)]
pub enum Value {
    Open,
    True,
    False,
}

const TRUE: u8 = 2;

const OPEN: u8 = 1;

const FALSE: u8 = 0;

/// Of a variable that has a value: its level, the clause that forced it or `NO_CLAUSE`, and its place on the trail.
#[derive(Clone, Copy)]
pub struct Cause {
    pub level: u32,
    pub reason: u32,
    pub place: u32,
}

const NO_CAUSE: Cause = Cause {
    level: 0,
    reason: NO_CLAUSE,
    place: 0,
};

/// The trail: the variables in the order in which they got their values, with reasons and levels.
#[derive(Drop)]
pub struct Values {
    /// by code: 2 for a literal that is true, 1 for an open one, 0 for a false one and where no variable is
    pub weights: Vec<u8>,
    causes: Vec<Cause>,
    pub trail: Vec<Lit>,
    /// where the trail of each level above 0 begins
    begins: Vec<u32>,
    /// the value that each variable had last
    phases: Vec<bool>,
    /// how much of the trail is propagated
    pub head: usize,
}

impl Values {
    /// No variable has a value.
    pub fn new(alloc: Global, variables: u32) -> Result<Values, OutOfMemory> {
        let many = variables as usize + 1;
        let mut weights = filled(alloc, 2 * many, OPEN)?;
        put(&mut weights, 0, FALSE);
        put(&mut weights, 1, FALSE);
        Ok(Values {
            weights,
            causes: filled(alloc, many, NO_CAUSE)?,
            trail: Vec::new(alloc),
            begins: Vec::new(alloc),
            phases: filled(alloc, many, false)?,
            head: 0,
        })
    }

    /// The value of a literal.
    #[inline(always)]
    pub fn value(&self, literal: Lit) -> Value {
        match at(&self.weights, literal.index(), OPEN) {
            FALSE => Value::False,
            OPEN => Value::Open,
            _ => Value::True,
        }
    }

    /// Whether a literal is false.
    #[inline(always)]
    pub fn is_false(&self, literal: Lit) -> bool {
        at(&self.weights, literal.index(), OPEN) == FALSE
    }

    /// Whether a literal is true.
    #[inline(always)]
    pub fn is_true(&self, literal: Lit) -> bool {
        at(&self.weights, literal.index(), OPEN) == TRUE
    }

    /// Whether a variable has a value.
    pub fn has_value(&self, variable: usize, value: bool) -> bool {
        if variable < 0x8000_0000 {
            self.is_true(Lit::of_variable(variable as u32, value))
        } else {
            false
        }
    }

    /// Why a variable has its value.
    #[inline(always)]
    pub fn cause(&self, variable: usize) -> Cause {
        at(&self.causes, variable, NO_CAUSE)
    }

    /// The value that a variable had last.
    pub fn phase(&self, variable: usize) -> bool {
        at(&self.phases, variable, false)
    }

    /// The level of the latest decision.
    pub fn level(&self) -> u32 {
        let levels = self.begins.len();
        if levels < 0xffff_ffff {
            levels as u32
        } else {
            0xffff_ffff
        }
    }

    /// Where the trail of a level ends.
    pub fn end_of(&self, level: u32) -> usize {
        let all = self.trail.len();
        let level = level as usize;
        if level < self.begins.len() {
            self.begins[level] as usize
        } else {
            all
        }
    }

    /// Makes a literal true.
    pub fn assign(&mut self, literal: Lit, reason: u32) -> Result<(), OutOfMemory> {
        let place = self.trail.len();
        if place > 0xffff_fff0 {
            return Err(OutOfMemory);
        }
        let cause = Cause {
            level: self.level(),
            reason,
            place: place as u32,
        };
        put(&mut self.weights, literal.index(), TRUE);
        put(&mut self.weights, literal.opposite().index(), FALSE);
        put(&mut self.causes, literal.variable(), cause);
        self.trail.push(literal)?;
        Ok(())
    }

    /// Begins a level.
    pub fn decide(&mut self, literal: Lit) -> Result<(), OutOfMemory> {
        let place = self.trail.len();
        if place > 0xffff_fff0 {
            return Err(OutOfMemory);
        }
        self.begins.push(place as u32)?;
        self.assign(literal, NO_CLAUSE)
    }

    /// Takes back the latest value: its variable.
    pub fn take_back(&mut self) -> Option<u32> {
        let literal = self.trail.pop()?;
        put(&mut self.weights, literal.index(), OPEN);
        put(&mut self.weights, literal.opposite().index(), OPEN);
        put(&mut self.phases, literal.variable(), !literal.is_negative());
        Some(literal.code / 2)
    }

    /// Ends all levels above this one.
    pub fn end_levels(&mut self, level: u32) {
        self.begins.truncate(level as usize);
        self.head = self.head.min(self.trail.len());
    }
}
