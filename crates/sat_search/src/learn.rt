// From a conflict to a clause: resolution back to the first literal that is alone on its level.
use crate::arena::NO_CLAUSE;
use crate::cells::{at, put};
use crate::conflict::Mark;
use crate::lit::Lit;
use crate::search::Search;
use clauses::{Chain, Clause};
use wv_base::{OutOfMemory, Seq};

const NONE: Lit = Lit { code: 0 };

/// How many reasons deep a redundant literal may lie.
const DEPTH: u32 = 200;

impl Search {
    // a literal of the clause that is derived
    fn meet(&mut self, literal: Lit) -> Result<(), OutOfMemory> {
        let variable = literal.code / 2;
        if !self.conflict.is_unseen(literal.variable()) {
            return Ok(());
        }
        let cause = self.values.cause(literal.variable());
        let level = cause.level;
        self.conflict.mark(variable, Mark::Held)?;
        if level == 0 {
            self.conflict.fixed.add(cause.place);
            return Ok(());
        }
        self.order.bump(variable);
        if level == self.values.level() {
            self.conflict.open = self.conflict.open.wrapping_add(1);
            return Ok(());
        }
        self.conflict.stamp_level(level);
        self.conflict.learned.push(literal)?;
        Ok(())
    }

    // the literals of a clause but that of one variable
    fn meet_clause(&mut self, clause: u32, except: usize) -> Result<(), OutOfMemory> {
        self.reduction.touch(clause);
        let span = self.arena.span(clause);
        let first = span.start as usize;
        for place in first..first + span.count as usize {
            let literal = self.arena.literal(place);
            if literal.variable() != except {
                self.meet(literal)?;
            }
        }
        Ok(())
    }

    // resolves with the reasons, the latest value first, until one literal of the level is left
    fn resolve_back(&mut self) -> Result<Option<Lit>, OutOfMemory> {
        let count = self.values.trail.len();
        for back in 0..count {
            let literal = at(&self.values.trail, count - 1 - back, NONE);
            let variable = literal.variable();
            if self.conflict.is_unseen(variable) {
                continue;
            }
            if self.conflict.open <= 1 {
                return Ok(Some(literal.opposite()));
            }
            self.conflict.open -= 1;
            let reason = self.values.cause(variable).reason;
            self.conflict
                .step(reason.wrapping_add(1), literal.code / 2)?;
            self.conflict.remark(variable, Mark::Resolved);
            self.meet_clause(reason, variable)?;
        }
        Ok(None)
    }

    // whether a variable is known to lead back to the clause, or not to
    fn known(&self, variable: usize) -> Option<bool> {
        let cause = self.values.cause(variable);
        if cause.level == 0 {
            return Some(true);
        }
        match self.conflict.mark_of(variable) {
            Mark::Held | Mark::Redundant | Mark::Resolved => Some(true),
            Mark::Needed => Some(false),
            Mark::Unseen => {
                if cause.reason == NO_CLAUSE || !self.conflict.has_level(cause.level) {
                    Some(false)
                } else {
                    None
                }
            }
        }
    }

    fn settle(&mut self, literal: Lit, place: u32, redundant: bool) -> Result<(), OutOfMemory> {
        if redundant {
            self.conflict.places.push(place)?;
            return self.conflict.mark(literal.code / 2, Mark::Redundant);
        }
        self.conflict.mark(literal.code / 2, Mark::Needed)
    }

    // whether the reason of a variable leads back to the clause by all its other literals
    fn leads_back(&mut self, reason: u32, except: usize, depth: u32) -> Result<bool, OutOfMemory> {
        if depth == 0 {
            return Ok(false);
        }
        let span = self.arena.span(reason);
        let first = span.start as usize;
        for place in first..first + span.count as usize {
            let literal = self.arena.literal(place);
            if literal.variable() == except {
                continue;
            }
            let redundant = match self.known(literal.variable()) {
                Some(known) => known,
                None => {
                    let cause = self.values.cause(literal.variable());
                    let found = self.leads_back(cause.reason, literal.variable(), depth - 1)?;
                    self.settle(literal, cause.place, found)?;
                    found
                }
            };
            if !redundant {
                return Ok(false);
            }
        }
        Ok(true)
    }

    // whether a literal of the learned clause may be resolved away
    fn is_redundant(&mut self, literal: Lit) -> Result<bool, OutOfMemory> {
        let cause = self.values.cause(literal.variable());
        if cause.reason == NO_CLAUSE {
            return Ok(false);
        }
        let redundant = self.leads_back(cause.reason, literal.variable(), DEPTH)?;
        if redundant {
            self.conflict.remark(literal.variable(), Mark::Resolved);
            self.conflict.places.push(cause.place)?;
        }
        Ok(redundant)
    }

    // leaves the redundant literals out of the learned clause
    fn minimize(&mut self) -> Result<(), OutOfMemory> {
        let mut kept = 1usize;
        for place in 1..self.conflict.learned.len() {
            let literal = at(&self.conflict.learned, place, NONE);
            if !self.is_redundant(literal)? {
                put(&mut self.conflict.learned, kept, literal);
                kept = kept.wrapping_add(1);
            }
        }
        self.conflict.learned.truncate(kept);
        self.conflict.places.sort_unstable();
        Ok(())
    }

    // a literal that a redundant one's reason brings into the clause
    fn bring(&mut self, literal: Lit) -> Result<(), OutOfMemory> {
        let variable = literal.variable();
        match self.conflict.mark_of(variable) {
            Mark::Redundant => {
                self.conflict.remark(variable, Mark::Resolved);
                Ok(())
            }
            Mark::Unseen => self.meet(literal),
            _ => Ok(()),
        }
    }

    // the literals of a redundant variable's reason
    fn bring_reason(&mut self, reason: u32, except: usize) -> Result<(), OutOfMemory> {
        let span = self.arena.span(reason);
        let first = span.start as usize;
        for place in first..first + span.count as usize {
            let literal = self.arena.literal(place);
            if literal.variable() != except {
                self.bring(literal)?;
            }
        }
        Ok(())
    }

    // resolves the redundant literals away, the latest first
    fn resolve_redundant(&mut self) -> Result<(), OutOfMemory> {
        let count = self.conflict.places.len();
        for back in 0..count {
            let place = at(&self.conflict.places, count - 1 - back, 0);
            let literal = at(&self.values.trail, place as usize, NONE);
            let variable = literal.variable();
            if matches!(self.conflict.mark_of(variable), Mark::Resolved) {
                let reason = self.values.cause(variable).reason;
                self.conflict
                    .step(reason.wrapping_add(1), literal.code / 2)?;
                self.bring_reason(reason, variable)?;
            }
        }
        Ok(())
    }

    // the chain from the clause at an index to the one of these literals, where that is a clause; it holds no more room
    // than its steps take
    fn chain(&self, start: u32, clause: u32) -> Result<Option<Chain>, OutOfMemory> {
        let Some(gives) = Clause::new(self.arena.numbers(self.alloc, clause)?) else {
            return Ok(None);
        };
        let mut steps = Vec::with_capacity(self.alloc, self.conflict.steps.len())?;
        steps.extend_from_slice(&self.conflict.steps)?;
        Ok(Some(Chain {
            start: start.wrapping_add(1),
            steps: Seq::from_vec(steps),
            gives,
        }))
    }

    // moves a literal of the highest level of the learned clause, but for its first, to the second place: that level
    fn second_level(&mut self) -> u32 {
        let mut level = 0;
        let learned = &mut self.conflict.learned;
        for place in 1..learned.len() {
            let literal = at(learned, place, NONE);
            let found = self.values.cause(literal.variable()).level;
            if found > level {
                level = found;
                let second = at(learned, 1, NONE);
                put(learned, place, second);
                put(learned, 1, literal);
            }
        }
        level
    }

    // goes back to where the learned clause is a unit: its index
    fn go_back(&mut self) -> Result<u32, OutOfMemory> {
        let level = self.second_level();
        let clause = self.arena.push(&self.conflict.learned)?;
        self.reduction.add(self.conflict.levels)?;
        self.cancel_until(level)?;
        Ok(clause)
    }

    /// Makes the first literal of the clause true that was learned last.
    pub fn assert_learned(&mut self) -> Result<(), OutOfMemory> {
        let clause = self.arena.last();
        if self.conflict.learned.len() < 2 {
            let _ = self.assert_unit(clause)?;
            return Ok(());
        }
        self.attach(clause)?;
        let asserting = at(&self.conflict.learned, 0, NONE);
        self.values.assign(asserting, clause)
    }

    /// Derives a clause from a conflict and goes back to where it is a unit: its chain. Until its literal is asserted,
    /// the values are those that show that the clause is new.
    pub fn learn(&mut self, conflict: u32) -> Result<Option<Chain>, OutOfMemory> {
        self.conflict.clear();
        self.conflict.learned.push(NONE)?;
        self.meet_clause(conflict, 0)?;
        let Some(asserting) = self.resolve_back()? else {
            return Ok(None);
        };
        put(&mut self.conflict.learned, 0, asserting);
        self.minimize()?;
        self.resolve_redundant()?;
        self.resolve_fixed()?;
        let clause = self.go_back()?;
        self.order.decay();
        self.chain(conflict, clause)
    }

    // resolves the literals of level 0 away, the latest first
    fn resolve_fixed(&mut self) -> Result<(), OutOfMemory> {
        for _ in 0..self.values.end_of(0) {
            let Some(place) = self.conflict.fixed.take_latest() else {
                break;
            };
            let literal = at(&self.values.trail, place, NONE);
            let variable = literal.variable();
            let reason = self.values.cause(variable).reason;
            self.conflict
                .step(reason.wrapping_add(1), literal.code / 2)?;
            self.meet_clause(reason, variable)?;
        }
        Ok(())
    }

    /// Derives the empty clause from a conflict at level 0.
    pub fn refute(&mut self, conflict: u32) -> Result<Option<Chain>, OutOfMemory> {
        self.conflict.clear();
        self.meet_clause(conflict, 0)?;
        self.resolve_fixed()?;
        let clause = self.arena.push(&[])?;
        self.chain(conflict, clause)
    }
}
