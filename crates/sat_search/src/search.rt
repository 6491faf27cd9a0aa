// The search: units by two watched literals of each clause, decisions by activity, and what conflicts teach.
use crate::arena::{Arena, Span};
use crate::conflict::Conflict;
use crate::lit::Lit;
use crate::order::Order;
use crate::reduce::Reduction;
use crate::restart::Restart;
use crate::values::{Value, Values};
use crate::watches::{Watch, Watches};
use clauses::{Chain, Clause, Cnf, Refutation};
use std::alloc::Global;
use wv_base::{OutOfMemory, Seq};

/// The whole state of a search: clauses, watches, trail, order.
#[derive(Drop)]
pub struct Search {
    pub alloc: Global,
    pub given: u32,
    pub arena: Arena,
    pub watches: Watches,
    pub values: Values,
    pub order: Order,
    pub conflict: Conflict,
    pub restart: Restart,
    pub reduction: Reduction,
    /// whether all learned clauses are kept
    pub keeps: bool,
    /// one more than there are variables
    pub many: usize,
}

/// What became of a watch.
enum Visit {
    Kept(Watch),
    Moved,
    Conflict(Watch),
}

impl Search {
    /// A search over these variables, before any clause; `keeps` says whether all learned clauses are kept.
    pub fn new(alloc: Global, variables: u32, keeps: bool) -> Result<Search, OutOfMemory> {
        Ok(Search {
            alloc,
            given: 0,
            arena: Arena::new(alloc),
            watches: Watches::new(alloc, variables)?,
            values: Values::new(alloc, variables)?,
            order: Order::new(alloc, variables)?,
            conflict: Conflict::new(alloc, variables)?,
            restart: Restart::new(),
            reduction: Reduction::new(alloc),
            keeps,
            many: variables as usize + 1,
        })
    }

    /// Watches the first two literals of a clause.
    pub fn attach(&mut self, clause: u32) -> Result<(), OutOfMemory> {
        let span = self.arena.span(clause);
        let first = span.start as usize;
        let one = self.arena.literal(first);
        let other = self.arena.literal(first + 1);
        self.watches
            .add(one, Watch::new(clause, span.count, other))?;
        self.watches.add(other, Watch::new(clause, span.count, one))
    }

    /// Makes the literal of a unit clause true: whether it was false.
    pub fn assert_unit(&mut self, clause: u32) -> Result<bool, OutOfMemory> {
        let literal = self.arena.literal(self.arena.span(clause).start as usize);
        match self.values.value(literal) {
            Value::True => Ok(false),
            Value::False => Ok(true),
            Value::Open => {
                self.values.assign(literal, clause)?;
                Ok(false)
            }
        }
    }

    // puts the variables of a clause into the order: those that no clause has are never decided
    fn order_variables(&mut self, clause: &Clause) -> Result<(), OutOfMemory> {
        for number in clause.numbers() {
            self.order.insert(number.unsigned_abs())?;
        }
        Ok(())
    }

    // a given clause: whether all its literals are false
    fn add_given(&mut self, clause: &Clause) -> Result<Option<u32>, OutOfMemory> {
        let index = self.arena.push_given(clause)?;
        self.order_variables(clause)?;
        self.reduction.add(0)?;
        self.given = index.wrapping_add(1);
        let count = clause.numbers().len();
        if count >= 2 {
            self.attach(index)?;
            return Ok(None);
        }
        if count == 0 || self.assert_unit(index)? {
            return Ok(Some(index));
        }
        Ok(None)
    }

    /// Adds all given clauses; the number of one whose literals are all false, if there is one.
    pub fn add_all(&mut self, given: &Seq<Clause>) -> Result<Option<u32>, OutOfMemory> {
        let mut conflict = None;
        for clause in given.as_slice() {
            let found = self.add_given(clause)?;
            if conflict.is_none() {
                conflict = found;
            }
        }
        Ok(conflict)
    }

    /// Decides a variable, by the value that it had last.
    pub fn decide_variable(&mut self, variable: usize) -> Result<(), OutOfMemory> {
        let value = self.values.phase(variable);
        if variable < 0x8000_0000 {
            self.values
                .decide(Lit::of_variable(variable as u32, value))?;
        }
        Ok(())
    }

    // a literal behind the first two of a clause that isn't false
    #[inline(always)]
    fn another_watch(&self, span: Span) -> Option<usize> {
        let first = span.start as usize;
        for place in first + 2..first + span.count as usize {
            if !self.values.is_false(self.arena.literal(place)) {
                return Some(place);
            }
        }
        None
    }

    // looks at a clause, one of whose watched literals became false
    fn visit(&mut self, watch: Watch, gone: Lit) -> Result<Visit, OutOfMemory> {
        let clause = watch.clause();
        let span = self.arena.span(clause);
        let first = span.start as usize;
        let mut other = self.arena.literal(first);
        if other.code == gone.code {
            other = self.arena.literal(first + 1);
            self.arena.set_literal(first, other);
            self.arena.set_literal(first + 1, gone);
        }
        let kept = watch.by(other);
        if self.values.is_true(other) {
            return Ok(Visit::Kept(kept));
        }
        if let Some(place) = self.another_watch(span) {
            let next = self.arena.literal(place);
            self.arena.set_literal(first + 1, next);
            self.arena.set_literal(place, gone);
            self.watches.add(next, kept)?;
            return Ok(Visit::Moved);
        }
        if self.values.is_false(other) {
            return Ok(Visit::Conflict(kept));
        }
        self.values.assign(other, clause)?;
        Ok(Visit::Kept(kept))
    }

    // the same of a clause of two literals, the other of which isn't true
    #[inline(always)]
    fn visit_pair(&mut self, watch: Watch) -> Result<Visit, OutOfMemory> {
        if self.values.is_false(watch.blocker) {
            return Ok(Visit::Conflict(watch));
        }
        self.values.assign(watch.blocker, watch.clause())?;
        Ok(Visit::Kept(watch))
    }

    #[inline(always)]
    fn visit_one(&mut self, watch: Watch, gone: Lit) -> Result<Visit, OutOfMemory> {
        if self.values.is_true(watch.blocker) {
            return Ok(Visit::Kept(watch));
        }
        if watch.is_pair() {
            return self.visit_pair(watch);
        }
        self.visit(watch, gone)
    }

    // looks at all clauses that watch a literal, which became false: a conflict
    fn visit_all(&mut self, gone: Lit) -> Result<Option<u32>, OutOfMemory> {
        let part = self.watches.part(gone.index());
        let mut conflict = None;
        let mut kept = 0u32;
        for place in 0..part.count {
            let watch = self.watches.get(part, place);
            let mut stays = watch;
            if conflict.is_none() {
                match self.visit_one(watch, gone)? {
                    Visit::Kept(next) => stays = next,
                    Visit::Moved => continue,
                    Visit::Conflict(next) => {
                        stays = next;
                        conflict = Some(watch.clause());
                    }
                }
            }
            self.watches.set(part, kept, stays);
            kept = kept.wrapping_add(1);
        }
        self.watches.truncate(gone.index(), kept);
        Ok(conflict)
    }

    /// Makes units true until none is left, or until all literals of a clause are false: its index.
    pub fn propagate(&mut self) -> Result<Option<u32>, OutOfMemory> {
        for _ in 0..self.many {
            let head = self.values.head;
            if head >= self.values.trail.len() {
                return Ok(None);
            }
            let literal = self.values.trail[head];
            self.values.head = head + 1;
            if let Some(conflict) = self.visit_all(literal.opposite())? {
                return Ok(Some(conflict));
            }
        }
        Ok(None)
    }

    /// Takes back the values of all levels above one.
    pub fn cancel_until(&mut self, level: u32) -> Result<(), OutOfMemory> {
        for _ in self.values.end_of(level)..self.values.trail.len() {
            if let Some(variable) = self.values.take_back() {
                self.order.insert(variable)?;
            }
        }
        self.values.end_levels(level);
        Ok(())
    }

    // the next variable without a value
    fn pick_branch(&mut self) -> Option<u32> {
        for _ in 0..self.many {
            let variable = self.order.pop()?;
            if matches!(
                self.values.value(Lit::of_variable(variable, true)),
                Value::Open
            ) {
                return Some(variable);
            }
        }
        None
    }

    // propagates and decides until there is a conflict, or nothing to decide
    fn next_conflict(&mut self) -> Result<Option<u32>, OutOfMemory> {
        for _ in 0..self.many {
            if let Some(conflict) = self.propagate()? {
                return Ok(Some(conflict));
            }
            let Some(variable) = self.pick_branch() else {
                return Ok(None);
            };
            self.decide_variable(variable as usize)?;
        }
        Ok(None)
    }

    // the values of the variables in order; one that no clause has is open, and false here
    fn model(&self) -> Result<Seq<bool>, OutOfMemory> {
        let mut values = Seq::new(self.alloc);
        for variable in 1..self.many {
            values.push(self.values.has_value(variable, true))?;
        }
        Ok(values)
    }

    // goes back to level 0 where it is time, and drops clauses where it is time for that
    fn start_again(&mut self) -> Result<(), OutOfMemory> {
        self.reduction.count();
        if self.restart.is_due() {
            self.cancel_until(0)?;
            if !self.keeps && self.reduction.is_due() {
                self.reduce()?;
            }
        }
        Ok(())
    }
}

/// What a search comes to next. Nothing is known of it until it is checked.
#[derive(Drop)]
pub enum Step {
    Model(Seq<bool>),
    /// the chain of the empty clause
    Refuted(Chain),
    /// the chain of a clause that isn't empty
    Learned(Chain),
    Nothing,
}

/// A search that learns one clause after the other.
#[derive(Drop)]
pub struct Learner {
    search: Search,
    /// a given clause without literals that aren't false
    conflict: Option<u32>,
    /// whether the literal of the last clause is still to be asserted
    pending: bool,
}

impl Learner {
    /// Before the first clause; `keeps` says whether all learned clauses are kept.
    pub fn new(alloc: Global, cnf: &Cnf, keeps: bool) -> Result<Learner, OutOfMemory> {
        let mut search = Search::new(alloc, cnf.variables, keeps)?;
        let conflict = search.add_all(&cnf.clauses)?;
        Ok(Learner {
            search,
            conflict,
            pending: false,
        })
    }

    /// The weights of the literals: where a clause was learned last, those that show that it is new.
    pub fn weights(&self) -> &[u8] {
        self.search.values.weights.as_slice()
    }

    fn refute(&mut self, conflict: u32) -> Result<Step, OutOfMemory> {
        match self.search.refute(conflict)? {
            Some(chain) => Ok(Step::Refuted(chain)),
            None => Ok(Step::Nothing),
        }
    }

    // asserts the literal of the last clause
    fn go_on(&mut self) -> Result<(), OutOfMemory> {
        if self.pending {
            self.pending = false;
            self.search.assert_learned()?;
            self.search.start_again()?;
        }
        Ok(())
    }

    /// Searches up to the next clause.
    pub fn learn(&mut self) -> Result<Step, OutOfMemory> {
        if let Some(conflict) = self.conflict {
            return self.refute(conflict);
        }
        self.go_on()?;
        let Some(conflict) = self.search.next_conflict()? else {
            return Ok(Step::Model(self.search.model()?));
        };
        if self.search.values.level() == 0 {
            return self.refute(conflict);
        }
        self.pending = true;
        match self.search.learn(conflict)? {
            Some(chain) => Ok(Step::Learned(chain)),
            None => Ok(Step::Nothing),
        }
    }
}

/// What the search says. Nothing is known of it until it is checked.
#[derive(Drop)]
pub enum Outcome {
    Model(Seq<bool>),
    Refuted(Refutation),
    Nothing,
}

/// Looks for values that satisfy every clause, or for a refutation, by at most `budget` conflicts. It drops clauses that
/// don't help.
pub fn find(alloc: Global, cnf: &Cnf, budget: u64) -> Result<Outcome, OutOfMemory> {
    let mut learner = Learner::new(alloc, cnf, false)?;
    let mut chains = Seq::new(alloc);
    for _ in 0..budget {
        match learner.learn()? {
            Step::Model(values) => return Ok(Outcome::Model(values)),
            Step::Refuted(chain) => {
                chains.push(chain)?;
                return Ok(Outcome::Refuted(Refutation { chains }));
            }
            Step::Learned(chain) => chains.push(chain)?,
            Step::Nothing => break,
        }
    }
    Ok(Outcome::Nothing)
}
