// Which expressions have operands without an order: one function for each form that has such operands.
ghost use Rattle.std.specs.Prelude.{◌≡◌, ◌⊎◌, [], ◌∷◌, ◌++◌, IfOk, OnOk};
ghost use Rattle.c_core.specs.TreeView.{expr_view, exprs_view, node_view};
ghost use Rattle.check_sequencing.specs.Deciding.{IsKnown, IsSameSource, IsSeen, Tells};
ghost use Rattle.check_sequencing.specs.Walking.{AreUnsequencedBy, ChangedBesideBy, ChangedInIndexBy, IsUnorderedBy, SomePairBy, arguments_by, below_by, effects_by, left_side_by, target_by};

use crate::clash::{Source, one_changes};
use crate::effect::Effect;
use crate::seen::Seen;
use c_core::{Expr, Node};
use wv_base::OutOfMemory;

impl<'a> Source<'a> {
    /// What an expression does that is there for its value.
    pub fn effects(&self, e: &Expr) -> Result<Vec<Effect>, OutOfMemory>
        ensures { IfOk result (λ list. list.items ≡ effects_by self.now (expr_view e.now)) }
    {
        let mut list = Vec::new(self.alloc);
        self.declared.push(&mut list, false, e)?;
        Ok(list)
    }

    /// What stands in an expression does.
    fn below(&self, e: &Expr) -> Result<Vec<Effect>, OutOfMemory>
        ensures { IfOk result (λ list. list.items ≡ below_by self.now (expr_view e.now)) }
    {
        let mut list = Vec::new(self.alloc);
        self.declared.push_inner(&mut list, &e.node)?;
        Ok(list)
    }

    /// The object that is stored to.
    fn target(&self, e: &Expr) -> Option<u32>
        ensures { result ≡ target_by self.now (expr_view e.now) }
    {
        match &e.node {
            Node::Var(object) => self.declared.known(*object),
            Node::Index { object, .. } => self.declared.known(*object),
            _ => None,
        }
    }

    /// Whether the object of a target is changed in its own indexes.
    fn is_changed_in_index(&mut self, target: &Expr) -> Result<bool, OutOfMemory>
        requires { IsKnown self.old }
        ensures same { IsSameSource self.old self.new }
        ensures told { IfOk result (λ b. Tells b (ChangedInIndexBy self.old (expr_view target.now))) }
    {
        match self.target(target) {
            None => Ok(false),
            Some(object) => {
                let below = self.below(target)?;
                let is_changed = self.some_changes(below.as_slice(), object)?;
                Ok(is_changed)
            }
        }
    }

    /// Whether an operand of an assignment changes the object assigned, other than through calls.
    fn is_changed_beside(&self, target: &Expr, from: &Expr) -> Result<bool, OutOfMemory>
        ensures { IfOk result (λ b. Tells b (ChangedBesideBy self.now (expr_view target.now) (expr_view from.now))) }
    {
        match self.target(target) {
            None => Ok(false),
            Some(object) => {
                let mut list = self.below(target)?;
                self.declared.push(&mut list, false, from)?;
                Ok(one_changes(list.as_slice(), object))
            }
        }
    }

    fn is_pair(&mut self, first: &[Effect], last: &[Effect]) -> Result<bool, OutOfMemory>
        requires { IsKnown self.old }
        ensures same { IsSameSource self.old self.new }
        ensures told { IfOk result (λ b. Tells b (SomePairBy self.old (first.now ∷ last.now ∷ []))) }
    {
        let told = self.are_unsequenced(first, last)?;
        Ok(told)
    }

    fn is_binary_unordered(&mut self, left: &Expr, right: &Expr) -> Result<bool, OutOfMemory>
        requires { IsKnown self.old }
        ensures same { IsSameSource self.old self.new }
        ensures told { IfOk result (λ b. Tells b
            (SomePairBy self.old (effects_by self.old (expr_view left.now) ∷ effects_by self.old (expr_view right.now) ∷
            []))) }
    {
        let first = self.effects(left)?;
        let last = self.effects(right)?;
        let told = self.is_pair(first.as_slice(), last.as_slice())?;
        Ok(told)
    }

    /// What is done at the left of an assignment before the store.
    fn left_side(&self, e: &Expr) -> Result<Vec<Effect>, OutOfMemory>
        ensures { IfOk result (λ list. list.items ≡ left_side_by self.now (expr_view e.now)) }
    {
        let mut list = Vec::new(self.alloc);
        match &e.node {
            Node::Call { .. } => self.declared.push(&mut list, true, e)?,
            _ => self.declared.push_inner(&mut list, &e.node)?,
        }
        Ok(list)
    }

    fn is_assigned_unordered(&mut self, target: &Expr, from: &Expr) -> Result<bool, OutOfMemory>
        requires { IsKnown self.old }
        ensures same { IsSameSource self.old self.new }
        ensures told { IfOk result (λ b. Tells b
            (SomePairBy self.old (left_side_by self.old (expr_view target.now) ∷ effects_by self.old
            (expr_view from.now) ∷ []))) }
    {
        let first = self.left_side(target)?;
        let last = self.effects(from)?;
        let told = self.is_pair(first.as_slice(), last.as_slice())?;
        Ok(told)
    }

    fn is_assignment_unordered(&mut self, target: &Expr, from: &Expr) -> Result<bool, OutOfMemory>
        requires { IsKnown self.old }
        ensures same { IsSameSource self.old self.new }
        ensures told { IfOk result (λ b. Tells b (SomePairBy self.old
            (left_side_by self.old (expr_view target.now) ∷ effects_by self.old (expr_view from.now) ∷ [])
            ⊎ (ChangedInIndexBy self.old (expr_view target.now)
            ⊎ ChangedBesideBy self.old (expr_view target.now) (expr_view from.now)))) }
    {
        let unsequenced = self.is_assigned_unordered(target, from)?;
        let in_index = self.is_changed_in_index(target)?;
        let beside = self.is_changed_beside(target, from)?;
        Ok(unsequenced || in_index || beside)
    }

    /// Whether an argument or index has no order with those before it; after that it counts among them.
    fn joins_unordered(
        &mut self,
        seen: &mut Seen,
        before: &mut Vec<Effect>,
        arg: &Expr,
    ) -> Result<bool, OutOfMemory>
        requires known { IsKnown self.old }
        requires seen { IsSeen seen.old before.old.items }
        ensures same { IsSameSource self.old self.new }
        ensures seen { OnOk result (IsSeen seen.new before.new.items) }
        ensures joined { OnOk result (before.new.items ≡ before.old.items ++ effects_by self.old (expr_view arg.now)) }
        ensures told { IfOk result (λ b. Tells b
            (AreUnsequencedBy self.old before.old.items (effects_by self.old (expr_view arg.now)))) }
    {
        let effects = self.effects(arg)?;
        let told = self.some_meets(seen, before.as_slice(), effects.as_slice())?;
        seen.add(effects.as_slice())?;
        before.extend_from_slice(effects.as_slice())?;
        Ok(told)
    }

    /// Each argument or index is tested against all before it, taken together, and not pair by pair.
    fn is_call_unordered(&mut self, args: &[Expr]) -> Result<bool, OutOfMemory>
        requires { IsKnown self.old }
        ensures same { IsSameSource self.old self.new }
        ensures told { IfOk result (λ b. Tells b (SomePairBy self.old (arguments_by self.old (exprs_view args.now)))) }
    {
        let mut seen = Seen::new(self.alloc);
        let mut before = Vec::new(self.alloc);
        for arg in args {
            if self.joins_unordered(&mut seen, &mut before, arg)? {
                return Ok(true);
            }
        }
        Ok(false)
    }

    /// Whether the operands of an expression have no order.
    pub fn is_unordered(&mut self, node: &Node) -> Result<bool, OutOfMemory>
        requires { IsKnown self.old }
        ensures same { IsSameSource self.old self.new }
        ensures told { IfOk result (λ b. Tells b (IsUnorderedBy self.old (node_view node.now))) }
    {
        match node {
            Node::Step { target, .. } => {
                let told = self.is_changed_in_index(target)?;
                Ok(told)
            }
            Node::Binary { left, right, .. } => {
                let told = self.is_binary_unordered(left, right)?;
                Ok(told)
            }
            Node::Assign { target, from, .. } => {
                let told = self.is_assignment_unordered(target, from)?;
                Ok(told)
            }
            Node::Index { at, .. } => {
                let told = self.is_call_unordered(at.as_slice())?;
                Ok(told)
            }
            Node::Call { args, .. } => {
                let told = self.is_call_unordered(args.as_slice())?;
                Ok(told)
            }
            _ => Ok(false),
        }
    }
}
