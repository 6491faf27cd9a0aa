ghost use Rattle.std.specs.Prelude.{◌≡◌, ◌⊎◌, ℕ, List, IfOk, true, false};
ghost use Rattle.std.specs.List.{list_any};
ghost use Rattle.check_sequencing.specs.Effects.{AreUnsequenced, CallDoes, CallsOne, Changes, IsCallThatDoes, Meets, MeetsCall, OneOf, Through, Touches, changes, is_fixed, is_quiet, is_read, touches};
ghost use Rattle.c_core.specs.declared.tree.Object.{Object};
ghost use Rattle.check_sequencing.specs.declared.effect.Effect.{Effect};
ghost use Rattle.check_sequencing.specs.Deciding.{IsKnown, IsSameSource, IsSeen, Tells, bodies_of, count_of, objects_of};

use crate::declarations::Declarations;
use crate::effect::Effect;
use crate::marks::{changes, touches};
use crate::memo::Memo;
use crate::seen::Seen;
use c_core::Object;
use std::alloc::Global;
use wv_base::{OutOfMemory, Seq};

/// What a source declares, and what its functions do to objects of static storage.
#[derive(Drop)]
pub struct Source<'a> {
    pub alloc: Global,
    pub declared: Declarations<'a>,
    pub changed: Memo<'a>,
    pub touched: Memo<'a>,
}

fn is_fixed(objects: &[Object], object: u32) -> bool
    ensures { result ≡ is_fixed objects.now object }
{
    match objects.get(object as usize) {
        Some(object) => object.fixed,
        None => false,
    }
}

fn is_read(effect: Effect) -> bool
    ensures { result ≡ is_read effect }
{
    matches!(effect, Effect::Reads(_))
}

/// Whether nothing is changed or called.
pub fn is_quiet(effects: &[Effect]) -> bool
    ensures { result ≡ is_quiet effects.now }
{
    effects.iter().all(|effect| is_read(*effect))
}

/// Whether one of these effects changes an object by itself.
pub fn one_changes(effects: &[Effect], object: u32) -> bool
    ensures { result ≡ list_any (changes object) effects.now }
{
    effects.iter().any(|effect| changes(*effect, object))
}

fn one_touches(effects: &[Effect], object: u32) -> bool
    ensures { result ≡ list_any (touches object) effects.now }
{
    effects.iter().any(|effect| touches(*effect, object))
}

impl<'a> Source<'a> {
    /// The effects of all bodies, beside what is declared.
    pub fn new(alloc: Global, declared: Declarations<'a>, bodies: &'a [Seq<Effect>]) -> Source<'a>
        ensures bodies { bodies_of result ≡ bodies.now }
        ensures objects { objects_of result ≡ declared.entry.objects.now }
        ensures count { count_of result ≡ declared.entry.bodies }
        ensures known { IsKnown result }
    {
        Source {
            alloc,
            declared,
            changed: Memo::new(alloc, bodies, true),
            touched: Memo::new(alloc, bodies, false),
        }
    }

    /// Whether a call of a function changes an object.
    fn call_changes(&mut self, object: u32, function: u32) -> Result<bool, OutOfMemory>
        requires { IsKnown self.old }
        ensures same { IsSameSource self.old self.new }
        ensures told { IfOk result (λ b. Tells b
            (CallDoes (bodies_of self.old) (objects_of self.old) changes object function)) }
    {
        if !is_fixed(self.declared.objects, object) {
            return Ok(false);
        }
        let does = self.changed.does(self.alloc, object, function)?;
        Ok(does)
    }

    /// Whether a call of a function reads or changes an object.
    fn call_touches(&mut self, object: u32, function: u32) -> Result<bool, OutOfMemory>
        requires { IsKnown self.old }
        ensures same { IsSameSource self.old self.new }
        ensures told { IfOk result (λ b. Tells b
            (CallDoes (bodies_of self.old) (objects_of self.old) touches object function)) }
    {
        if !is_fixed(self.declared.objects, object) {
            return Ok(false);
        }
        let does = self.touched.does(self.alloc, object, function)?;
        Ok(does)
    }

    fn meets_call(&mut self, effect: Effect, function: u32) -> Result<bool, OutOfMemory>
        requires { IsKnown self.old }
        ensures same { IsSameSource self.old self.new }
        ensures told { IfOk result (λ b. Tells b
            (MeetsCall (bodies_of self.old) (objects_of self.old) function effect)) }
    {
        match effect {
            Effect::Reads(object) => self.call_changes(object, function),
            Effect::Changes(object) => self.call_touches(object, function),
            Effect::Calls(_) => Ok(false),
        }
    }

    /// Whether one of these effects and a call of a function have no order.
    fn some_meets_call(&mut self, effects: &[Effect], function: u32) -> Result<bool, OutOfMemory>
        requires { IsKnown self.old }
        ensures same { IsSameSource self.old self.new }
        ensures told { IfOk result (λ b. Tells b
            (OneOf (MeetsCall (bodies_of self.old) (objects_of self.old) function) effects.now)) }
    {
        for effect in effects {
            if self.meets_call(*effect, function)? {
                return Ok(true);
            }
        }
        Ok(false)
    }

    fn changes_by_call(&mut self, effect: Effect, object: u32) -> Result<bool, OutOfMemory>
        requires { IsKnown self.old }
        ensures same { IsSameSource self.old self.new }
        ensures told { IfOk result (λ b. Tells b
            (IsCallThatDoes (bodies_of self.old) (objects_of self.old) changes object effect)) }
    {
        match effect {
            Effect::Calls(function) => self.call_changes(object, function),
            _ => Ok(false),
        }
    }

    /// Whether one of these effects is a call that changes an object.
    fn some_call_changes(&mut self, effects: &[Effect], object: u32) -> Result<bool, OutOfMemory>
        requires { IsKnown self.old }
        ensures same { IsSameSource self.old self.new }
        ensures told { IfOk result (λ b. Tells b
            (Through (bodies_of self.old) (objects_of self.old) changes object effects.now)) }
    {
        for effect in effects {
            if self.changes_by_call(*effect, object)? {
                return Ok(true);
            }
        }
        Ok(false)
    }

    fn touches_by_call(&mut self, effect: Effect, object: u32) -> Result<bool, OutOfMemory>
        requires { IsKnown self.old }
        ensures same { IsSameSource self.old self.new }
        ensures told { IfOk result (λ b. Tells b
            (IsCallThatDoes (bodies_of self.old) (objects_of self.old) touches object effect)) }
    {
        match effect {
            Effect::Calls(function) => self.call_touches(object, function),
            _ => Ok(false),
        }
    }

    /// Whether one of these effects is a call that reads or changes an object.
    fn some_call_touches(&mut self, effects: &[Effect], object: u32) -> Result<bool, OutOfMemory>
        requires { IsKnown self.old }
        ensures same { IsSameSource self.old self.new }
        ensures told { IfOk result (λ b. Tells b
            (Through (bodies_of self.old) (objects_of self.old) touches object effects.now)) }
    {
        for effect in effects {
            if self.touches_by_call(*effect, object)? {
                return Ok(true);
            }
        }
        Ok(false)
    }

    /// Whether these effects change an object, by themselves or through calls.
    pub fn some_changes(&mut self, effects: &[Effect], object: u32) -> Result<bool, OutOfMemory>
        requires { IsKnown self.old }
        ensures same { IsSameSource self.old self.new }
        ensures told { IfOk result (λ b. Tells b
            (Changes (bodies_of self.old) (objects_of self.old) object effects.now)) }
    {
        if one_changes(effects, object) {
            return Ok(true);
        }
        self.some_call_changes(effects, object)
    }

    /// Whether these effects read or change an object, by themselves or through calls.
    pub fn some_touches(&mut self, effects: &[Effect], object: u32) -> Result<bool, OutOfMemory>
        requires { IsKnown self.old }
        ensures same { IsSameSource self.old self.new }
        ensures told { IfOk result (λ b. Tells b
            (Touches (bodies_of self.old) (objects_of self.old) object effects.now)) }
    {
        if one_touches(effects, object) {
            return Ok(true);
        }
        self.some_call_touches(effects, object)
    }

    fn has_changed(
        &mut self,
        seen: &Seen,
        before: &[Effect],
        object: u32,
    ) -> Result<bool, OutOfMemory>
        requires known { IsKnown self.old }
        requires seen { IsSeen seen.now before.now }
        ensures same { IsSameSource self.old self.new }
        ensures told { IfOk result (λ b. Tells b
            (Changes (bodies_of self.old) (objects_of self.old) object before.now)) }
    {
        if seen.changed.contains(&object) {
            return Ok(true);
        }
        self.some_call_changes(before, object)
    }

    fn has_touched(
        &mut self,
        seen: &Seen,
        before: &[Effect],
        object: u32,
    ) -> Result<bool, OutOfMemory>
        requires known { IsKnown self.old }
        requires seen { IsSeen seen.now before.now }
        ensures same { IsSameSource self.old self.new }
        ensures told { IfOk result (λ b. Tells b
            (Touches (bodies_of self.old) (objects_of self.old) object before.now)) }
    {
        if seen.touched.contains(&object) {
            return Ok(true);
        }
        self.some_call_touches(before, object)
    }

    fn meets_new_call(
        &mut self,
        seen: &Seen,
        before: &[Effect],
        function: u32,
    ) -> Result<bool, OutOfMemory>
        requires known { IsKnown self.old }
        requires seen { IsSeen seen.now before.now }
        ensures same { IsSameSource self.old self.new }
        ensures told { IfOk result (λ b. Tells b
            (CallsOne before.now ⊎ OneOf (MeetsCall (bodies_of self.old) (objects_of self.old) function) before.now)) }
    {
        if seen.is_calling {
            return Ok(true);
        }
        self.some_meets_call(before, function)
    }

    /// Whether an effect has no order with those before it, of which the sets are seen.
    fn meets(&mut self, seen: &Seen, before: &[Effect], effect: Effect) -> Result<bool, OutOfMemory>
        requires known { IsKnown self.old }
        requires seen { IsSeen seen.now before.now }
        ensures same { IsSameSource self.old self.new }
        ensures told { IfOk result (λ b. Tells b (Meets (bodies_of self.old) (objects_of self.old) before.now effect)) }
    {
        match effect {
            Effect::Reads(object) => self.has_changed(seen, before, object),
            Effect::Changes(object) => self.has_touched(seen, before, object),
            Effect::Calls(function) => self.meets_new_call(seen, before, function),
        }
    }

    /// Whether one of these effects has no order with those before them.
    #[tactic(auto, using(crate::proofs::ClashLaws::none_more))]
    pub fn some_meets(
        &mut self,
        seen: &Seen,
        before: &[Effect],
        effects: &[Effect],
    ) -> Result<bool, OutOfMemory>
        requires known { IsKnown self.old }
        requires seen { IsSeen seen.now before.now }
        ensures same { IsSameSource self.old self.new }
        ensures told { IfOk result (λ b. Tells b
            (OneOf (Meets (bodies_of self.old) (objects_of self.old) before.now) effects.now)) }
    {
        for effect in effects {
            if self.meets(seen, before, *effect)? {
                return Ok(true);
            }
        }
        Ok(false)
    }

    /// Whether two operands have no order.
    #[tactic(auto, using(crate::proofs::ClashLaws::met_is_unsequenced, crate::proofs::ClashLaws::unsequenced_is_met, crate::proofs::QuietLaws::quiet_is_ordered))]
    pub fn are_unsequenced(
        &mut self,
        before: &[Effect],
        after: &[Effect],
    ) -> Result<bool, OutOfMemory>
        requires { IsKnown self.old }
        ensures same { IsSameSource self.old self.new }
        ensures told { IfOk result (λ b. Tells b
            (AreUnsequenced (bodies_of self.old) (objects_of self.old) before.now after.now)) }
    {
        if is_quiet(before) && is_quiet(after) {
            return Ok(false);
        }
        let mut seen = Seen::new(self.alloc);
        seen.add(before)?;
        self.some_meets(&seen, before, after)
    }
}
