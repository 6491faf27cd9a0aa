// What expressions do, as lists: what each does by itself, before what its parts do.
ghost use Rattle.std.specs.Prelude.{◌≡◌, false, cond, ◌++◌, Some, None, is_some, slice_get, OnOk};
ghost use Rattle.c_core.specs.TreeView.{expr_view, exprs_view, node_view, stmt_view};
ghost use Rattle.check_sequencing.specs.Bodies.{effects_of_fulls, fulls, fulls_view};
ghost use Rattle.check_sequencing.specs.Typed.{effects, effects_all, inner, on_call, on_object, own};

use crate::bodies::{FullExpression, fulls_of};
use crate::effect::Effect;
use c_core::{Callee, Expr, Node, Object, Stmt};
use std::alloc::Global;
use wv_base::OutOfMemory;

/// What a source declares: its objects, and how many functions with a body.
#[derive(Clone, Copy)]
pub struct Declarations<'a> {
    pub objects: &'a [Object],
    pub bodies: u32,
}

impl<'a> Declarations<'a> {
    /// Whether this is the number of an object.
    pub fn is_object(&self, object: u32) -> bool
        ensures { result ≡ is_some (slice_get self.now.objects.now object) }
    {
        self.objects.get(object as usize).is_some()
    }

    /// The object of this number, where there is one.
    pub fn known(&self, object: u32) -> Option<u32>
        ensures { result ≡ cond (is_some (slice_get self.now.objects.now object)) (Some object) None }
    {
        if self.is_object(object) {
            Some(object)
        } else {
            None
        }
    }

    fn push_object(
        &self,
        list: &mut Vec<Effect>,
        stored: bool,
        object: u32,
    ) -> Result<(), OutOfMemory>
        ensures { OnOk result (list.new.items
            ≡ list.old.items ++ on_object self.now.objects.now self.now.bodies stored object) }
    {
        if self.is_object(object) {
            list.push(if stored {
                Effect::Changes(object)
            } else {
                Effect::Reads(object)
            })?;
        }
        Ok(())
    }

    fn push_call(&self, list: &mut Vec<Effect>, callee: Callee) -> Result<(), OutOfMemory>
        ensures { OnOk result (list.new.items ≡ list.old.items ++ on_call self.now.objects.now self.now.bodies callee) }
    {
        if let Callee::Defined(function) = callee
            && function < self.bodies
        {
            list.push(Effect::Calls(function))?;
        }
        Ok(())
    }

    /// What an expression does by itself.
    fn push_own(&self, list: &mut Vec<Effect>, stored: bool, node: &Node) -> Result<(), OutOfMemory>
        ensures { OnOk result (list.new.items
            ≡ list.old.items ++ own self.now.objects.now self.now.bodies stored (node_view node.now)) }
    {
        match node {
            Node::Var(object) => self.push_object(list, stored, *object),
            Node::Index { object, .. } => self.push_object(list, stored, *object),
            Node::Call { callee, .. } => self.push_call(list, *callee),
            _ => Ok(()),
        }
    }

    /// Appends what an expression does, with all in it.
    #[cycle(effects)]
    pub fn push(&self, list: &mut Vec<Effect>, stored: bool, e: &Expr) -> Result<(), OutOfMemory>
        ensures { OnOk result (list.new.items
            ≡ list.old.items ++ effects self.now.objects.now self.now.bodies stored (expr_view e.now)) }
    {
        self.push_own(list, stored, &e.node)?;
        self.push_inner(list, &e.node)?;
        Ok(())
    }

    /// Appends what stands in an expression does, without its own effect.
    #[cycle(effects)]
    pub fn push_inner(&self, list: &mut Vec<Effect>, node: &Node) -> Result<(), OutOfMemory>
        ensures { OnOk result (list.new.items
            ≡ list.old.items ++ inner self.now.objects.now self.now.bodies (node_view node.now)) }
    {
        match node {
            Node::Const(_) => {}
            Node::Var(_) => {}
            Node::Index { at, .. } => self.push_all(list, at.as_slice())?,
            Node::Unary { of, .. } => self.push(list, false, of)?,
            Node::Cast(of) => self.push(list, false, of)?,
            Node::Step { target, .. } => self.push(list, true, target)?,
            Node::Binary { left, right, .. } => {
                self.push(list, false, left)?;
                self.push(list, false, right)?;
            }
            Node::Logic { left, right, .. } => {
                self.push(list, false, left)?;
                self.push(list, false, right)?;
            }
            Node::Choose { test, yes, no, .. } => {
                self.push(list, false, test)?;
                self.push(list, false, yes)?;
                self.push(list, false, no)?;
            }
            Node::Comma { first, last } => {
                self.push(list, false, first)?;
                self.push(list, false, last)?;
            }
            Node::Assign { target, from, .. } => {
                self.push(list, true, target)?;
                self.push(list, false, from)?;
            }
            Node::Call { args, .. } => self.push_all(list, args.as_slice())?,
        }
        Ok(())
    }

    #[cycle(effects)]
    fn push_all(&self, list: &mut Vec<Effect>, es: &[Expr]) -> Result<(), OutOfMemory>
        ensures { OnOk result (list.new.items
            ≡ list.old.items ++ effects_all self.now.objects.now self.now.bodies (exprs_view es.now)) }
    {
        for e in es {
            self.push(list, false, e)?;
        }
        Ok(())
    }

    fn push_fulls(
        &self,
        list: &mut Vec<Effect>,
        fulls: &[FullExpression<'_>],
    ) -> Result<(), OutOfMemory>
        ensures { OnOk result (list.new.items
            ≡ list.old.items ++ effects_of_fulls self.now.objects.now self.now.bodies (fulls_view fulls.now)) }
    {
        for full in fulls {
            self.push(list, false, full.value)?;
        }
        Ok(())
    }

    /// Appends what the body of a function does.
    pub fn push_body(
        &self,
        alloc: Global,
        list: &mut Vec<Effect>,
        body: &Stmt,
    ) -> Result<(), OutOfMemory>
        ensures { OnOk result (list.new.items
            ≡ list.old.items ++ effects_of_fulls self.now.objects.now self.now.bodies (fulls (stmt_view body.now))) }
    {
        let fulls = fulls_of(alloc, body)?;
        self.push_fulls(list, fulls.as_slice())?;
        Ok(())
    }
}
