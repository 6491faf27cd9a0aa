// Goes through typed expressions, and lists where operands have no order.
ghost use Rattle.std.specs.Prelude.{◌≡◌, cond, [], ◌∷◌, ◌++◌, OnOk};
ghost use Rattle.c_core.specs.TreeView.{expr_view, exprs_view, node_view, stmt_view};
ghost use Rattle.check_sequencing.specs.Bodies.{full_view, fulls, fulls_view, tested_fulls, tests_of};
ghost use Rattle.check_sequencing.specs.Deciding.{bodies_of, count_of, objects_of};
ghost use Rattle.check_sequencing.specs.Typed.{Initial, Operands, tested, tested_all, tested_in};
ghost use Rattle.check_sequencing.specs.Walking.{IsGone, IsReady, IsSameWalk};

use crate::bodies::{FullExpression, fulls_of};
use crate::clash::{Source, is_quiet};
use crate::declarations::Declarations;
use crate::effect::Effect;
use c_core::{Expr, Node, Spot, Stmt};
use std::alloc::Global;
use wv_base::{OutOfMemory, Seq};

/// The places that were found so far.
#[derive(Drop)]
pub struct Walk<'a> {
    pub source: Source<'a>,
    pub unordered: Vec<Spot>,
}

impl<'a> Walk<'a> {
    /// Over a source whose functions' bodies do this.
    pub fn new(alloc: Global, declared: Declarations<'a>, bodies: &'a [Seq<Effect>]) -> Walk<'a>
        ensures bodies { bodies_of result.source ≡ bodies.now }
        ensures objects { objects_of result.source ≡ declared.entry.objects.now }
        ensures count { count_of result.source ≡ declared.entry.bodies }
        ensures unordered { result.unordered.items ≡ [] }
        ensures ready { IsReady result }
    {
        Walk {
            source: Source::new(alloc, declared, bodies),
            unordered: Vec::new(alloc),
        }
    }

    fn note(&mut self, is_found: bool, spot: Spot) -> Result<(), OutOfMemory>
        ensures source { self.new.source ≡ self.old.source }
        ensures noted { OnOk result (self.new.unordered.items
            ≡ self.old.unordered.items ++ cond is_found (spot ∷ []) []) }
    {
        if is_found {
            self.unordered.push(spot)?;
        }
        Ok(())
    }

    fn test(&mut self, e: &Expr) -> Result<(), OutOfMemory>
        requires { IsReady self.old }
        ensures same { IsSameWalk self.old self.new }
        ensures gone { OnOk result (IsGone self.old self.new (Operands (expr_view e.now) ∷ [])) }
    {
        let is_unordered = self.source.is_unordered(&e.node)?;
        self.note(is_unordered, e.spot)?;
        Ok(())
    }

    #[cycle(walk)]
    fn expression(&mut self, e: &Expr) -> Result<(), OutOfMemory>
        requires { IsReady self.old }
        ensures same { IsSameWalk self.old self.new }
        ensures gone { OnOk result (IsGone self.old self.new (tested (expr_view e.now))) }
    {
        self.parts(&e.node)?;
        self.test(e)?;
        Ok(())
    }

    #[cycle(walk)]
    fn parts(&mut self, node: &Node) -> Result<(), OutOfMemory>
        requires { IsReady self.old }
        ensures same { IsSameWalk self.old self.new }
        ensures gone { OnOk result (IsGone self.old self.new (tested_in (node_view node.now))) }
    {
        match node {
            Node::Const(_) => {}
            Node::Var(_) => {}
            Node::Index { at, .. } => self.arguments(at.as_slice())?,
            Node::Unary { of, .. } => self.expression(of)?,
            Node::Cast(of) => self.expression(of)?,
            Node::Step { target, .. } => self.expression(target)?,
            Node::Binary { left, right, .. } => {
                self.expression(left)?;
                self.expression(right)?;
            }
            Node::Logic { left, right, .. } => {
                self.expression(left)?;
                self.expression(right)?;
            }
            Node::Choose { test, yes, no, .. } => {
                self.expression(test)?;
                self.expression(yes)?;
                self.expression(no)?;
            }
            Node::Comma { first, last } => {
                self.expression(first)?;
                self.expression(last)?;
            }
            Node::Assign { target, from, .. } => {
                self.expression(target)?;
                self.expression(from)?;
            }
            Node::Call { args, .. } => self.arguments(args.as_slice())?,
        }
        Ok(())
    }

    #[cycle(walk)]
    fn arguments(&mut self, args: &[Expr]) -> Result<(), OutOfMemory>
        requires { IsReady self.old }
        ensures same { IsSameWalk self.old self.new }
        ensures gone { OnOk result (IsGone self.old self.new (tested_all (exprs_view args.now))) }
    {
        for arg in args {
            self.expression(arg)?;
        }
        Ok(())
    }

    /// A full expression; one that only reads needs no test.
    pub fn full_expression(&mut self, e: &Expr) -> Result<(), OutOfMemory>
        requires { IsReady self.old }
        ensures same { IsSameWalk self.old self.new }
        ensures gone { OnOk result (IsGone self.old self.new (tested (expr_view e.now))) }
    {
        let effects = self.source.effects(e)?;
        if is_quiet(effects.as_slice()) {
            return Ok(());
        }
        self.expression(e)?;
        Ok(())
    }

    fn test_initializer(&mut self, object: u32, e: &Expr) -> Result<(), OutOfMemory>
        requires { IsReady self.old }
        ensures same { IsSameWalk self.old self.new }
        ensures gone { OnOk result (IsGone self.old self.new (Initial object (expr_view e.now) ∷ [])) }
    {
        let effects = self.source.effects(e)?;
        let is_touched = self.source.some_touches(effects.as_slice(), object)?;
        self.note(is_touched, e.spot)?;
        Ok(())
    }

    /// An initializer of an object, which isn't to touch that object.
    pub fn initializer(&mut self, object: u32, e: &Expr) -> Result<(), OutOfMemory>
        requires { IsReady self.old }
        ensures same { IsSameWalk self.old self.new }
        ensures gone { OnOk result (IsGone self.old self.new
            (Initial object (expr_view e.now) ∷ tested (expr_view e.now))) }
    {
        self.test_initializer(object, e)?;
        self.full_expression(e)?;
        Ok(())
    }

    fn full(&mut self, full: FullExpression<'_>) -> Result<(), OutOfMemory>
        requires { IsReady self.old }
        ensures same { IsSameWalk self.old self.new }
        ensures gone { OnOk result (IsGone self.old self.new (tests_of (full_view full.entry))) }
    {
        match full.object {
            None => self.full_expression(full.value),
            Some(object) => self.initializer(object, full.value),
        }
    }

    fn fulls(&mut self, fulls: &[FullExpression<'_>]) -> Result<(), OutOfMemory>
        requires { IsReady self.old }
        ensures same { IsSameWalk self.old self.new }
        ensures gone { OnOk result (IsGone self.old self.new (tested_fulls (fulls_view fulls.now))) }
    {
        for full in fulls {
            self.full(*full)?;
        }
        Ok(())
    }

    /// The body of a function: its full expressions, in the order of the text.
    pub fn body(&mut self, body: &Stmt) -> Result<(), OutOfMemory>
        requires { IsReady self.old }
        ensures same { IsSameWalk self.old self.new }
        ensures gone { OnOk result (IsGone self.old self.new (tested_fulls (fulls (stmt_view body.now)))) }
    {
        let fulls = fulls_of(self.source.alloc, body)?;
        self.fulls(fulls.as_slice())?;
        Ok(())
    }
}
