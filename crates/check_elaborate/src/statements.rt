// Statements: one function for each form.
ghost use Rattle.std.specs.Prelude.{◌≡◌, [], map, IfOk, OnOk, true};
ghost use Rattle.std.specs.Option.{option_map};
ghost use Rattle.c_core.specs.View.{first_view as typed_first_view, form_view as typed_form_view, stmt_view as typed_stmt_view, stmts_view as typed_stmts_view, switch_view as typed_switch_view};
ghost use Rattle.c_parser.specs.SourceView.{declared_view, first_view, form_view, stmt_view, else_if};
ghost use Rattle.c_parser.specs.Tree as raw;
ghost use Rattle.c_parser.specs.StatementParts.{raw_arm_view};
ghost use Rattle.c_parser.specs.Tree.{stms, arms as arms_of};
ghost use Rattle.c_parser.specs.View.{expr_view};
ghost use Rattle.check_rules.specs.Checked as checked;
ghost use Rattle.check_rules.specs.Parts as part;
ghost use Rattle.check_rules.specs.Scopes as scopes;
ghost use Rattle.check_elaborate.specs.InArms.{typed_in_arm, after_in_arm, parts_in_arm};
ghost use Rattle.check_elaborate.specs.Walks.{scope_at, bodies_in, IsNoted, else_of};

use crate::arm_labels::ArmLabels;
use crate::arms::{label, switch_type};
use crate::context::Context;
use crate::declaring::names;
use crate::forms::{
    arm_of, block_of, boxed, choice_of, do_of, for_of, label_of, switch_of, while_of,
};
use crate::full::{full, full_if};
use crate::jumps::{give, leave};
use crate::walk::Walk;
use c_core::{Arm, First, Form, IntType, Spot, Stmt};
use c_parser::{RawArm, RawExpr, RawFirst, RawForm, RawStmt};
use check_rules::{Role, Within};
use wv_base::{OutOfMemory, Seq};

const IN_LOOP: Within = Within {
    breaks: true,
    continues: true,
};

/// A statement in a function of this result, within what stands around it.
#[cycle(statement)]
fn statement<'a>(
    context: &Context,
    walk: &mut Walk<'a>,
    gives: Option<IntType>,
    within: Within,
    s: &'a RawStmt,
) -> Result<Stmt, OutOfMemory>
    ensures typed { IfOk result (λ r. typed_stmt_view r
        ≡ checked.typed_statement context.now.model (bodies_in context.now) (scope_at walk.old) (stmt_view s.now)) }
    ensures scope { OnOk result (scope_at walk.new
        ≡ scopes.after_statement context.now.model (bodies_in context.now) (scope_at walk.old) (stmt_view s.now)) }
    ensures noted { OnOk result
        (IsNoted context.now walk.old walk.new
        (part.parts_of_statement context.now.model (bodies_in context.now) gives within (scope_at walk.old)
        (stmt_view s.now))) }
{
    let form = form(context, walk, gives, within, s.spot, &s.form)?;
    Ok(Stmt { spot: s.spot, form })
}

#[cycle(statement)]
fn form<'a>(
    context: &Context,
    walk: &mut Walk<'a>,
    gives: Option<IntType>,
    within: Within,
    spot: Spot,
    f: &'a RawForm,
) -> Result<Form, OutOfMemory>
    ensures typed { IfOk result (λ r. typed_form_view r
        ≡ checked.typed_form context.now.model (bodies_in context.now) (scope_at walk.old) (form_view f.now)) }
    ensures scope { OnOk result (scope_at walk.new
        ≡ scopes.after_form context.now.model (bodies_in context.now) (scope_at walk.old) (form_view f.now)) }
    ensures noted { OnOk result (IsNoted context.now walk.old walk.new
        (part.parts_of_form context.now.model (bodies_in context.now) gives within (scope_at walk.old) spot
        (form_view f.now))) }
{
    match f {
        RawForm::Empty => Ok(Form::Empty),
        RawForm::Expr(e) => {
            let e = full(context, walk, Role::Effect, e)?;
            Ok(Form::Expr(e))
        }
        RawForm::Declare(ds) => {
            let names = names(context, walk, ds.as_slice())?;
            Ok(Form::Declare(names))
        }
        RawForm::Block(ss) => {
            let ss = block(context, walk, gives, within, ss.as_slice())?;
            Ok(block_of(ss))
        }
        RawForm::If { test, yes, no } => {
            let test = full(context, walk, Role::Value, test)?;
            let yes = arm(context, walk, gives, within, yes)?;
            let no = other_arm(context, walk, gives, within, no)?;
            let choice = choice_of(context.alloc, test, yes, no)?;
            Ok(choice)
        }
        RawForm::While { test, body } => {
            while_loop(context, walk, gives, within, spot, body, test)
        }
        RawForm::Do { body, test } => { do_loop(context, walk, gives, within, spot, body, test) }
        RawForm::For {
            first,
            test,
            step,
            body,
        } => { for_loop(context, walk, gives, within, spot, body, first, test, step) }
        RawForm::Break => {
            leave(context, walk, within.breaks, spot);
            Ok(Form::Break)
        }
        RawForm::Continue => {
            leave(context, walk, within.continues, spot);
            Ok(Form::Continue)
        }
        RawForm::Return(e) => { give(context, walk, gives, within, spot, e) }
        RawForm::Label { of, .. } => {
            let of = arm(context, walk, gives, within, of)?;
            Ok(label_of(context.alloc, of)?)
        }
        RawForm::Switch { test, arms } => {
            switch(context, walk, gives, within, spot, arms.as_slice(), test)
        }
    }
}

// In the loops the body comes first, by which the recursion ends.
#[cycle(statement)]
fn while_loop<'a>(
    context: &Context,
    walk: &mut Walk<'a>,
    gives: Option<IntType>,
    within: Within,
    spot: Spot,
    body: &'a RawStmt,
    test: &RawExpr,
) -> Result<Form, OutOfMemory>
    ensures typed { IfOk result (λ r. typed_form_view r
        ≡ checked.typed_form context.now.model (bodies_in context.now) (scope_at walk.old)
        (raw.While (expr_view test.now) (stmt_view body.now))) }
    ensures scope { OnOk result (scope_at walk.new
        ≡ scopes.after_form context.now.model (bodies_in context.now) (scope_at walk.old)
        (raw.While (expr_view test.now) (stmt_view body.now))) }
    ensures noted { OnOk result (IsNoted context.now walk.old walk.new
        (part.parts_of_form context.now.model (bodies_in context.now) gives within (scope_at walk.old) spot
        (raw.While (expr_view test.now) (stmt_view body.now)))) }
{
    let test = full(context, walk, Role::Value, test)?;
    let body = arm(context, walk, gives, IN_LOOP, body)?;
    let form = while_of(context.alloc, test, body)?;
    Ok(form)
}

#[cycle(statement)]
fn do_loop<'a>(
    context: &Context,
    walk: &mut Walk<'a>,
    gives: Option<IntType>,
    within: Within,
    spot: Spot,
    body: &'a RawStmt,
    test: &RawExpr,
) -> Result<Form, OutOfMemory>
    ensures typed { IfOk result (λ r. typed_form_view r
        ≡ checked.typed_form context.now.model (bodies_in context.now) (scope_at walk.old)
        (raw.DoWhile (stmt_view body.now) (expr_view test.now))) }
    ensures scope { OnOk result (scope_at walk.new
        ≡ scopes.after_form context.now.model (bodies_in context.now) (scope_at walk.old)
        (raw.DoWhile (stmt_view body.now) (expr_view test.now))) }
    ensures noted { OnOk result (IsNoted context.now walk.old walk.new
        (part.parts_of_form context.now.model (bodies_in context.now) gives within (scope_at walk.old) spot
        (raw.DoWhile (stmt_view body.now) (expr_view test.now)))) }
{
    let body = arm(context, walk, gives, IN_LOOP, body)?;
    let test = full(context, walk, Role::Value, test)?;
    let form = do_of(context.alloc, body, test)?;
    Ok(form)
}

// What is declared in its parentheses ends with the loop.
#[cycle(statement)]
fn for_loop<'a>(
    context: &Context,
    walk: &mut Walk<'a>,
    gives: Option<IntType>,
    within: Within,
    spot: Spot,
    body: &'a RawStmt,
    first: &'a RawFirst,
    test: &Option<RawExpr>,
    step: &Option<RawExpr>,
) -> Result<Form, OutOfMemory>
    ensures typed { IfOk result (λ r. typed_form_view r
        ≡ checked.typed_form context.now.model (bodies_in context.now) (scope_at walk.old)
        (raw.For (first_view first.now) (option_map expr_view test.now) (option_map expr_view step.now)
        (stmt_view body.now))) }
    ensures scope { OnOk result (scope_at walk.new
        ≡ scopes.after_form context.now.model (bodies_in context.now) (scope_at walk.old)
        (raw.For (first_view first.now) (option_map expr_view test.now) (option_map expr_view step.now)
        (stmt_view body.now))) }
    ensures noted { OnOk result (IsNoted context.now walk.old walk.new
        (part.parts_of_form context.now.model (bodies_in context.now) gives within (scope_at walk.old) spot
        (raw.For (first_view first.now) (option_map expr_view test.now) (option_map expr_view step.now)
        (stmt_view body.now)))) }
{
    let outside = walk.open();
    let first = begin(context, walk, first)?;
    let test = full_if(context, walk, Role::Value, test)?;
    let step = full_if(context, walk, Role::Effect, step)?;
    let body = arm(context, walk, gives, IN_LOOP, body)?;
    walk.close(outside);
    let form = for_of(context.alloc, first, test, step, body)?;
    Ok(form)
}

#[cycle(statement)]
fn switch<'a>(
    context: &Context,
    walk: &mut Walk<'a>,
    gives: Option<IntType>,
    within: Within,
    spot: Spot,
    all: &'a [RawArm],
    test: &RawExpr,
) -> Result<Form, OutOfMemory>
    ensures typed { IfOk result (λ r. typed_form_view r
        ≡ checked.typed_form context.now.model (bodies_in context.now) (scope_at walk.old)
        (raw.Switch (expr_view test.now) (arms_of (map raw_arm_view all.now)))) }
    ensures scope { OnOk result (scope_at walk.new
        ≡ scopes.after_form context.now.model (bodies_in context.now) (scope_at walk.old)
        (raw.Switch (expr_view test.now) (arms_of (map raw_arm_view all.now)))) }
    ensures noted { OnOk result (IsNoted context.now walk.old walk.new
        (part.parts_of_form context.now.model (bodies_in context.now) gives within (scope_at walk.old) spot
        (raw.Switch (expr_view test.now) (arms_of (map raw_arm_view all.now))))) }
{
    let test = full(context, walk, Role::Value, test)?;
    let ty = switch_type(context.model, test.ty);
    let within = Within {
        breaks: true,
        continues: within.continues,
    };
    let arms = arms(context, walk, gives, within, ty, all)?;
    Ok(switch_of(test, arms))
}

// The arms of a `switch`, whose constants are of this type.
#[cycle(statement)]
fn arms<'a>(
    context: &Context,
    walk: &mut Walk<'a>,
    gives: Option<IntType>,
    within: Within,
    ty: IntType,
    arms: &'a [RawArm],
) -> Result<Seq<Arm>, OutOfMemory>
    ensures typed { IfOk result (λ r. typed_switch_view r
        ≡ checked.typed_arms context.now.model (bodies_in context.now) ty (scope_at walk.old)
        (arms_of (map raw_arm_view arms.now))) }
    ensures scope { OnOk result (scope_at walk.new
        ≡ scopes.after_arms context.now.model (bodies_in context.now) (scope_at walk.old)
        (arms_of (map raw_arm_view arms.now))) }
    ensures noted { OnOk result (IsNoted context.now walk.old walk.new
        (part.parts_of_arms context.now.model (bodies_in context.now) gives within ty [] (scope_at walk.old)
        (arms_of (map raw_arm_view arms.now)))) }
{
    let mut all = Seq::new(context.alloc);
    let mut before = ArmLabels::new(context.alloc);
    for arm in arms {
        let label = label(context, walk, ty, &mut before, arm.spot, &arm.label)?;
        let body = in_arm(context, walk, gives, within, arm.body.as_slice())?;
        all.push(arm_of(arm.spot, label, body))?;
    }
    Ok(all)
}

// The statements of an arm, each of which is a block.
#[cycle(statement)]
fn in_arm<'a>(
    context: &Context,
    walk: &mut Walk<'a>,
    gives: Option<IntType>,
    within: Within,
    ss: &'a [RawStmt],
) -> Result<Seq<Stmt>, OutOfMemory>
    ensures typed { IfOk result (λ r. typed_stmts_view r
        ≡ typed_in_arm context.now.model (bodies_in context.now) (scope_at walk.old) (map stmt_view ss.now)) }
    ensures scope { OnOk result (scope_at walk.new
        ≡ after_in_arm context.now.model (bodies_in context.now) (scope_at walk.old) (map stmt_view ss.now)) }
    ensures noted { OnOk result (IsNoted context.now walk.old walk.new
        (parts_in_arm context.now.model (bodies_in context.now) gives within (scope_at walk.old)
        (map stmt_view ss.now))) }
{
    let mut all = Seq::new(context.alloc);
    for s in ss {
        let typed = arm(context, walk, gives, within, s)?;
        all.push(typed)?;
    }
    Ok(all)
}

// What stands first in the parentheses of a `for`.
fn begin<'a>(
    context: &Context,
    walk: &mut Walk<'a>,
    first: &'a RawFirst,
) -> Result<First, OutOfMemory>
    ensures typed { IfOk result (λ r. typed_first_view r
        ≡ checked.typed_first context.now.model (bodies_in context.now) (scope_at walk.old) (first_view first.now)) }
    ensures scope { OnOk result (scope_at walk.new
        ≡ scopes.after_first context.now.model (bodies_in context.now) (scope_at walk.old) (first_view first.now)) }
    ensures noted { OnOk result (IsNoted context.now walk.old walk.new
        (part.parts_of_first context.now.model (bodies_in context.now) (scope_at walk.old) (first_view first.now))) }
{
    match first {
        RawFirst::Absent => Ok(First::Absent),
        RawFirst::Expr(e) => {
            let e = full(context, walk, Role::Effect, e)?;
            Ok(First::Expr(e))
        }
        RawFirst::Declare(ds) => {
            let names = names(context, walk, ds.as_slice())?;
            Ok(First::Declare(names))
        }
    }
}

#[cycle(statement)]
fn other_arm<'a>(
    context: &Context,
    walk: &mut Walk<'a>,
    gives: Option<IntType>,
    within: Within,
    s: &'a Option<Box<RawStmt>>,
) -> Result<Option<Box<Stmt>>, OutOfMemory>
    ensures typed { IfOk result (λ r. else_of r
        ≡ checked.typed_else context.now.model (bodies_in context.now) (scope_at walk.old) (else_if s.now)) }
    ensures scope { OnOk result (scope_at walk.new
        ≡ scopes.after_else context.now.model (bodies_in context.now) (scope_at walk.old) (else_if s.now)) }
    ensures noted { OnOk result (IsNoted context.now walk.old walk.new
        (part.parts_of_else context.now.model (bodies_in context.now) gives within (scope_at walk.old)
        (else_if s.now))) }
{
    match s {
        None => Ok(None),
        Some(s) => {
            let s = arm(context, walk, gives, within, s)?;
            let boxed = boxed(context.alloc, s)?;
            Ok(Some(boxed))
        }
    }
}

// A part of a statement is a block (C11 6.8.4p3, 6.8.5p5).
#[cycle(statement)]
fn arm<'a>(
    context: &Context,
    walk: &mut Walk<'a>,
    gives: Option<IntType>,
    within: Within,
    s: &'a RawStmt,
) -> Result<Stmt, OutOfMemory>
    ensures typed { IfOk result (λ r. typed_stmt_view r
        ≡ checked.typed_statement context.now.model (bodies_in context.now) (scopes.opened (scope_at walk.old))
        (stmt_view s.now)) }
    ensures scope { OnOk result (scope_at walk.new
        ≡ scopes.closed (scope_at walk.old)
        (scopes.after_statement context.now.model (bodies_in context.now) (scopes.opened (scope_at walk.old))
        (stmt_view s.now))) }
    ensures noted { OnOk result
        (IsNoted context.now walk.old walk.new
        (part.parts_of_statement context.now.model (bodies_in context.now) gives within
        (scopes.opened (scope_at walk.old)) (stmt_view s.now))) }
{
    let outside = walk.open();
    let s = statement(context, walk, gives, within, s)?;
    walk.close(outside);
    Ok(s)
}

// What is declared in a block ends with it.
#[cycle(statement)]
fn block<'a>(
    context: &Context,
    walk: &mut Walk<'a>,
    gives: Option<IntType>,
    within: Within,
    ss: &'a [RawStmt],
) -> Result<Seq<Stmt>, OutOfMemory>
    ensures typed { IfOk result (λ r. typed_stmts_view r
        ≡ checked.typed_block context.now.model (bodies_in context.now) (scopes.opened (scope_at walk.old))
        (stms (map stmt_view ss.now))) }
    ensures scope { OnOk result (scope_at walk.new
        ≡ scopes.closed (scope_at walk.old)
        (scopes.after_block context.now.model (bodies_in context.now) (scopes.opened (scope_at walk.old))
        (stms (map stmt_view ss.now)))) }
    ensures noted { OnOk result (IsNoted context.now walk.old walk.new
        (part.parts_of_block context.now.model (bodies_in context.now) gives within (scopes.opened (scope_at walk.old))
        (stms (map stmt_view ss.now)))) }
{
    let outside = walk.open();
    let ss = statements(context, walk, gives, within, ss)?;
    walk.close(outside);
    Ok(ss)
}

/// Statements, one after another.
#[cycle(statement)]
pub fn statements<'a>(
    context: &Context,
    walk: &mut Walk<'a>,
    gives: Option<IntType>,
    within: Within,
    ss: &'a [RawStmt],
) -> Result<Seq<Stmt>, OutOfMemory>
    ensures typed { IfOk result (λ r. typed_stmts_view r
        ≡ checked.typed_block context.now.model (bodies_in context.now) (scope_at walk.old)
        (stms (map stmt_view ss.now))) }
    ensures scope { OnOk result (scope_at walk.new
        ≡ scopes.after_block context.now.model (bodies_in context.now) (scope_at walk.old)
        (stms (map stmt_view ss.now))) }
    ensures noted { OnOk result (IsNoted context.now walk.old walk.new
        (part.parts_of_block context.now.model (bodies_in context.now) gives within (scope_at walk.old)
        (stms (map stmt_view ss.now)))) }
{
    let mut all = Seq::new(context.alloc);
    for s in ss {
        let typed = statement(context, walk, gives, within, s)?;
        all.push(typed)?;
    }
    Ok(all)
}
