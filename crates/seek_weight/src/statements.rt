// What statements weigh.
ghost use Rattle.std.specs.Prelude.{◌≡◌};
ghost use Rattle.c_core.specs.View.{expr_view, expr_view_if, exprs_view, first_view, form_view, init_view, names_view, rows_view, stmt_view, stmts_view, switch_view};
ghost use Rattle.seek_weight.specs.SeekWeight as sums;
ghost use Rattle.seek_weight.specs.inside.Weighing.{IsReady, in_walk};
ghost use Rattle.sym_weight.specs.Tally.{capped};
ghost use Rattle.sym_weight.specs.Views.{else_of};

use crate::expressions::expression;
use crate::walk::{Walk, passage, plus, statement_toll, test_toll, turns};
use c_core::{Arm, Declared, Expr, First, Form, Init, IntType, Row, Spot, Stmt};
use c_meaning::{type_of, type_of_object};
use sym_weight::{bits_of_object, chooses, returned, stored, tested};

fn expression_if(walk: Walk, e: &Option<Expr>) -> u64
    requires { IsReady walk }
    ensures { result ≡ capped (in_walk sums.expression_if walk.entry (expr_view_if e.now)) }
{
    match e {
        Some(e) => expression(walk, e),
        None => 0,
    }
}

// The controlling expression of the statement at a place.
fn control(walk: Walk, at: Spot, e: &Expr) -> u64
    requires { IsReady walk }
    ensures { result ≡ capped (in_walk sums.control walk.entry at (expr_view e.now)) }
{
    let value = plus(expression(walk, e), tested(walk.program.model, e));
    plus(test_toll(walk, at), value)
}

fn control_if(walk: Walk, at: Spot, e: &Option<Expr>) -> u64
    requires { IsReady walk }
    ensures { result ≡ capped (in_walk sums.control_if walk.entry at (expr_view_if e.now)) }
{
    match e {
        Some(e) => control(walk, at, e),
        None => 0,
    }
}

fn initial(walk: Walk, object: u32, e: &Expr) -> u64
    requires { IsReady walk }
    ensures { result ≡ capped (in_walk sums.initial walk.entry object (expr_view e.now)) }
{
    let to = type_of_object(walk.program, object);
    plus(
        expression(walk, e),
        stored(walk.program.model, type_of(e), to),
    )
}

fn initials(walk: Walk, object: u32, es: &[Expr]) -> u64
    requires { IsReady walk }
    ensures { result ≡ capped (in_walk sums.initials walk.entry object (exprs_view es.now)) }
{
    let mut sum = 0u64;
    for e in es {
        sum = plus(sum, initial(walk, object, e));
    }
    sum
}

fn row_initials(walk: Walk, object: u32, rows: &[Row]) -> u64
    requires { IsReady walk }
    ensures { result ≡ capped (in_walk sums.row_initials walk.entry object (rows_view rows.now)) }
{
    let mut sum = 0u64;
    for row in rows {
        sum = plus(sum, initials(walk, object, row.values.as_slice()));
    }
    sum
}

fn initialised(walk: Walk, object: u32, init: &Init) -> u64
    requires { IsReady walk }
    ensures { result ≡ capped (in_walk sums.initialised walk.entry object (init_view init.now)) }
{
    let cells = 4 * bits_of_object(walk.program, object);
    match init {
        Init::Absent => cells,
        Init::One(e) => plus(cells, initial(walk, object, e)),
        Init::Many(es) => plus(cells, initials(walk, object, es.as_slice())),
        Init::Rows(rows) => plus(cells, row_initials(walk, object, rows.as_slice())),
    }
}

fn declared(walk: Walk, names: &[Declared]) -> u64
    requires { IsReady walk }
    ensures { result ≡ capped (in_walk sums.declared walk.entry (names_view names.now)) }
{
    let mut sum = 0u64;
    for name in names {
        sum = plus(sum, initialised(walk, name.object, &name.init));
    }
    sum
}

fn first(walk: Walk, first: &First) -> u64
    requires { IsReady walk }
    ensures { result ≡ capped (in_walk sums.first walk.entry (first_view first.now)) }
{
    match first {
        First::Absent => 0,
        First::Expr(e) => expression(walk, e),
        First::Declare(names) => declared(walk, names.as_slice()),
    }
}

// A returned value, if there is one.
fn given(walk: Walk, returns: Option<IntType>, e: &Option<Expr>) -> u64
    requires { IsReady walk }
    ensures { result ≡ capped (in_walk sums.given walk.entry returns (expr_view_if e.now)) }
{
    match e {
        Some(e) => {
            let store = returned(walk.program.model, returns, type_of(e));
            plus(expression(walk, e), store)
        }
        None => 0,
    }
}

#[cycle(statement)]
fn statement(walk: Walk, returns: Option<IntType>, s: &Stmt) -> u64
    requires { IsReady walk }
    ensures { result ≡ capped (in_walk sums.statement walk.entry returns (stmt_view s.now)) }
{
    let inner = form(walk, returns, s.spot, &s.form);
    plus(64, plus(statement_toll(walk, s.spot), inner))
}

// A statement of this form, at this place, without what each statement counts.
#[cycle(statement)]
fn form(walk: Walk, returns: Option<IntType>, at: Spot, form: &Form) -> u64
    requires { IsReady walk }
    ensures { result ≡ capped (in_walk sums.form walk.entry returns at (form_view form.now)) }
{
    match form {
        Form::Empty => 0,
        Form::Expr(e) => expression(walk, e),
        Form::Declare(names) => declared(walk, names.as_slice()),
        Form::Block(body) => statements(walk, returns, body.as_slice()),
        Form::If { test, yes, no } => {
            let arms = plus(statement(walk, returns, yes), otherwise(walk, returns, no));
            plus(control(walk, at, test), arms)
        }
        Form::While { test, body } => {
            let body = statement(walk, returns, body);
            turns(walk, control(walk, at, test), body)
        }
        Form::Do { body, test } => {
            let body = statement(walk, returns, body);
            turns(walk, control(walk, at, test), body)
        }
        Form::For {
            first: start,
            test,
            step,
            body,
        } => {
            let body = plus(expression_if(walk, step), statement(walk, returns, body));
            plus(
                first(walk, start),
                turns(walk, control_if(walk, at, test), body),
            )
        }
        Form::Break => 0,
        Form::Continue => 0,
        Form::Return(e) => given(walk, returns, e),
        Form::Label(of) => statement(walk, returns, of),
        Form::Switch { test, arms } => {
            let arms = arms.as_slice();
            let choice = chooses(walk.program.model, type_of(test), arms);
            let inner = plus(choice, statements_of_arms(walk, returns, arms));
            plus(test_toll(walk, at), plus(expression(walk, test), inner))
        }
    }
}

#[cycle(statement)]
fn otherwise(walk: Walk, returns: Option<IntType>, no: &Option<Box<Stmt>>) -> u64
    requires { IsReady walk }
    ensures { result ≡ capped (in_walk sums.otherwise walk.entry returns (else_of no.now)) }
{
    match no {
        Some(no) => statement(walk, returns, no),
        None => 0,
    }
}

#[cycle(statement)]
fn statements(walk: Walk, returns: Option<IntType>, body: &[Stmt]) -> u64
    requires { IsReady walk }
    ensures { result ≡ capped (in_walk sums.statements walk.entry returns (stmts_view body.now)) }
{
    let mut sum = 0u64;
    for s in body {
        sum = plus(sum, statement(walk, returns, s));
    }
    sum
}

#[cycle(statement)]
fn statements_of_arms(walk: Walk, returns: Option<IntType>, arms: &[Arm]) -> u64
    requires { IsReady walk }
    ensures { result ≡ capped (in_walk sums.statements walk.entry returns (switch_view arms.now)) }
{
    let mut sum = 0u64;
    for arm in arms {
        sum = plus(sum, statements(walk, returns, arm.body.as_slice()));
    }
    sum
}

/// What a function's body weighs.
pub fn function_body(walk: Walk, returns: Option<IntType>, body: &Stmt) -> u64
    requires { IsReady walk }
    ensures { result ≡ capped (in_walk sums.function_body walk.entry returns (stmt_view body.now)) }
{
    let inner = form(walk, returns, body.spot, &body.form);
    plus(64, plus(passage(walk), inner))
}
