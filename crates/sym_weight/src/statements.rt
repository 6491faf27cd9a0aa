// What statements weigh and draw, and the functions that they call.
ghost use Rattle.std.specs.Prelude.{◌≡◌, ◌++◌, IfOk, OnOk};
ghost use Rattle.c_calls.specs.Loops.{changed_if, loop_of};
ghost use Rattle.c_core.specs.View.{expr_view, expr_view_if, exprs_view, first_view, form_view, init_view, names_view, program_view, rows_view, stmt_view, stmts_view, switch_view};
ghost use Rattle.sym_weight.specs.Sum as sums;
ghost use Rattle.sym_weight.specs.Table as table;
ghost use Rattle.sym_weight.specs.Tally.{IsCounted, capped, placed_of, tallying};
ghost use Rattle.sym_weight.specs.Views.{else_of};

use crate::cost::{Cost, draws, nothing, plus, weighs};
use crate::expressions::expression;
use crate::placed::{Weights, weight_at};
use crate::table::{bits_of_object, chooses, returned, stored, tested};
use c_calls::changed_in;
use c_core::{Arm, Declared, Expr, First, Form, Init, IntType, Program, Row, Spot, Stmt};
use c_meaning::{type_of, type_of_object};
use std::alloc::Global;
use wv_base::OutOfMemory;

/// A program with what its invariants weigh, and whether the heads of loops are counted.
#[derive(Clone, Copy)]
pub struct Weigher<'a> {
    pub alloc: Global,
    pub program: &'a Program,
    pub at_loops: &'a Weights,
    pub at_statements: &'a Weights,
    pub heads: bool,
}

fn expression_if(
    program: &Program,
    calls: &mut Vec<u32>,
    e: &Option<Expr>,
) -> Result<Cost, OutOfMemory>
    ensures cost { IfOk result (λ c. c
        ≡ (sums.expression_if (program_view program.now) tallying (expr_view_if e.now)).cost) }
    ensures calls { OnOk result (calls.new.items
        ≡ calls.old.items ++ (sums.expression_if (program_view program.now) tallying (expr_view_if e.now)).calls) }
{
    match e {
        Some(e) => expression(program, calls, e),
        None => Ok(nothing()),
    }
}

fn control(program: &Program, calls: &mut Vec<u32>, e: &Expr) -> Result<Cost, OutOfMemory>
    ensures cost { IfOk result (λ c. c ≡ (sums.control (program_view program.now) tallying (expr_view e.now)).cost) }
    ensures calls { OnOk result (calls.new.items
        ≡ calls.old.items ++ (sums.control (program_view program.now) tallying (expr_view e.now)).calls) }
{
    let value = expression(program, calls, e)?;
    Ok(plus(value, weighs(tested(program.model, e))))
}

fn control_if(
    program: &Program,
    calls: &mut Vec<u32>,
    e: &Option<Expr>,
) -> Result<Cost, OutOfMemory>
    ensures cost { IfOk result (λ c. c
        ≡ (sums.control_if (program_view program.now) tallying (expr_view_if e.now)).cost) }
    ensures calls { OnOk result (calls.new.items
        ≡ calls.old.items ++ (sums.control_if (program_view program.now) tallying (expr_view_if e.now)).calls) }
{
    match e {
        Some(e) => control(program, calls, e),
        None => Ok(nothing()),
    }
}

fn initial(
    program: &Program,
    calls: &mut Vec<u32>,
    object: u32,
    e: &Expr,
) -> Result<Cost, OutOfMemory>
    ensures cost { IfOk result (λ c. c
        ≡ (sums.initial (program_view program.now) tallying object (expr_view e.now)).cost) }
    ensures calls { OnOk result (calls.new.items
        ≡ calls.old.items ++ (sums.initial (program_view program.now) tallying object (expr_view e.now)).calls) }
{
    let value = expression(program, calls, e)?;
    let store = stored(program.model, type_of(e), type_of_object(program, object));
    Ok(plus(value, weighs(store)))
}

fn initials(
    program: &Program,
    calls: &mut Vec<u32>,
    object: u32,
    es: &[Expr],
) -> Result<Cost, OutOfMemory>
    ensures cost { IfOk result (λ c. c
        ≡ (sums.initials (program_view program.now) tallying object (exprs_view es.now)).cost) }
    ensures calls { OnOk result (calls.new.items
        ≡ calls.old.items ++ (sums.initials (program_view program.now) tallying object (exprs_view es.now)).calls) }
{
    let mut sum = nothing();
    for e in es {
        let value = initial(program, calls, object, e)?;
        sum = plus(sum, value);
    }
    Ok(sum)
}

fn row_initials(
    program: &Program,
    calls: &mut Vec<u32>,
    object: u32,
    rows: &[Row],
) -> Result<Cost, OutOfMemory>
    ensures cost { IfOk result (λ c. c
        ≡ (sums.row_initials (program_view program.now) tallying object (rows_view rows.now)).cost) }
    ensures calls { OnOk result (calls.new.items
        ≡ calls.old.items ++
        (sums.row_initials (program_view program.now) tallying object (rows_view rows.now)).calls) }
{
    let mut sum = nothing();
    for row in rows {
        let values = initials(program, calls, object, row.values.as_slice())?;
        sum = plus(sum, values);
    }
    Ok(sum)
}

fn initialised(
    program: &Program,
    calls: &mut Vec<u32>,
    object: u32,
    init: &Init,
) -> Result<Cost, OutOfMemory>
    ensures cost { IfOk result (λ c. c
        ≡ (sums.initialised (program_view program.now) tallying object (init_view init.now)).cost) }
    ensures calls { OnOk result (calls.new.items
        ≡ calls.old.items ++ (sums.initialised (program_view program.now) tallying object (init_view init.now)).calls) }
{
    let bits = bits_of_object(program, object);
    match init {
        Init::Absent => Ok(draws(4 * bits, bits)),
        Init::One(e) => {
            let value = initial(program, calls, object, e)?;
            Ok(plus(weighs(4 * bits), value))
        }
        Init::Many(es) => {
            let values = initials(program, calls, object, es.as_slice())?;
            Ok(plus(weighs(4 * bits), values))
        }
        Init::Rows(rows) => {
            let values = row_initials(program, calls, object, rows.as_slice())?;
            Ok(plus(weighs(4 * bits), values))
        }
    }
}

fn declared(
    program: &Program,
    calls: &mut Vec<u32>,
    names: &[Declared],
) -> Result<Cost, OutOfMemory>
    ensures cost { IfOk result (λ c. c
        ≡ (sums.declared (program_view program.now) tallying (names_view names.now)).cost) }
    ensures calls { OnOk result (calls.new.items
        ≡ calls.old.items ++ (sums.declared (program_view program.now) tallying (names_view names.now)).calls) }
{
    let mut sum = nothing();
    for name in names {
        let object = initialised(program, calls, name.object, &name.init)?;
        sum = plus(sum, object);
    }
    Ok(sum)
}

fn first(program: &Program, calls: &mut Vec<u32>, first: &First) -> Result<Cost, OutOfMemory>
    ensures cost { IfOk result (λ c. c ≡ (sums.first (program_view program.now) tallying (first_view first.now)).cost) }
    ensures calls { OnOk result (calls.new.items
        ≡ calls.old.items ++ (sums.first (program_view program.now) tallying (first_view first.now)).calls) }
{
    match first {
        First::Absent => Ok(nothing()),
        First::Expr(e) => expression(program, calls, e),
        First::Declare(names) => declared(program, calls, names.as_slice()),
    }
}

fn bits_of_objects(program: &Program, objects: &[u32]) -> u64
    ensures { result ≡ capped (table.bits_of_objects (program_view program.now) objects.now) }
{
    let mut sum = 0u64;
    for object in objects {
        sum = sum.saturating_add(bits_of_object(program, *object));
    }
    sum
}

// A loop's head, where there is a loop.
fn head(weigher: Weigher, spot: Spot, form: &Form) -> Result<Cost, OutOfMemory>
    ensures { IfOk result (λ c. c
        ≡ (sums.head (program_view weigher.entry.program.now) tallying (placed_of weigher.entry) spot
        (changed_if (program_view weigher.entry.program.now) (loop_of (form_view form.now)))).cost) }
{
    let objects = changed_in(weigher.alloc, weigher.program, form)?;
    let bits = bits_of_objects(weigher.program, objects.as_slice());
    let tests = 3u64.saturating_mul(weight_at(weigher.at_loops, spot));
    let draws = 4u64.saturating_mul(bits);
    Ok(Cost {
        weight: tests.saturating_add(draws),
        bits,
    })
}

// A loop's head, where heads are counted: only they take a look at all that a loop reaches.
fn counted_head(weigher: Weigher, spot: Spot, form: &Form) -> Result<Cost, OutOfMemory>
    ensures { IfOk result (λ c. IsCounted weigher.entry.heads c
        (sums.head (program_view weigher.entry.program.now) tallying (placed_of weigher.entry) spot
        (changed_if (program_view weigher.entry.program.now) (loop_of (form_view form.now)))).cost) }
{
    if weigher.heads {
        let cost = head(weigher, spot, form)?;
        Ok(cost)
    } else {
        Ok(nothing())
    }
}

// A returned value, if there is one.
fn given(
    program: &Program,
    calls: &mut Vec<u32>,
    returns: Option<IntType>,
    e: &Option<Expr>,
) -> Result<Cost, OutOfMemory>
    ensures cost { IfOk result (λ c. c
        ≡ (sums.given (program_view program.now) tallying returns (expr_view_if e.now)).cost) }
    ensures calls { OnOk result (calls.new.items
        ≡ calls.old.items ++ (sums.given (program_view program.now) tallying returns (expr_view_if e.now)).calls) }
{
    match e {
        Some(e) => {
            let value = expression(program, calls, e)?;
            Ok(plus(value, weighs(returned(program.model, returns, type_of(e)))))
        }
        None => Ok(nothing()),
    }
}

#[cycle(statement)]
fn statement(
    weigher: Weigher,
    calls: &mut Vec<u32>,
    returns: Option<IntType>,
    s: &Stmt,
) -> Result<Cost, OutOfMemory>
    ensures cost { IfOk result (λ c. IsCounted weigher.entry.heads c
        (sums.statement (program_view weigher.entry.program.now) tallying (placed_of weigher.entry) returns
        (stmt_view s.now)).cost) }
    ensures calls { OnOk result
        (calls.new.items ≡ calls.old.items ++
        (sums.statement (program_view weigher.entry.program.now) tallying (placed_of weigher.entry) returns
        (stmt_view s.now)).calls) }
{
    let at = weight_at(weigher.at_statements, s.spot);
    let own = Cost {
        weight: 64u64.saturating_add(at),
        bits: 0,
    };
    let inner = form(weigher, calls, returns, s.spot, &s.form)?;
    Ok(plus(own, inner))
}

/// What a statement of this form weighs, at this place, in a function that returns this.
#[cycle(statement)]
pub fn form(
    weigher: Weigher,
    calls: &mut Vec<u32>,
    returns: Option<IntType>,
    spot: Spot,
    form: &Form,
) -> Result<Cost, OutOfMemory>
    ensures cost { IfOk result (λ c. IsCounted weigher.entry.heads c
        (sums.form (program_view weigher.entry.program.now) tallying (placed_of weigher.entry) returns spot
        (form_view form.now)).cost) }
    ensures calls { OnOk result
        (calls.new.items ≡ calls.old.items ++
        (sums.form (program_view weigher.entry.program.now) tallying (placed_of weigher.entry) returns spot
        (form_view form.now)).calls) }
{
    let program = weigher.program;
    match form {
        Form::Empty => Ok(nothing()),
        Form::Expr(e) => expression(program, calls, e),
        Form::Declare(names) => declared(program, calls, names.as_slice()),
        Form::Block(body) => {
            let inner = statements(weigher, calls, returns, body.as_slice())?;
            Ok(inner)
        }
        Form::If { test, yes, no } => {
            let test = control(program, calls, test)?;
            let yes = statement(weigher, calls, returns, yes)?;
            let no = otherwise(weigher, calls, returns, no)?;
            Ok(plus(test, plus(yes, no)))
        }
        Form::While { test, body } => {
            let head = counted_head(weigher, spot, form)?;
            let test = control(program, calls, test)?;
            let body = statement(weigher, calls, returns, body)?;
            Ok(plus(head, plus(test, body)))
        }
        Form::Do { body, test } => {
            let head = counted_head(weigher, spot, form)?;
            let body = statement(weigher, calls, returns, body)?;
            let test = control(program, calls, test)?;
            Ok(plus(head, plus(body, test)))
        }
        Form::For {
            first: start,
            test,
            step,
            body,
        } => {
            let start = first(program, calls, start)?;
            let head = counted_head(weigher, spot, form)?;
            let test = control_if(program, calls, test)?;
            let step = expression_if(program, calls, step)?;
            let body = statement(weigher, calls, returns, body)?;
            Ok(plus(start, plus(head, plus(test, plus(step, body)))))
        }
        Form::Break => Ok(nothing()),
        Form::Continue => Ok(nothing()),
        Form::Return(e) => given(program, calls, returns, e),
        Form::Label(of) => statement(weigher, calls, returns, of),
        Form::Switch { test, arms } => {
            let arms = arms.as_slice();
            let choice = weighs(chooses(program.model, type_of(test), arms));
            let test = expression(program, calls, test)?;
            let inner = statements_of_arms(weigher, calls, returns, arms)?;
            Ok(plus(test, plus(choice, inner)))
        }
    }
}

#[cycle(statement)]
fn otherwise(
    weigher: Weigher,
    calls: &mut Vec<u32>,
    returns: Option<IntType>,
    no: &Option<Box<Stmt>>,
) -> Result<Cost, OutOfMemory>
    ensures cost { IfOk result (λ c. IsCounted weigher.entry.heads c
        (sums.otherwise (program_view weigher.entry.program.now) tallying (placed_of weigher.entry) returns
        (else_of no.now)).cost) }
    ensures calls { OnOk result
        (calls.new.items ≡ calls.old.items ++
        (sums.otherwise (program_view weigher.entry.program.now) tallying (placed_of weigher.entry) returns
        (else_of no.now)).calls) }
{
    match no {
        Some(no) => statement(weigher, calls, returns, no),
        None => Ok(nothing()),
    }
}

#[cycle(statement)]
fn statements(
    weigher: Weigher,
    calls: &mut Vec<u32>,
    returns: Option<IntType>,
    body: &[Stmt],
) -> Result<Cost, OutOfMemory>
    ensures cost { IfOk result (λ c. IsCounted weigher.entry.heads c
        (sums.statements (program_view weigher.entry.program.now) tallying (placed_of weigher.entry) returns
        (stmts_view body.now)).cost) }
    ensures calls { OnOk result
        (calls.new.items ≡ calls.old.items ++
        (sums.statements (program_view weigher.entry.program.now) tallying (placed_of weigher.entry) returns
        (stmts_view body.now)).calls) }
{
    let mut sum = nothing();
    for s in body {
        let cost = statement(weigher, calls, returns, s)?;
        sum = plus(sum, cost);
    }
    Ok(sum)
}

#[cycle(statement)]
fn statements_of_arms(
    weigher: Weigher,
    calls: &mut Vec<u32>,
    returns: Option<IntType>,
    arms: &[Arm],
) -> Result<Cost, OutOfMemory>
    ensures cost { IfOk result (λ c. IsCounted weigher.entry.heads c
        (sums.statements (program_view weigher.entry.program.now) tallying (placed_of weigher.entry) returns
        (switch_view arms.now)).cost) }
    ensures calls { OnOk result
        (calls.new.items ≡ calls.old.items ++
        (sums.statements (program_view weigher.entry.program.now) tallying (placed_of weigher.entry) returns
        (switch_view arms.now)).calls) }
{
    let mut sum = nothing();
    for arm in arms {
        let cost = statements(weigher, calls, returns, arm.body.as_slice())?;
        sum = plus(sum, cost);
    }
    Ok(sum)
}
