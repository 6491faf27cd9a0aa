// The products, quotients and remainders in the bodies of a program, and in invariants.
ghost use Rattle.std.specs.Prelude.{◌≡◌, ◌++◌, OnOk, IfOk};
ghost use Rattle.std.specs.List.{flat_map};
ghost use Rattle.c_core.specs.View.{expr_view_if, exprs_view, first_view, form_view, functions_view, init_view, names_view, program_view, rows_view, stmt_view, stmts_view, switch_view};
ghost use Rattle.c_meaning.specs.Placing.{placed_view};
ghost use Rattle.view_products.specs.Products.{products_in, products_of_invariants, products_of_program};
ghost use Rattle.way_places.specs.Sought.{each_if, each_in, each_in_block, each_in_first, each_in_form, each_in_functions, each_in_init, each_in_list, each_in_names};

use crate::expressions::push_expression;
use c_core::{Arm, Declared, Expr, First, Form, Function, Init, Program, Row, Spot, Stmt};
use c_meaning::PlacedInvariant;
use std::alloc::Global;
use wv_base::OutOfMemory;

fn push_if(list: &mut Vec<Spot>, e: &Option<Expr>) -> Result<(), OutOfMemory>
    ensures { OnOk result (list.new.items
        ≡ list.old.items ++ each_if products_in (expr_view_if e.now)) }
{
    if let Some(e) = e {
        push_expression(list, e)?;
    }
    Ok(())
}

fn push_list(list: &mut Vec<Spot>, es: &[Expr]) -> Result<(), OutOfMemory>
    ensures { OnOk result (list.new.items
        ≡ list.old.items ++ each_in_list products_in (exprs_view es.now)) }
{
    for e in es {
        push_expression(list, e)?;
    }
    Ok(())
}

fn push_rows(list: &mut Vec<Spot>, rows: &[Row]) -> Result<(), OutOfMemory>
    ensures { OnOk result (list.new.items
        ≡ list.old.items ++ flat_map (each_in_list products_in) (rows_view rows.now)) }
{
    for row in rows {
        push_list(list, row.values.as_slice())?;
    }
    Ok(())
}

fn push_init(list: &mut Vec<Spot>, init: &Init) -> Result<(), OutOfMemory>
    ensures { OnOk result (list.new.items
        ≡ list.old.items ++ each_in_init products_in (init_view init.now)) }
{
    match init {
        Init::Absent => Ok(()),
        Init::One(e) => push_expression(list, e),
        Init::Many(es) => push_list(list, es.as_slice()),
        Init::Rows(rows) => push_rows(list, rows.as_slice()),
    }
}

fn push_names(list: &mut Vec<Spot>, names: &[Declared]) -> Result<(), OutOfMemory>
    ensures { OnOk result (list.new.items
        ≡ list.old.items ++ each_in_names products_in (names_view names.now)) }
{
    for name in names {
        push_init(list, &name.init)?;
    }
    Ok(())
}

fn push_first(list: &mut Vec<Spot>, first: &First) -> Result<(), OutOfMemory>
    ensures { OnOk result (list.new.items
        ≡ list.old.items ++ each_in_first products_in (first_view first.now)) }
{
    match first {
        First::Absent => Ok(()),
        First::Expr(e) => push_expression(list, e),
        First::Declare(names) => push_names(list, names.as_slice()),
    }
}

#[cycle(statement)]
fn push_statement(list: &mut Vec<Spot>, s: &Stmt) -> Result<(), OutOfMemory>
    ensures { OnOk result (list.new.items ≡ list.old.items ++ each_in products_in (stmt_view s.now)) }
{
    push_form(list, &s.form)?;
    Ok(())
}

#[cycle(statement)]
fn push_form(list: &mut Vec<Spot>, form: &Form) -> Result<(), OutOfMemory>
    ensures { OnOk result (list.new.items
        ≡ list.old.items ++ each_in_form products_in (form_view form.now)) }
{
    match form {
        Form::Empty => {}
        Form::Expr(e) => push_expression(list, e)?,
        Form::Declare(names) => push_names(list, names.as_slice())?,
        Form::Block(body) => push_block(list, body.as_slice())?,
        Form::If { test, yes, no } => {
            push_expression(list, test)?;
            push_statement(list, yes)?;
            if let Some(no) = no {
                push_statement(list, no)?;
            }
        }
        Form::While { test, body } => {
            push_expression(list, test)?;
            push_statement(list, body)?;
        }
        Form::Do { body, test } => {
            push_expression(list, test)?;
            push_statement(list, body)?;
        }
        Form::For {
            first,
            test,
            step,
            body,
        } => {
            push_first(list, first)?;
            push_if(list, test)?;
            push_if(list, step)?;
            push_statement(list, body)?;
        }
        Form::Break => {}
        Form::Continue => {}
        Form::Return(e) => push_if(list, e)?,
        Form::Label(of) => push_statement(list, of)?,
        Form::Switch { test, arms } => {
            push_expression(list, test)?;
            push_arms(list, arms.as_slice())?;
        }
    }
    Ok(())
}

#[cycle(statement)]
fn push_block(list: &mut Vec<Spot>, body: &[Stmt]) -> Result<(), OutOfMemory>
    ensures { OnOk result (list.new.items
        ≡ list.old.items ++ each_in_block products_in (stmts_view body.now)) }
{
    for s in body {
        push_statement(list, s)?;
    }
    Ok(())
}

#[cycle(statement)]
fn push_arms(list: &mut Vec<Spot>, arms: &[Arm]) -> Result<(), OutOfMemory>
    ensures { OnOk result (list.new.items
        ≡ list.old.items ++ each_in_block products_in (switch_view arms.now)) }
{
    for arm in arms {
        push_block(list, arm.body.as_slice())?;
    }
    Ok(())
}

fn push_functions(list: &mut Vec<Spot>, functions: &[Function]) -> Result<(), OutOfMemory>
    ensures { OnOk result (list.new.items
        ≡ list.old.items ++ each_in_functions products_in (functions_view functions.now)) }
{
    for function in functions {
        push_statement(list, &function.body)?;
    }
    Ok(())
}

/// The places of products, quotients and remainders of two values that aren't constants, in the bodies of a program.
pub fn products(alloc: Global, program: &Program) -> Result<Vec<Spot>, OutOfMemory>
    ensures { IfOk result (λ list. list.items ≡ products_of_program (program_view program.now)) }
{
    let mut list = Vec::new(alloc);
    push_functions(&mut list, program.functions.as_slice())?;
    Ok(list)
}

/// The same in invariants, each place in the invariant's own text.
pub fn products_of_invariants(
    alloc: Global,
    invariants: &[PlacedInvariant],
) -> Result<Vec<Spot>, OutOfMemory>
    ensures { IfOk result (λ list. list.items ≡ products_of_invariants (placed_view invariants.now)) }
{
    let mut list = Vec::new(alloc);
    for invariant in invariants {
        push_expression(&mut list, &invariant.test)?;
    }
    Ok(list)
}
