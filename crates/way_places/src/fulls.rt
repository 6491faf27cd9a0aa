// The full expressions of a program.
ghost use Rattle.std.specs.Prelude.{◌≡◌, ◌∷◌, ◌++◌, [], OnOk, IfOk};
ghost use Rattle.std.specs.List.{flat_map};
ghost use Rattle.c_core.specs.Parts.{fulls_of_program};
ghost use Rattle.c_core.specs.View.{expr_view, expr_view_if, exprs_view, first_view, form_view, functions_view, init_view, names_view, program_view, rows_view, stmt_view, stmts_view, switch_view};
ghost use Rattle.way_places.specs.Calls.{alone, fulls_view};
ghost use Rattle.way_places.specs.Sought.{each_if, each_in, each_in_block, each_in_first, each_in_form, each_in_functions, each_in_init, each_in_list, each_in_names};

use c_core::{Arm, Declared, Expr, First, Form, Function, Init, Program, Row, Stmt};
use std::alloc::Global;
use wv_base::OutOfMemory;

fn push<'a>(list: &mut Vec<&'a Expr>, e: &'a Expr) -> Result<(), OutOfMemory>
    ensures { OnOk result (fulls_view list.new.items ≡ fulls_view list.old.items ++ expr_view e.now ∷ []) }
{
    list.push(e)?;
    Ok(())
}

fn push_if<'a>(list: &mut Vec<&'a Expr>, e: &'a Option<Expr>) -> Result<(), OutOfMemory>
    ensures { OnOk result (fulls_view list.new.items
        ≡ fulls_view list.old.items ++ each_if alone (expr_view_if e.now)) }
{
    if let Some(e) = e {
        push(list, e)?;
    }
    Ok(())
}

fn push_list<'a>(list: &mut Vec<&'a Expr>, es: &'a [Expr]) -> Result<(), OutOfMemory>
    ensures { OnOk result (fulls_view list.new.items
        ≡ fulls_view list.old.items ++ each_in_list alone (exprs_view es.now)) }
{
    for e in es {
        push(list, e)?;
    }
    Ok(())
}

fn push_rows<'a>(list: &mut Vec<&'a Expr>, rows: &'a [Row]) -> Result<(), OutOfMemory>
    ensures { OnOk result (fulls_view list.new.items
        ≡ fulls_view list.old.items ++ flat_map (each_in_list alone) (rows_view rows.now)) }
{
    for row in rows {
        push_list(list, row.values.as_slice())?;
    }
    Ok(())
}

fn push_init<'a>(list: &mut Vec<&'a Expr>, init: &'a Init) -> Result<(), OutOfMemory>
    ensures { OnOk result (fulls_view list.new.items
        ≡ fulls_view list.old.items ++ each_in_init alone (init_view init.now)) }
{
    match init {
        Init::Absent => Ok(()),
        Init::One(e) => push(list, e),
        Init::Many(es) => push_list(list, es.as_slice()),
        Init::Rows(rows) => push_rows(list, rows.as_slice()),
    }
}

fn push_names<'a>(list: &mut Vec<&'a Expr>, names: &'a [Declared]) -> Result<(), OutOfMemory>
    ensures { OnOk result (fulls_view list.new.items
        ≡ fulls_view list.old.items ++ each_in_names alone (names_view names.now)) }
{
    for name in names {
        push_init(list, &name.init)?;
    }
    Ok(())
}

fn push_first<'a>(list: &mut Vec<&'a Expr>, first: &'a First) -> Result<(), OutOfMemory>
    ensures { OnOk result (fulls_view list.new.items
        ≡ fulls_view list.old.items ++ each_in_first alone (first_view first.now)) }
{
    match first {
        First::Absent => Ok(()),
        First::Expr(e) => push(list, e),
        First::Declare(names) => push_names(list, names.as_slice()),
    }
}

#[cycle(statement)]
fn push_statement<'a>(list: &mut Vec<&'a Expr>, s: &'a Stmt) -> Result<(), OutOfMemory>
    ensures { OnOk result (fulls_view list.new.items ≡ fulls_view list.old.items ++ each_in alone (stmt_view s.now)) }
{
    push_form(list, &s.form)?;
    Ok(())
}

#[cycle(statement)]
fn push_form<'a>(list: &mut Vec<&'a Expr>, form: &'a Form) -> Result<(), OutOfMemory>
    ensures { OnOk result (fulls_view list.new.items
        ≡ fulls_view list.old.items ++ each_in_form alone (form_view form.now)) }
{
    match form {
        Form::Empty => {}
        Form::Expr(e) => push(list, e)?,
        Form::Declare(names) => push_names(list, names.as_slice())?,
        Form::Block(body) => push_block(list, body.as_slice())?,
        Form::If { test, yes, no } => {
            push(list, test)?;
            push_statement(list, yes)?;
            if let Some(no) = no {
                push_statement(list, no)?;
            }
        }
        Form::While { test, body } => {
            push(list, test)?;
            push_statement(list, body)?;
        }
        Form::Do { body, test } => {
            push(list, test)?;
            push_statement(list, body)?;
        }
        Form::For {
            first,
            test,
            step,
            body,
        } => {
            push_first(list, first)?;
            push_if(list, test)?;
            push_if(list, step)?;
            push_statement(list, body)?;
        }
        Form::Break => {}
        Form::Continue => {}
        Form::Return(e) => push_if(list, e)?,
        Form::Label(of) => push_statement(list, of)?,
        Form::Switch { test, arms } => {
            push(list, test)?;
            push_arms(list, arms.as_slice())?;
        }
    }
    Ok(())
}

#[cycle(statement)]
fn push_block<'a>(list: &mut Vec<&'a Expr>, body: &'a [Stmt]) -> Result<(), OutOfMemory>
    ensures { OnOk result (fulls_view list.new.items
        ≡ fulls_view list.old.items ++ each_in_block alone (stmts_view body.now)) }
{
    for s in body {
        push_statement(list, s)?;
    }
    Ok(())
}

#[cycle(statement)]
fn push_arms<'a>(list: &mut Vec<&'a Expr>, arms: &'a [Arm]) -> Result<(), OutOfMemory>
    ensures { OnOk result (fulls_view list.new.items
        ≡ fulls_view list.old.items ++ each_in_block alone (switch_view arms.now)) }
{
    for arm in arms {
        push_block(list, arm.body.as_slice())?;
    }
    Ok(())
}

fn push_functions<'a>(
    list: &mut Vec<&'a Expr>,
    functions: &'a [Function],
) -> Result<(), OutOfMemory>
    ensures { OnOk result (fulls_view list.new.items
        ≡ fulls_view list.old.items ++ each_in_functions alone (functions_view functions.now)) }
{
    for function in functions {
        push_statement(list, &function.body)?;
    }
    Ok(())
}

/// Every full expression, each function's statements before those in them.
pub fn fulls(alloc: Global, program: &Program) -> Result<Vec<&Expr>, OutOfMemory>
    ensures { IfOk result (λ fulls. fulls_view fulls.items ≡ fulls_of_program (program_view program.now)) }
{
    let mut list = Vec::new(alloc);
    push_functions(&mut list, program.functions.as_slice())?;
    Ok(list)
}
