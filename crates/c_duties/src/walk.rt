// The obligations of full expressions, in the order of the text.
ghost use Rattle.std.specs.Prelude.{◌≡◌, [], ◌∷◌, ◌++◌, OnOk};
ghost use Rattle.std.specs.List.{flat_map};
ghost use Rattle.c_core.specs.View.{expr_view, expr_view_if, exprs_view, first_view, form_view, functions_view, init_view, names_view, program_view, rows_view, stmt_view, stmts_view, switch_view};
ghost use Rattle.c_meaning.specs.Duties.{function_duties, property_duties};
ghost use Rattle.c_meaning.specs.Parts.{fulls_of, fulls_of_block, fulls_of_form};
ghost use Rattle.c_core.specs.Parts.{exp_if, exps_in, fulls_of_first, fulls_of_init, fulls_of_names};

use crate::violating::violates;
use c_core::{Arm, Declared, Expr, First, Form, Function, Init, Program, Row, Stmt};
use c_meaning::{Duty, DutyKind};
use wv_base::OutOfMemory;

fn push(list: &mut Vec<Duty>, program: &Program, e: &Expr) -> Result<(), OutOfMemory>
    ensures { OnOk result (list.new.items
        ≡ list.old.items ++ property_duties (program_view program.now) (expr_view e.now ∷ [])) }
{
    if violates(program.property, program.model, e) {
        list.push(Duty {
            spot: e.spot,
            kind: DutyKind::Property,
            invariant: None,
        })?;
    }
    Ok(())
}

fn push_if(list: &mut Vec<Duty>, program: &Program, e: &Option<Expr>) -> Result<(), OutOfMemory>
    ensures { OnOk result (list.new.items
        ≡ list.old.items ++ property_duties (program_view program.now) (exp_if (expr_view_if e.now))) }
{
    if let Some(e) = e {
        push(list, program, e)?;
    }
    Ok(())
}

fn push_list(list: &mut Vec<Duty>, program: &Program, es: &[Expr]) -> Result<(), OutOfMemory>
    ensures { OnOk result (list.new.items
        ≡ list.old.items ++ property_duties (program_view program.now) (exps_in (exprs_view es.now))) }
{
    for e in es {
        push(list, program, e)?;
    }
    Ok(())
}

fn push_init(list: &mut Vec<Duty>, program: &Program, init: &Init) -> Result<(), OutOfMemory>
    ensures { OnOk result (list.new.items
        ≡ list.old.items ++ property_duties (program_view program.now) (fulls_of_init (init_view init.now))) }
{
    match init {
        Init::Absent => Ok(()),
        Init::One(e) => push(list, program, e),
        Init::Many(es) => push_list(list, program, es.as_slice()),
        Init::Rows(rows) => push_rows(list, program, rows.as_slice()),
    }
}

fn push_rows(list: &mut Vec<Duty>, program: &Program, rows: &[Row]) -> Result<(), OutOfMemory>
    ensures { OnOk result (list.new.items
        ≡ list.old.items ++ property_duties (program_view program.now) (flat_map exps_in (rows_view rows.now))) }
{
    for row in rows {
        push_list(list, program, row.values.as_slice())?;
    }
    Ok(())
}

fn push_names(
    list: &mut Vec<Duty>,
    program: &Program,
    names: &[Declared],
) -> Result<(), OutOfMemory>
    ensures { OnOk result (list.new.items
        ≡ list.old.items ++ property_duties (program_view program.now) (fulls_of_names (names_view names.now))) }
{
    for name in names {
        push_init(list, program, &name.init)?;
    }
    Ok(())
}

fn push_first(list: &mut Vec<Duty>, program: &Program, first: &First) -> Result<(), OutOfMemory>
    ensures { OnOk result (list.new.items
        ≡ list.old.items ++ property_duties (program_view program.now) (fulls_of_first (first_view first.now))) }
{
    match first {
        First::Absent => Ok(()),
        First::Expr(e) => push(list, program, e),
        First::Declare(names) => push_names(list, program, names.as_slice()),
    }
}

#[cycle(statement)]
fn push_statement(list: &mut Vec<Duty>, program: &Program, s: &Stmt) -> Result<(), OutOfMemory>
    ensures { OnOk result (list.new.items
        ≡ list.old.items ++ property_duties (program_view program.now) (fulls_of (stmt_view s.now))) }
{
    push_form(list, program, &s.form)?;
    Ok(())
}

#[cycle(statement)]
fn push_form(list: &mut Vec<Duty>, program: &Program, form: &Form) -> Result<(), OutOfMemory>
    ensures { OnOk result (list.new.items
        ≡ list.old.items ++ property_duties (program_view program.now) (fulls_of_form (form_view form.now))) }
{
    match form {
        Form::Empty => {}
        Form::Expr(e) => push(list, program, e)?,
        Form::Declare(names) => push_names(list, program, names.as_slice())?,
        Form::Block(body) => push_block(list, program, body.as_slice())?,
        Form::If { test, yes, no } => {
            push(list, program, test)?;
            push_statement(list, program, yes)?;
            if let Some(no) = no {
                push_statement(list, program, no)?;
            }
        }
        Form::While { test, body } => {
            push(list, program, test)?;
            push_statement(list, program, body)?;
        }
        Form::Do { body, test } => {
            push_statement(list, program, body)?;
            push(list, program, test)?;
        }
        Form::For {
            first,
            test,
            step,
            body,
        } => {
            push_first(list, program, first)?;
            push_if(list, program, test)?;
            push_if(list, program, step)?;
            push_statement(list, program, body)?;
        }
        Form::Break => {}
        Form::Continue => {}
        Form::Return(e) => push_if(list, program, e)?,
        Form::Label(of) => push_statement(list, program, of)?,
        Form::Switch { test, arms } => {
            push(list, program, test)?;
            push_arms(list, program, arms.as_slice())?;
        }
    }
    Ok(())
}

#[cycle(statement)]
fn push_block(list: &mut Vec<Duty>, program: &Program, body: &[Stmt]) -> Result<(), OutOfMemory>
    ensures { OnOk result (list.new.items
        ≡ list.old.items ++ property_duties (program_view program.now) (fulls_of_block (stmts_view body.now))) }
{
    for s in body {
        push_statement(list, program, s)?;
    }
    Ok(())
}

#[cycle(statement)]
fn push_arms(list: &mut Vec<Duty>, program: &Program, arms: &[Arm]) -> Result<(), OutOfMemory>
    ensures { OnOk result (list.new.items
        ≡ list.old.items ++ property_duties (program_view program.now) (fulls_of_block (switch_view arms.now))) }
{
    for arm in arms {
        push_block(list, program, arm.body.as_slice())?;
    }
    Ok(())
}

/// Appends the obligations of these functions' bodies.
pub fn push_functions(
    list: &mut Vec<Duty>,
    program: &Program,
    functions: &[Function],
) -> Result<(), OutOfMemory>
    ensures { OnOk result (list.new.items
        ≡ list.old.items ++ function_duties (program_view program.now) (functions_view functions.now)) }
{
    for function in functions {
        push_statement(list, program, &function.body)?;
    }
    Ok(())
}
