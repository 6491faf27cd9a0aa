// The full expressions of a body (C11 6.8p4), in the order of the text.
ghost use Rattle.std.specs.Prelude.{◌≡◌, [], ◌∷◌, ◌++◌, Some, None, OnOk, IfOk};
ghost use Rattle.std.specs.List.{flat_map};
ghost use Rattle.c_core.specs.TreeView.{block_view, expr_view, expr_view_if, exprs_view, first_view, form_view, init_view, names_view, rows_view, stmt_view, stmts_view, switch_view};
ghost use Rattle.check_sequencing.specs.Bodies.{fulls_view, initializers, full, full_if, fulls, fulls_in, fulls_of_block, fulls_of_first, fulls_of_init, fulls_of_names};

use c_core::{Arm, Declared, Expr, First, Form, Init, Row, Stmt};
use std::alloc::Global;
use wv_base::OutOfMemory;

/// A full expression; an initializer has its object.
#[derive(Clone, Copy)]
pub struct FullExpression<'a> {
    pub object: Option<u32>,
    pub value: &'a Expr,
}

fn push<'a>(
    list: &mut Vec<FullExpression<'a>>,
    object: Option<u32>,
    value: &'a Expr,
) -> Result<(), OutOfMemory>
    ensures { OnOk result (fulls_view list.new.items
        ≡ fulls_view list.old.items ++ full object (expr_view value.now) ∷ []) }
{
    list.push(FullExpression { object, value })?;
    Ok(())
}

fn push_if<'a>(list: &mut Vec<FullExpression<'a>>, e: &'a Option<Expr>) -> Result<(), OutOfMemory>
    ensures { OnOk result (fulls_view list.new.items ≡ fulls_view list.old.items ++ full_if (expr_view_if e.now)) }
{
    if let Some(e) = e {
        push(list, None, e)?;
    }
    Ok(())
}

fn push_initializers<'a>(
    list: &mut Vec<FullExpression<'a>>,
    object: u32,
    es: &'a [Expr],
) -> Result<(), OutOfMemory>
    ensures { OnOk result (fulls_view list.new.items
        ≡ fulls_view list.old.items ++ initializers object (exprs_view es.now)) }
{
    for e in es {
        push(list, Some(object), e)?;
    }
    Ok(())
}

fn push_rows<'a>(
    list: &mut Vec<FullExpression<'a>>,
    object: u32,
    rows: &'a [Row],
) -> Result<(), OutOfMemory>
    ensures { OnOk result (fulls_view list.new.items
        ≡ fulls_view list.old.items ++ flat_map (initializers object) (rows_view rows.now)) }
{
    for row in rows {
        push_initializers(list, object, row.values.as_slice())?;
    }
    Ok(())
}

fn push_init<'a>(
    list: &mut Vec<FullExpression<'a>>,
    object: u32,
    init: &'a Init,
) -> Result<(), OutOfMemory>
    ensures { OnOk result (fulls_view list.new.items
        ≡ fulls_view list.old.items ++ fulls_of_init object (init_view init.now)) }
{
    match init {
        Init::Absent => Ok(()),
        Init::One(e) => push(list, Some(object), e),
        Init::Many(es) => push_initializers(list, object, es.as_slice()),
        Init::Rows(rows) => push_rows(list, object, rows.as_slice()),
    }
}

fn push_names<'a>(
    list: &mut Vec<FullExpression<'a>>,
    names: &'a [Declared],
) -> Result<(), OutOfMemory>
    ensures { OnOk result (fulls_view list.new.items
        ≡ fulls_view list.old.items ++ fulls_of_names (names_view names.now)) }
{
    for name in names {
        push_init(list, name.object, &name.init)?;
    }
    Ok(())
}

fn push_first<'a>(list: &mut Vec<FullExpression<'a>>, first: &'a First) -> Result<(), OutOfMemory>
    ensures { OnOk result (fulls_view list.new.items
        ≡ fulls_view list.old.items ++ fulls_of_first (first_view first.now)) }
{
    match first {
        First::Absent => Ok(()),
        First::Expr(e) => push(list, None, e),
        First::Declare(names) => push_names(list, names.as_slice()),
    }
}

#[cycle(statement)]
fn push_statement<'a>(list: &mut Vec<FullExpression<'a>>, s: &'a Stmt) -> Result<(), OutOfMemory>
    ensures { OnOk result (fulls_view list.new.items ≡ fulls_view list.old.items ++ fulls (stmt_view s.now)) }
{
    push_form(list, &s.form)?;
    Ok(())
}

#[cycle(statement)]
fn push_form<'a>(list: &mut Vec<FullExpression<'a>>, form: &'a Form) -> Result<(), OutOfMemory>
    ensures { OnOk result (fulls_view list.new.items ≡ fulls_view list.old.items ++ fulls_in (form_view form.now)) }
{
    match form {
        Form::Empty => {}
        Form::Expr(e) => push(list, None, e)?,
        Form::Declare(names) => push_names(list, names.as_slice())?,
        Form::Block(body) => push_block(list, body.as_slice())?,
        Form::If { test, yes, no } => {
            push(list, None, test)?;
            push_statement(list, yes)?;
            if let Some(no) = no {
                push_statement(list, no)?;
            }
        }
        Form::While { test, body } => {
            push(list, None, test)?;
            push_statement(list, body)?;
        }
        Form::Do { body, test } => {
            push_statement(list, body)?;
            push(list, None, test)?;
        }
        Form::For {
            first,
            test,
            step,
            body,
        } => {
            push_first(list, first)?;
            push_if(list, test)?;
            push_if(list, step)?;
            push_statement(list, body)?;
        }
        Form::Break => {}
        Form::Continue => {}
        Form::Return(e) => push_if(list, e)?,
        Form::Label(of) => push_statement(list, of)?,
        Form::Switch { test, arms } => {
            push(list, None, test)?;
            push_arms(list, arms.as_slice())?;
        }
    }
    Ok(())
}

#[cycle(statement)]
fn push_block<'a>(list: &mut Vec<FullExpression<'a>>, body: &'a [Stmt]) -> Result<(), OutOfMemory>
    ensures { OnOk result (fulls_view list.new.items
        ≡ fulls_view list.old.items ++ fulls_of_block (stmts_view body.now)) }
{
    for s in body {
        push_statement(list, s)?;
    }
    Ok(())
}

#[cycle(statement)]
fn push_arms<'a>(list: &mut Vec<FullExpression<'a>>, arms: &'a [Arm]) -> Result<(), OutOfMemory>
    ensures { OnOk result (fulls_view list.new.items
        ≡ fulls_view list.old.items ++ fulls_of_block (switch_view arms.now)) }
{
    for arm in arms {
        push_block(list, arm.body.as_slice())?;
    }
    Ok(())
}

/// The full expressions of a statement.
pub fn fulls_of<'a>(alloc: Global, s: &'a Stmt) -> Result<Vec<FullExpression<'a>>, OutOfMemory>
    ensures { IfOk result (λ list. fulls_view list.items ≡ fulls (stmt_view s.now)) }
{
    let mut list = Vec::new(alloc);
    push_statement(&mut list, s)?;
    Ok(list)
}
