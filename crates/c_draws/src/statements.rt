// The places at which statements draw.
ghost use Rattle.std.specs.Prelude.{◌≡◌, ◌++◌, OnOk, map};
ghost use Rattle.c_core.specs.Scope.{is_fixed};
ghost use Rattle.c_core.specs.View.{first_view, form_view, init_view, names_view, program_view, stmt_view, stmts_view, switch_view};
ghost use Rattle.c_draws.specs.Drawing.{cells_by, change, changes_of, draws_of_block, draws_of_first, draws_of_form, draws_of_names, draws_of_statement};

use crate::inputs::{push_expression, push_if, push_init};
use crate::places::DrawPlace;
use c_calls::changed_in;
use c_core::{Arm, Declared, First, Form, Init, Program, Spot, Stmt};
use c_meaning::{DrawKind, type_of_object};
use std::alloc::Global;
use wv_base::OutOfMemory;

fn is_fixed(program: &Program, object: u32) -> bool
    ensures { result ≡ is_fixed (program_view program.now) object }
{
    match program.objects.get(object as usize) {
        Some(found) => found.fixed,
        None => false,
    }
}

fn push_cells(
    list: &mut Vec<DrawPlace>,
    program: &Program,
    spot: Spot,
    object: u32,
    init: &Init,
) -> Result<(), OutOfMemory>
    ensures { OnOk result (list.new.items ≡ list.old.items ++ cells_by (program_view program.now) spot object
        (init_view init.now)) }
{
    let fixed = is_fixed(program, object);
    let ty = type_of_object(program, object);
    match init {
        Init::Absent => {
            if !fixed {
                list.push(DrawPlace {
                    spot,
                    ty,
                    from: DrawKind::Cell,
                })?;
            }
        }
        Init::One(_) => {}
        Init::Many(_) => {}
        Init::Rows(_) => {}
    }
    Ok(())
}

fn push_names(
    list: &mut Vec<DrawPlace>,
    program: &Program,
    names: &[Declared],
) -> Result<(), OutOfMemory>
    ensures { OnOk result (list.new.items
        ≡ list.old.items ++ draws_of_names (program_view program.now) (names_view names.now)) }
{
    for name in names {
        push_cells(list, program, name.spot, name.object, &name.init)?;
        push_init(list, &name.init)?;
    }
    Ok(())
}

fn push_first(
    list: &mut Vec<DrawPlace>,
    program: &Program,
    first: &First,
) -> Result<(), OutOfMemory>
    ensures { OnOk result (list.new.items
        ≡ list.old.items ++ draws_of_first (program_view program.now) (first_view first.now)) }
{
    match first {
        First::Absent => Ok(()),
        First::Expr(e) => push_expression(list, e),
        First::Declare(names) => push_names(list, program, names.as_slice()),
    }
}

fn push_objects(
    list: &mut Vec<DrawPlace>,
    program: &Program,
    spot: Spot,
    objects: &[u32],
) -> Result<(), OutOfMemory>
    ensures { OnOk result (list.new.items
        ≡ list.old.items ++ map (change (program_view program.now) spot) objects.now) }
{
    for object in objects {
        let ty = type_of_object(program, *object);
        list.push(DrawPlace {
            spot,
            ty,
            from: DrawKind::Havoc,
        })?;
    }
    Ok(())
}

fn push_looked_up(
    alloc: Global,
    list: &mut Vec<DrawPlace>,
    program: &Program,
    spot: Spot,
    form: &Form,
) -> Result<(), OutOfMemory>
    ensures { OnOk result (list.new.items
        ≡ list.old.items ++ changes_of (program_view program.now) spot (form_view form.now)) }
{
    let objects = changed_in(alloc, program, form)?;
    push_objects(list, program, spot, objects.as_slice())?;
    Ok(())
}

// What a loop changes is looked up for loops alone: a look-up goes over all objects.
fn push_changed(
    alloc: Global,
    list: &mut Vec<DrawPlace>,
    program: &Program,
    spot: Spot,
    form: &Form,
) -> Result<(), OutOfMemory>
    ensures { OnOk result (list.new.items
        ≡ list.old.items ++ changes_of (program_view program.now) spot (form_view form.now)) }
{
    match form {
        Form::While { .. } => push_looked_up(alloc, list, program, spot, form),
        Form::Do { .. } => push_looked_up(alloc, list, program, spot, form),
        Form::For { .. } => push_looked_up(alloc, list, program, spot, form),
        _ => Ok(()),
    }
}

/// Appends the places at which a statement draws, with those in it.
#[cycle(statement)]
pub fn push_statement(
    alloc: Global,
    list: &mut Vec<DrawPlace>,
    program: &Program,
    s: &Stmt,
) -> Result<(), OutOfMemory>
    ensures { OnOk result (list.new.items
        ≡ list.old.items ++ draws_of_statement (program_view program.now) (stmt_view s.now)) }
{
    push_changed(alloc, list, program, s.spot, &s.form)?;
    push_form(alloc, list, program, &s.form)?;
    Ok(())
}

#[cycle(statement)]
fn push_form(
    alloc: Global,
    list: &mut Vec<DrawPlace>,
    program: &Program,
    form: &Form,
) -> Result<(), OutOfMemory>
    ensures { OnOk result (list.new.items
        ≡ list.old.items ++ draws_of_form (program_view program.now) (form_view form.now)) }
{
    match form {
        Form::Empty => {}
        Form::Expr(e) => push_expression(list, e)?,
        Form::Declare(names) => push_names(list, program, names.as_slice())?,
        Form::Block(body) => push_block(alloc, list, program, body.as_slice())?,
        Form::If { test, yes, no } => {
            push_expression(list, test)?;
            push_statement(alloc, list, program, yes)?;
            if let Some(no) = no {
                push_statement(alloc, list, program, no)?;
            }
        }
        Form::While { test, body } => {
            push_expression(list, test)?;
            push_statement(alloc, list, program, body)?;
        }
        Form::Do { body, test } => {
            push_statement(alloc, list, program, body)?;
            push_expression(list, test)?;
        }
        Form::For {
            first,
            test,
            step,
            body,
        } => {
            push_first(list, program, first)?;
            push_if(list, test)?;
            push_if(list, step)?;
            push_statement(alloc, list, program, body)?;
        }
        Form::Break => {}
        Form::Continue => {}
        Form::Return(e) => push_if(list, e)?,
        Form::Label(of) => push_statement(alloc, list, program, of)?,
        Form::Switch { test, arms } => {
            push_expression(list, test)?;
            push_arms(alloc, list, program, arms.as_slice())?;
        }
    }
    Ok(())
}

#[cycle(statement)]
fn push_block(
    alloc: Global,
    list: &mut Vec<DrawPlace>,
    program: &Program,
    body: &[Stmt],
) -> Result<(), OutOfMemory>
    ensures { OnOk result (list.new.items
        ≡ list.old.items ++ draws_of_block (program_view program.now) (stmts_view body.now)) }
{
    for s in body {
        push_statement(alloc, list, program, s)?;
    }
    Ok(())
}

#[cycle(statement)]
fn push_arms(
    alloc: Global,
    list: &mut Vec<DrawPlace>,
    program: &Program,
    arms: &[Arm],
) -> Result<(), OutOfMemory>
    ensures { OnOk result (list.new.items
        ≡ list.old.items ++ draws_of_block (program_view program.now) (switch_view arms.now)) }
{
    for arm in arms {
        push_block(alloc, list, program, arm.body.as_slice())?;
    }
    Ok(())
}
